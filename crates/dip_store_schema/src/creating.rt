//! The statements that make our tables, one after another.
ghost use Rattle.std.specs.Prelude.{◌≡◌};
ghost use Rattle.sqlite.specs.Effect.{Database};
ghost use Rattle.sqlite.specs.Held.{state};
ghost use Rattle.dip_store_schema.specs.Making.{HasFirst, HasTables, Leads, Tries};
ghost use Rattle.dip_store_schema.specs.Rewriting.{HasBallotsOver, Stands};
ghost use Rattle.dip_store_sql.specs.TablesAfter.{no_tables};
ghost use Rattle.dip_store_tables.specs.Tables.{Tables};
ghost use Rattle.dip_store_sql.specs.Old.{HasNine, HasOld, WasGood, old_tables_of};

use sqlite::{Alter, Error, Transaction};

/// The table of the master's row.
fn create_desk<S: Alter>(tx: &mut Transaction<'_, S>) -> Result<usize, Error>
    ensures same_reference { tx.new.conn.ghost_name ≡ tx.old.conn.ghost_name }
    ensures leads { Leads (HasFirst 0) (HasFirst 1)
        (state S.Store tx.old.conn.now) (state S.Store tx.new.conn.now) result }
    ensures tries { Tries (HasFirst 0) (HasFirst 1)
        (state S.Store tx.old.conn.now) (state S.Store tx.new.conn.now) result }
{
    tx.execute(
        "CREATE TABLE desk (id INTEGER NOT NULL UNIQUE, version INTEGER NOT NULL, map BLOB NOT NULL, digest BLOB NOT NULL, last INTEGER NOT NULL, kept BLOB NOT NULL, reply TEXT NOT NULL) STRICT",
        &[],
    )
}

/// The table of games.
fn create_game<S: Alter>(tx: &mut Transaction<'_, S>) -> Result<usize, Error>
    ensures same_reference { tx.new.conn.ghost_name ≡ tx.old.conn.ghost_name }
    ensures leads { Leads (HasFirst 1) (HasFirst 2)
        (state S.Store tx.old.conn.now) (state S.Store tx.new.conn.now) result }
    ensures tries { Tries (HasFirst 1) (HasFirst 2)
        (state S.Store tx.old.conn.now) (state S.Store tx.new.conn.now) result }
{
    tx.execute(
        "CREATE TABLE game (name TEXT NOT NULL PRIMARY KEY, year INTEGER NOT NULL, phase INTEGER NOT NULL, status TEXT NOT NULL, due INTEGER NOT NULL, period INTEGER NOT NULL, grey INTEGER NOT NULL, papers INTEGER NOT NULL, standoff TEXT NOT NULL) STRICT",
        &[],
    )
}

/// The table of seats.
fn create_seat<S: Alter>(tx: &mut Transaction<'_, S>) -> Result<usize, Error>
    ensures same_reference { tx.new.conn.ghost_name ≡ tx.old.conn.ghost_name }
    ensures leads { Leads (HasFirst 2) (HasFirst 3)
        (state S.Store tx.old.conn.now) (state S.Store tx.new.conn.now) result }
    ensures tries { Tries (HasFirst 2) (HasFirst 3)
        (state S.Store tx.old.conn.now) (state S.Store tx.new.conn.now) result }
{
    tx.execute(
        "CREATE TABLE seat (game TEXT NOT NULL, power TEXT NOT NULL, digest BLOB NOT NULL, vote INTEGER NOT NULL, last INTEGER NOT NULL, kept BLOB NOT NULL, reply TEXT NOT NULL, sent INTEGER NOT NULL, items INTEGER NOT NULL, PRIMARY KEY (game, power)) STRICT",
        &[],
    )
}

/// The table of units.
fn create_unit<S: Alter>(tx: &mut Transaction<'_, S>) -> Result<usize, Error>
    ensures same_reference { tx.new.conn.ghost_name ≡ tx.old.conn.ghost_name }
    ensures leads { Leads (HasFirst 3) (HasFirst 4)
        (state S.Store tx.old.conn.now) (state S.Store tx.new.conn.now) result }
    ensures tries { Tries (HasFirst 3) (HasFirst 4)
        (state S.Store tx.old.conn.now) (state S.Store tx.new.conn.now) result }
{
    tx.execute(
        "CREATE TABLE unit (game TEXT NOT NULL, province TEXT NOT NULL, dislodged INTEGER NOT NULL, power TEXT NOT NULL, kind INTEGER NOT NULL, coast TEXT NOT NULL, origin TEXT NOT NULL, PRIMARY KEY (game, province, dislodged)) STRICT",
        &[],
    )
}

/// The table of owned centres.
fn create_centre<S: Alter>(tx: &mut Transaction<'_, S>) -> Result<usize, Error>
    ensures same_reference { tx.new.conn.ghost_name ≡ tx.old.conn.ghost_name }
    ensures leads { Leads (HasFirst 4) (HasFirst 5)
        (state S.Store tx.old.conn.now) (state S.Store tx.new.conn.now) result }
    ensures tries { Tries (HasFirst 4) (HasFirst 5)
        (state S.Store tx.old.conn.now) (state S.Store tx.new.conn.now) result }
{
    tx.execute(
        "CREATE TABLE centre (game TEXT NOT NULL, province TEXT NOT NULL, power TEXT NOT NULL, PRIMARY KEY (game, province)) STRICT",
        &[],
    )
}

/// The table of standing orders.
fn create_pending<S: Alter>(tx: &mut Transaction<'_, S>) -> Result<usize, Error>
    ensures same_reference { tx.new.conn.ghost_name ≡ tx.old.conn.ghost_name }
    ensures leads { Leads (HasFirst 5) (HasFirst 6)
        (state S.Store tx.old.conn.now) (state S.Store tx.new.conn.now) result }
    ensures tries { Tries (HasFirst 5) (HasFirst 6)
        (state S.Store tx.old.conn.now) (state S.Store tx.new.conn.now) result }
{
    tx.execute(
        "CREATE TABLE pending (game TEXT NOT NULL, power TEXT NOT NULL, province TEXT NOT NULL, line TEXT NOT NULL, PRIMARY KEY (game, power, province)) STRICT",
        &[],
    )
}

/// The table of inboxes.
fn create_box<S: Alter>(tx: &mut Transaction<'_, S>) -> Result<usize, Error>
    ensures same_reference { tx.new.conn.ghost_name ≡ tx.old.conn.ghost_name }
    ensures leads { Leads (HasFirst 6) (HasFirst 7)
        (state S.Store tx.old.conn.now) (state S.Store tx.new.conn.now) result }
    ensures tries { Tries (HasFirst 6) (HasFirst 7)
        (state S.Store tx.old.conn.now) (state S.Store tx.new.conn.now) result }
{
    tx.execute(
        "CREATE TABLE box (game TEXT NOT NULL, power TEXT NOT NULL, number INTEGER NOT NULL, grey INTEGER NOT NULL, writer TEXT NOT NULL, addressees TEXT NOT NULL, body TEXT NOT NULL, PRIMARY KEY (game, power, number)) STRICT",
        &[],
    )
}

/// The table of papers.
fn create_paper<S: Alter>(tx: &mut Transaction<'_, S>) -> Result<usize, Error>
    ensures same_reference { tx.new.conn.ghost_name ≡ tx.old.conn.ghost_name }
    ensures leads { Leads (HasFirst 7) (HasFirst 8)
        (state S.Store tx.old.conn.now) (state S.Store tx.new.conn.now) result }
    ensures tries { Tries (HasFirst 7) (HasFirst 8)
        (state S.Store tx.old.conn.now) (state S.Store tx.new.conn.now) result }
{
    tx.execute(
        "CREATE TABLE paper (game TEXT NOT NULL, number INTEGER NOT NULL, body TEXT NOT NULL, PRIMARY KEY (game, number)) STRICT",
        &[],
    )
}

/// The table of ballots, the vote of each seat.
fn create_ballot<S: Alter>(tx: &mut Transaction<'_, S>) -> Result<usize, Error>
    ensures same_reference { tx.new.conn.ghost_name ≡ tx.old.conn.ghost_name }
    ensures leads { Leads (HasFirst 8) (HasFirst 9)
        (state S.Store tx.old.conn.now) (state S.Store tx.new.conn.now) result }
    ensures tries { Tries (HasFirst 8) (HasFirst 9)
        (state S.Store tx.old.conn.now) (state S.Store tx.new.conn.now) result }
    ensures over { (t : Tables) → Leads (HasOld t) (HasNine t)
        (state S.Store tx.old.conn.now) (state S.Store tx.new.conn.now) result }
    ensures tries_over { (old : Database) → WasGood old → Tries (λ db. db ≡ old)
        (HasBallotsOver old)
        (state S.Store tx.old.conn.now) (state S.Store tx.new.conn.now) result }
{
    tx.execute(
        "CREATE TABLE ballot (game TEXT NOT NULL, power TEXT NOT NULL, names TEXT NOT NULL, PRIMARY KEY (game, power)) STRICT",
        &[],
    )
}

/// The table of what was chosen for each game.
fn create_choice<S: Alter>(tx: &mut Transaction<'_, S>) -> Result<usize, Error>
    ensures same_reference { tx.new.conn.ghost_name ≡ tx.old.conn.ghost_name }
    ensures leads { Leads (HasFirst 9) (HasTables no_tables)
        (state S.Store tx.old.conn.now) (state S.Store tx.new.conn.now) result }
    ensures tries { Tries (HasFirst 9) (HasTables no_tables)
        (state S.Store tx.old.conn.now) (state S.Store tx.new.conn.now) result }
    ensures over { (t : Tables) → Leads (HasNine t) (HasTables t)
        (state S.Store tx.old.conn.now) (state S.Store tx.new.conn.now) result }
    ensures tries_over { (old : Database) → Tries (HasBallotsOver old)
        (Stands old (old_tables_of old.trees))
        (state S.Store tx.old.conn.now) (state S.Store tx.new.conn.now) result }
{
    tx.execute(
        "CREATE TABLE choice (game TEXT NOT NULL PRIMARY KEY, intent INTEGER NOT NULL) STRICT",
        &[],
    )
}

/// The tables of the master, of games and of seats.
pub(crate) fn create_people<S: Alter>(tx: &mut Transaction<'_, S>) -> Result<(), Error>
    ensures same_reference { tx.new.conn.ghost_name ≡ tx.old.conn.ghost_name }
    ensures leads { Leads (HasFirst 0) (HasFirst 3)
        (state S.Store tx.old.conn.now) (state S.Store tx.new.conn.now) result }
    ensures tries { Tries (HasFirst 0) (HasFirst 3)
        (state S.Store tx.old.conn.now) (state S.Store tx.new.conn.now) result }
{
    create_desk(tx)?;
    create_game(tx)?;
    create_seat(tx)?;
    Ok(())
}

/// The tables of a board and of orders.
pub(crate) fn create_boards<S: Alter>(tx: &mut Transaction<'_, S>) -> Result<(), Error>
    ensures same_reference { tx.new.conn.ghost_name ≡ tx.old.conn.ghost_name }
    ensures leads { Leads (HasFirst 3) (HasFirst 6)
        (state S.Store tx.old.conn.now) (state S.Store tx.new.conn.now) result }
    ensures tries { Tries (HasFirst 3) (HasFirst 6)
        (state S.Store tx.old.conn.now) (state S.Store tx.new.conn.now) result }
{
    create_unit(tx)?;
    create_centre(tx)?;
    create_pending(tx)?;
    Ok(())
}

/// The tables of inboxes and papers.
pub(crate) fn create_texts<S: Alter>(tx: &mut Transaction<'_, S>) -> Result<(), Error>
    ensures same_reference { tx.new.conn.ghost_name ≡ tx.old.conn.ghost_name }
    ensures leads { Leads (HasFirst 6) (HasFirst 8)
        (state S.Store tx.old.conn.now) (state S.Store tx.new.conn.now) result }
    ensures tries { Tries (HasFirst 6) (HasFirst 8)
        (state S.Store tx.old.conn.now) (state S.Store tx.new.conn.now) result }
{
    create_box(tx)?;
    create_paper(tx)?;
    Ok(())
}

/// The tables of ballots and of what was chosen, the last.
pub(crate) fn create_choices<S: Alter>(tx: &mut Transaction<'_, S>) -> Result<(), Error>
    ensures same_reference { tx.new.conn.ghost_name ≡ tx.old.conn.ghost_name }
    ensures leads { Leads (HasFirst 8) (HasTables no_tables)
        (state S.Store tx.old.conn.now) (state S.Store tx.new.conn.now) result }
    ensures tries { Tries (HasFirst 8) (HasTables no_tables)
        (state S.Store tx.old.conn.now) (state S.Store tx.new.conn.now) result }
    ensures over { (t : Tables) → Leads (HasOld t) (HasTables t)
        (state S.Store tx.old.conn.now) (state S.Store tx.new.conn.now) result }
    ensures tries_over { (old : Database) → WasGood old → Tries (λ db. db ≡ old)
        (Stands old (old_tables_of old.trees))
        (state S.Store tx.old.conn.now) (state S.Store tx.new.conn.now) result }
{
    create_ballot(tx)?;
    create_choice(tx)?;
    Ok(())
}
