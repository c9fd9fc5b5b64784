//! Tables of version 1 made into those of version 2, in one transaction.
ghost use Rattle.std.specs.Prelude.{◌≡◌, ◌≤◌, ◌⊎◌, ◌∷◌, ◌++◌, ℕ, suc, pos, [], IfErr, IfOk, IsErrOf, None, OnErr, OnOk, false, map as each};
ghost use Rattle.std.specs.List.{AllByRecursion};
ghost use Rattle.sqlite.specs.declared.types.Value.TheVariants.{Int};
ghost use Rattle.sqlite.specs.Effect.{Database};
ghost use Rattle.sqlite.specs.Held.{state};
ghost use Rattle.sqlite.specs.State.{Survives};
ghost use Rattle.dip_desk_state.specs.Rows.{lines};
ghost use Rattle.dip_store_sql.specs.TablesAfter.{more_ballots, with_ballot, with_choice};
ghost use Rattle.dip_store_sql.specs.Calls.{IsLaid, SelectsFrom, WasKept, Writes, does_show, is_honest, old_tables_in, tables_in};
ghost use Rattle.dip_store_sql.specs.RowFaults.{IsFromOutside};
ghost use Rattle.dip_store_sql.specs.Causes.{IsCaused, has_faulted};
ghost use Rattle.dip_store_sql.specs.Keys.{Differ, same_ballot, same_choice};
ghost use Rattle.dip_store_sql.specs.Rows.{put_ballot, put_choice};
ghost use Rattle.dip_store_sql.specs.Schema.{ballot_table, choice_table};
ghost use Rattle.dip_store_sql.specs.Storing.{CanStand};
ghost use Rattle.dip_map.specs.Charts.{Chart};
ghost use Rattle.sqlite.specs.Tree.{Trees};
ghost use Rattle.dip_store_schema.specs.Founding.{Keeps};
ghost use Rattle.dip_store_schema.specs.Making.{HasTables, Leads, Tries};
ghost use Rattle.dip_store_sql.specs.Old.{HasOld, WasGood, old_tables_of};
ghost use Rattle.dip_store_tables.specs.Renewing.{WereOurs, old_ballot, old_choice, renewed};
ghost use Rattle.dip_store_schema.specs.Refusing.{IsOutage};
ghost use Rattle.dip_store_schema.specs.Renewing.{AreRead, Fills, HasRoomAnew, IsOldStore, Outgrows, Renews, filled, more_choices, rows_from};
ghost use Rattle.dip_store_schema.specs.Renewals.{FillsStore, RenewsStore};
ghost use Rattle.dip_store_schema.specs.Rewriting.{Stands, StandsAt};
ghost use Rattle.dip_store_tables.specs.Tables.{Tables};

use crate::creating::create_choices;
use crate::faults::{StoreFault, desk_fault, open_fault};
use crate::old_rows::{NewBallot, ballots_in, names_in};
use dip_store_sql::{
    RowFault, add_ballot, add_choice, clear_votes, list_games, list_votes, set_version,
};
use dip_store_tables::old_tables_are_renewed;
use sqlite::{Alter, Connection, Error, Transaction};
use std::alloc::Global;

fn add_new_ballot<S: Alter>(tx: &mut Transaction<'_, S>, ballot: &NewBallot) -> Result<(), Error>
    ensures same_reference { tx.new.conn.ghost_name ≡ tx.old.conn.ghost_name }
    ensures writes { Writes (more_ballots (ballot.now ∷ []))
        (state S.Store tx.old.conn.now) (state S.Store tx.new.conn.now) result }
    ensures tries { (old : Database) → (t : Tables) → (n : ℕ)
        → Differ same_ballot (t.ballots ++ ballot.now ∷ [])
        → CanStand ballot_table (Int (pos n) ∷ put_ballot ballot.now)
        → Tries (StandsAt 16 n old t) (StandsAt 16 (suc n) old (with_ballot ballot.now t))
        (state S.Store tx.old.conn.now) (state S.Store tx.new.conn.now) result }
{
    let names = if ballot.draws { "YES" } else { "NO" };
    add_ballot(tx, ballot.game.as_str(), ballot.power.as_str(), names)?;
    Ok(())
}

fn add_ballots<S: Alter>(tx: &mut Transaction<'_, S>, ballots: &[NewBallot]) -> Result<(), Error>
    ensures same_reference { tx.new.conn.ghost_name ≡ tx.old.conn.ghost_name }
    ensures writes { Writes (more_ballots ballots.now)
        (state S.Store tx.old.conn.now) (state S.Store tx.new.conn.now) result }
    ensures tries { (old : Database) → (t : Tables)
        → Differ same_ballot (t.ballots ++ ballots.now)
        → AllByRecursion (CanStand ballot_table) (rows_from 1 put_ballot ballots.now)
        → Tries (StandsAt 16 1 old t) (Stands old (more_ballots ballots.now t))
        (state S.Store tx.old.conn.now) (state S.Store tx.new.conn.now) result }
{
    for ballot in ballots {
        add_new_ballot(tx, ballot)?;
    }
    Ok(())
}

fn add_new_choice<S: Alter>(tx: &mut Transaction<'_, S>, game: &str) -> Result<(), Error>
    ensures same_reference { tx.new.conn.ghost_name ≡ tx.old.conn.ghost_name }
    ensures writes { Writes (more_choices (old_choice game.now ∷ []))
        (state S.Store tx.old.conn.now) (state S.Store tx.new.conn.now) result }
    ensures tries { (old : Database) → (t : Tables) → (n : ℕ)
        → Differ same_choice (t.choices ++ old_choice game.now ∷ [])
        → CanStand choice_table (Int (pos n) ∷ put_choice (old_choice game.now))
        → Tries (StandsAt 18 n old t)
        (StandsAt 18 (suc n) old (with_choice (old_choice game.now) t))
        (state S.Store tx.old.conn.now) (state S.Store tx.new.conn.now) result }
{
    add_choice(tx, game, false)?;
    Ok(())
}

fn add_choices<S: Alter>(tx: &mut Transaction<'_, S>, games: &[String]) -> Result<(), Error>
    ensures same_reference { tx.new.conn.ghost_name ≡ tx.old.conn.ghost_name }
    ensures writes { Writes (more_choices (each old_choice (lines games.now)))
        (state S.Store tx.old.conn.now) (state S.Store tx.new.conn.now) result }
    ensures tries { (old : Database) → (t : Tables)
        → Differ same_choice (t.choices ++ each old_choice (lines games.now))
        → AllByRecursion (CanStand choice_table)
        (rows_from 1 put_choice (each old_choice (lines games.now)))
        → Tries (StandsAt 18 1 old t)
        (Stands old (more_choices (each old_choice (lines games.now)) t))
        (state S.Store tx.old.conn.now) (state S.Store tx.new.conn.now) result }
{
    for game in games {
        add_new_choice(tx, game.as_str())?;
    }
    Ok(())
}

/// Makes and fills the two tables of version 2, clears the votes of the seats' rows, and sets the version.
fn renew_tables<S: Alter>(
    tx: &mut Transaction<'_, S>,
    games: &[String],
    ballots: &[NewBallot],
) -> Result<(), Error>
    ensures same_reference { tx.new.conn.ghost_name ≡ tx.old.conn.ghost_name }
    ensures leads { Leads (HasOld (old_tables_in S.Store tx.old.conn.now)) (HasTables
        (filled (lines games.now) ballots.now (old_tables_in S.Store tx.old.conn.now)))
        (state S.Store tx.old.conn.now) (state S.Store tx.new.conn.now) result }
    ensures tries { (old : Database) → WasGood old
        → AreRead (lines games.now) ballots.now (old_tables_of old.trees)
        → HasRoomAnew old.trees → Tries (λ db. db ≡ old)
        (HasTables (filled (lines games.now) ballots.now (old_tables_of old.trees)))
        (state S.Store tx.old.conn.now) (state S.Store tx.new.conn.now) result }
{
    create_choices(tx)?;
    add_ballots(tx, ballots)?;
    add_choices(tx, games)?;
    clear_votes(tx)?;
    set_version(tx)?;
    Ok(())
}

/// Makes tables of version 1 those of version 2, with these ballots and these games without the option INTENT: the whole of it or nothing.
///
/// # Errors
/// Want of memory, what the disk refused, or a row that is too long to be stored or has no number left. Then what was committed is as
/// before.
fn fill<S: Alter>(
    conn: &mut Connection<S>,
    games: &[String],
    ballots: &[NewBallot],
) -> Result<(), Error>
    requires { conn.old.in_transaction ≡ false }
    ensures { FillsStore S.Store (lines games.now) ballots.now conn.old conn.new result }
{
    let mut tx = conn.transaction();
    renew_tables(&mut tx, games, ballots)?;
    tx.commit()?;
    Ok(())
}

/// The names of all games of a store of version 1.
fn old_games<S: Alter>(conn: &mut Connection<S>, alloc: Global) -> Result<Vec<String>, RowFault>
    ensures value { WasKept S.Store conn.old → is_honest S.Store conn.new → IfOk result (λ v.
        lines v.items ≡ each (λ g. g.name) (old_tables_in S.Store conn.old).games) }
    ensures own { WasKept S.Store conn.old → does_show S.Store conn.old
        → is_honest S.Store conn.new → (m : Chart) → WereOurs m (old_tables_in S.Store conn.old)
        → IfErr result (IsFromOutside (has_faulted S.Store conn.old conn.new)) }
    ensures selects { SelectsFrom (WasKept S.Store) S.Store conn.old conn.new result }
{
    let rows = list_games(conn)?;
    names_in(alloc, rows.as_slice())
}

/// The ballots of all seats of a store of version 1.
fn old_ballots<S: Alter>(
    conn: &mut Connection<S>,
    alloc: Global,
) -> Result<Vec<NewBallot>, RowFault>
    ensures value { WasKept S.Store conn.old → is_honest S.Store conn.new → IfOk result (λ v.
        v.items ≡ each old_ballot (old_tables_in S.Store conn.old).seats) }
    ensures own { WasKept S.Store conn.old → does_show S.Store conn.old
        → is_honest S.Store conn.new → (m : Chart) → WereOurs m (old_tables_in S.Store conn.old)
        → IfErr result (IsFromOutside (has_faulted S.Store conn.old conn.new)) }
    ensures selects { SelectsFrom (WasKept S.Store) S.Store conn.old conn.new result }
{
    let rows = list_votes(conn)?;
    ballots_in(alloc, rows.as_slice())
}

/// Makes tables of version 1 those of version 2, the whole of them or none: a vote becomes a ballot, no game has the option INTENT,
/// and all else stays.
///
/// # Errors
/// `Memory`; `Disk`, of a keeper's rows only where the store told of a fault of the disk, or a row that is written is too long to be
/// stored or has no number left; `OtherSchema` for a vote that no keeper wrote. Then what was committed is as before.
pub fn renew<S: Alter>(conn: &mut Connection<S>, alloc: Global) -> Result<(), StoreFault>
    requires { conn.old.in_transaction ≡ false }
    ensures { RenewsStore S.Store conn.old conn.new result }
{
    old_tables_are_renewed();
    let games = match old_games(conn, alloc) {
        Ok(games) => games,
        Err(fault) => return Err(desk_fault(fault)),
    };
    let ballots = match old_ballots(conn, alloc) {
        Ok(ballots) => ballots,
        Err(fault) => return Err(desk_fault(fault)),
    };
    match fill(conn, games.as_slice(), ballots.as_slice()) {
        Ok(()) => Ok(()),
        Err(error) => Err(open_fault(error)),
    }
}
