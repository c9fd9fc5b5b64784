//! Statements that delete all rows of a game in a table, or all of a seat.
ghost use Rattle.std.specs.Prelude.{◌≡◌};
ghost use Rattle.sqlite.specs.Held.{state};
ghost use Rattle.dip_store_sql.specs.TablesAfter.{no_ballots, no_centres, no_choices, no_items, no_orders, no_papers, no_pending, no_seats, no_units};
ghost use Rattle.dip_store_sql.specs.Transactions.{Does, always};

use sqlite::{Alter, Error, Transaction, params};

/// Deletes the rows of the game's seats.
pub fn drop_seats<S: Alter>(tx: &mut Transaction<'_, S>, game: &str) -> Result<usize, Error>
    ensures same_reference { tx.new.conn.ghost_name ≡ tx.old.conn.ghost_name }
    ensures does { Does (no_seats game.now) always
        (state S.Store tx.old.conn.now) (state S.Store tx.new.conn.now) result }
{
    tx.execute("DELETE FROM seat WHERE game = ?1", params![game])
}

/// Deletes the rows of the game's units, standing and dislodged.
pub fn drop_units<S: Alter>(tx: &mut Transaction<'_, S>, game: &str) -> Result<usize, Error>
    ensures same_reference { tx.new.conn.ghost_name ≡ tx.old.conn.ghost_name }
    ensures does { Does (no_units game.now) always
        (state S.Store tx.old.conn.now) (state S.Store tx.new.conn.now) result }
{
    tx.execute("DELETE FROM unit WHERE game = ?1", params![game])
}

/// Deletes the rows of the game's owned centres: then nobody owns any.
pub fn drop_centres<S: Alter>(tx: &mut Transaction<'_, S>, game: &str) -> Result<usize, Error>
    ensures same_reference { tx.new.conn.ghost_name ≡ tx.old.conn.ghost_name }
    ensures does { Does (no_centres game.now) always
        (state S.Store tx.old.conn.now) (state S.Store tx.new.conn.now) result }
{
    tx.execute("DELETE FROM centre WHERE game = ?1", params![game])
}

/// Deletes the standing orders of all seats of the game.
pub fn drop_pending<S: Alter>(tx: &mut Transaction<'_, S>, game: &str) -> Result<usize, Error>
    ensures same_reference { tx.new.conn.ghost_name ≡ tx.old.conn.ghost_name }
    ensures does { Does (no_pending game.now) always
        (state S.Store tx.old.conn.now) (state S.Store tx.new.conn.now) result }
{
    tx.execute("DELETE FROM pending WHERE game = ?1", params![game])
}

/// Deletes the standing orders of one seat.
pub fn drop_orders<S: Alter>(
    tx: &mut Transaction<'_, S>,
    game: &str,
    power: &str,
) -> Result<usize, Error>
    ensures same_reference { tx.new.conn.ghost_name ≡ tx.old.conn.ghost_name }
    ensures does { Does (no_orders game.now power.now) always
        (state S.Store tx.old.conn.now) (state S.Store tx.new.conn.now) result }
{
    tx.execute(
        "DELETE FROM pending WHERE game = ?1 AND power = ?2",
        params![game, power],
    )
}

/// Deletes the items of all inboxes of the game.
pub fn drop_items<S: Alter>(tx: &mut Transaction<'_, S>, game: &str) -> Result<usize, Error>
    ensures same_reference { tx.new.conn.ghost_name ≡ tx.old.conn.ghost_name }
    ensures does { Does (no_items game.now) always
        (state S.Store tx.old.conn.now) (state S.Store tx.new.conn.now) result }
{
    tx.execute("DELETE FROM box WHERE game = ?1", params![game])
}

/// Deletes the game's papers.
pub fn drop_papers<S: Alter>(tx: &mut Transaction<'_, S>, game: &str) -> Result<usize, Error>
    ensures same_reference { tx.new.conn.ghost_name ≡ tx.old.conn.ghost_name }
    ensures does { Does (no_papers game.now) always
        (state S.Store tx.old.conn.now) (state S.Store tx.new.conn.now) result }
{
    tx.execute("DELETE FROM paper WHERE game = ?1", params![game])
}

/// Deletes the ballots of all seats of the game.
pub fn drop_ballots<S: Alter>(tx: &mut Transaction<'_, S>, game: &str) -> Result<usize, Error>
    ensures same_reference { tx.new.conn.ghost_name ≡ tx.old.conn.ghost_name }
    ensures does { Does (no_ballots game.now) always
        (state S.Store tx.old.conn.now) (state S.Store tx.new.conn.now) result }
{
    tx.execute("DELETE FROM ballot WHERE game = ?1", params![game])
}

/// Deletes the row that says whether the game has the option INTENT.
pub fn drop_choices<S: Alter>(tx: &mut Transaction<'_, S>, game: &str) -> Result<usize, Error>
    ensures same_reference { tx.new.conn.ghost_name ≡ tx.old.conn.ghost_name }
    ensures does { Does (no_choices game.now) always
        (state S.Store tx.old.conn.now) (state S.Store tx.new.conn.now) result }
{
    tx.execute("DELETE FROM choice WHERE game = ?1", params![game])
}
