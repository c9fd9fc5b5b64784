//! Queries of the rows of a game, of a seat, or of a store of version 1, in the order in which they were put in.
ghost use Rattle.std.specs.Prelude.{◌≡◌, IfErr, IfOk, filter, map};
ghost use Rattle.dip_store_rows.specs.Tables.{is_centre_in, is_pending, is_seat_in, is_unit_in};
ghost use Rattle.dip_store_sql.specs.Calls.{IsKept, Selects, SelectsFrom, WasKept, does_show, is_honest, old_tables_in, tables_in};
ghost use Rattle.dip_store_sql.specs.Causes.{IsCaused, has_faulted};
ghost use Rattle.dip_store_sql.specs.Showing.{show_centre, show_listed, show_name, show_order, show_unit, show_vote};

use sqlite::{Alter, Connection, Error, Row, params};

/// The rows of a game's seats, in the order in which CREATE named them.
pub fn list_seats<S: Alter>(conn: &mut Connection<S>, game: &str) -> Result<Vec<Row>, Error>
    ensures value { IsKept S.Store conn.old → is_honest S.Store conn.new → IfOk result (λ v. v.items
        ≡ map show_listed (filter (is_seat_in game.now) (tables_in S.Store conn.old).seats)) }
    ensures selects { Selects S.Store conn.old conn.new result }
    ensures caused { IsKept S.Store conn.old → does_show S.Store conn.old
        → is_honest S.Store conn.new
        → IfErr result (IsCaused (has_faulted S.Store conn.old conn.new)) }
{
    match conn.query_all(
        "SELECT power, digest, vote, last, kept, reply, sent, items FROM seat WHERE game = ?1 ORDER BY rowid",
        params![game],
    ) {
        Ok(rows) => Ok(rows),
        Err(error) => Err(error),
    }
}

/// The units of a game's board, as they were put in.
pub fn list_units<S: Alter>(conn: &mut Connection<S>, game: &str) -> Result<Vec<Row>, Error>
    ensures value { IsKept S.Store conn.old → is_honest S.Store conn.new → IfOk result (λ v. v.items
        ≡ map show_unit (filter (is_unit_in game.now) (tables_in S.Store conn.old).units)) }
    ensures selects { Selects S.Store conn.old conn.new result }
    ensures caused { IsKept S.Store conn.old → does_show S.Store conn.old
        → is_honest S.Store conn.new
        → IfErr result (IsCaused (has_faulted S.Store conn.old conn.new)) }
{
    match conn.query_all(
        "SELECT province, dislodged, power, kind, coast, origin FROM unit WHERE game = ?1 ORDER BY rowid",
        params![game],
    ) {
        Ok(rows) => Ok(rows),
        Err(error) => Err(error),
    }
}

/// The centres of a game that have an owner, as they were put in.
pub fn list_centres<S: Alter>(conn: &mut Connection<S>, game: &str) -> Result<Vec<Row>, Error>
    ensures value { IsKept S.Store conn.old → is_honest S.Store conn.new → IfOk result (λ v. v.items
        ≡ map show_centre (filter (is_centre_in game.now) (tables_in S.Store conn.old).centres)) }
    ensures selects { Selects S.Store conn.old conn.new result }
    ensures caused { IsKept S.Store conn.old → does_show S.Store conn.old
        → is_honest S.Store conn.new
        → IfErr result (IsCaused (has_faulted S.Store conn.old conn.new)) }
{
    match conn.query_all(
        "SELECT province, power FROM centre WHERE game = ?1 ORDER BY rowid",
        params![game],
    ) {
        Ok(rows) => Ok(rows),
        Err(error) => Err(error),
    }
}

/// The orders that stand for a seat, as they were put in.
pub fn list_orders<S: Alter>(
    conn: &mut Connection<S>,
    game: &str,
    power: &str,
) -> Result<Vec<Row>, Error>
    ensures value { IsKept S.Store conn.old → is_honest S.Store conn.new → IfOk result (λ v. v.items
        ≡ map show_order
        (filter (is_pending game.now power.now) (tables_in S.Store conn.old).pending)) }
    ensures selects { Selects S.Store conn.old conn.new result }
    ensures caused { IsKept S.Store conn.old → does_show S.Store conn.old
        → is_honest S.Store conn.new
        → IfErr result (IsCaused (has_faulted S.Store conn.old conn.new)) }
{
    match conn.query_all(
        "SELECT province, line FROM pending WHERE game = ?1 AND power = ?2 ORDER BY rowid",
        params![game, power],
    ) {
        Ok(rows) => Ok(rows),
        Err(error) => Err(error),
    }
}

/// The names of the games of a store of version 1.
pub fn list_games<S: Alter>(conn: &mut Connection<S>) -> Result<Vec<Row>, Error>
    ensures value { WasKept S.Store conn.old → is_honest S.Store conn.new
        → IfOk result (λ v. v.items ≡ map show_name (old_tables_in S.Store conn.old).games) }
    ensures selects { SelectsFrom (WasKept S.Store) S.Store conn.old conn.new result }
    ensures caused { WasKept S.Store conn.old → does_show S.Store conn.old
        → is_honest S.Store conn.new
        → IfErr result (IsCaused (has_faulted S.Store conn.old conn.new)) }
{
    match conn.query_all("SELECT name FROM game ORDER BY rowid", &[]) {
        Ok(rows) => Ok(rows),
        Err(error) => Err(error),
    }
}

/// The votes in the rows of all seats of a store of version 1.
pub fn list_votes<S: Alter>(conn: &mut Connection<S>) -> Result<Vec<Row>, Error>
    ensures value { WasKept S.Store conn.old → is_honest S.Store conn.new
        → IfOk result (λ v. v.items ≡ map show_vote (old_tables_in S.Store conn.old).seats) }
    ensures selects { SelectsFrom (WasKept S.Store) S.Store conn.old conn.new result }
    ensures caused { WasKept S.Store conn.old → does_show S.Store conn.old
        → is_honest S.Store conn.new
        → IfErr result (IsCaused (has_faulted S.Store conn.old conn.new)) }
{
    match conn.query_all("SELECT game, power, vote FROM seat ORDER BY rowid", &[]) {
        Ok(rows) => Ok(rows),
        Err(error) => Err(error),
    }
}
