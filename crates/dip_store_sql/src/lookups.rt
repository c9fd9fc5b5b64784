//! Queries of one row.
ghost use Rattle.std.specs.Prelude.{◌≡◌, IfErr, IfOk, option_map};
ghost use Rattle.std.specs.List.{find};
ghost use Rattle.dip_store_rows.specs.Tables.{is_ballot, is_choice_in, is_named, is_seat};
ghost use Rattle.dip_store_sql.specs.Calls.{FindsRow, IsKept, Selects, WasKept, does_show, is_honest, old_tables_in, tables_in};
ghost use Rattle.dip_store_sql.specs.Causes.{IsCaused, has_faulted};
ghost use Rattle.dip_store_sql.specs.Refusals.{IsBlamed};
ghost use Rattle.dip_store_sql.specs.Showing.{is_item, is_numbered, show_ballot, show_choice, show_desk, show_digest, show_game, show_item, show_paper, show_seat};
ghost use Rattle.dip_store_sql.specs.TablesAfter.{is_first};

use crate::only::only;
use sqlite::{Alter, Connection, Error, Row, params};

/// The master's row; a store of version 1 has it too.
pub fn find_desk<S: Alter>(conn: &mut Connection<S>) -> Result<Option<Row>, Error>
    ensures new { FindsRow S.Store (IsKept S.Store)
        (λ h. option_map show_desk (find is_first (tables_in S.Store h).desk)) conn.old conn.new
        result }
    ensures old { FindsRow S.Store (WasKept S.Store)
        (λ h. option_map show_desk (find is_first (old_tables_in S.Store h).desk)) conn.old conn.new
        result }
    // Whatever the store has, the disk is told of only where it told of a fault of it.
    ensures blames { does_show S.Store conn.old → is_honest S.Store conn.new
        → IfErr result (IsBlamed (has_faulted S.Store conn.old conn.new)) }
{
    match conn.query_all(
        "SELECT version, map, digest, last, kept, reply FROM desk WHERE id = 1",
        &[],
    ) {
        Ok(rows) => Ok(only(rows)),
        Err(error) => Err(error),
    }
}

/// The row of the game of this name, if there is one.
pub fn find_game<S: Alter>(conn: &mut Connection<S>, game: &str) -> Result<Option<Row>, Error>
    ensures value { IsKept S.Store conn.old → is_honest S.Store conn.new → IfOk result (λ o. o
        ≡ option_map show_game (find (is_named game.now) (tables_in S.Store conn.old).games)) }
    ensures selects { Selects S.Store conn.old conn.new result }
    ensures caused { IsKept S.Store conn.old → does_show S.Store conn.old
        → is_honest S.Store conn.new
        → IfErr result (IsCaused (has_faulted S.Store conn.old conn.new)) }
{
    match conn.query_all(
        "SELECT year, phase, status, due, period, grey, papers, standoff FROM game WHERE name = ?1",
        params![game],
    ) {
        Ok(rows) => Ok(only(rows)),
        Err(error) => Err(error),
    }
}

/// The row of a power's seat in a game, if there is one.
pub fn find_seat<S: Alter>(
    conn: &mut Connection<S>,
    game: &str,
    power: &str,
) -> Result<Option<Row>, Error>
    ensures value { IsKept S.Store conn.old → is_honest S.Store conn.new → IfOk result (λ o. o
        ≡ option_map show_seat
        (find (is_seat game.now power.now) (tables_in S.Store conn.old).seats)) }
    ensures selects { Selects S.Store conn.old conn.new result }
    ensures caused { IsKept S.Store conn.old → does_show S.Store conn.old
        → is_honest S.Store conn.new
        → IfErr result (IsCaused (has_faulted S.Store conn.old conn.new)) }
{
    match conn.query_all(
        "SELECT digest, vote, last, kept, reply, sent, items FROM seat WHERE game = ?1 AND power = ?2",
        params![game, power],
    ) {
        Ok(rows) => Ok(only(rows)),
        Err(error) => Err(error),
    }
}

/// The digest of a seat's secret.
pub fn find_digest<S: Alter>(
    conn: &mut Connection<S>,
    game: &str,
    power: &str,
) -> Result<Option<Row>, Error>
    ensures value { IsKept S.Store conn.old → is_honest S.Store conn.new → IfOk result (λ o. o
        ≡ option_map show_digest
        (find (is_seat game.now power.now) (tables_in S.Store conn.old).seats)) }
    ensures selects { Selects S.Store conn.old conn.new result }
    ensures caused { IsKept S.Store conn.old → does_show S.Store conn.old
        → is_honest S.Store conn.new
        → IfErr result (IsCaused (has_faulted S.Store conn.old conn.new)) }
{
    match conn.query_all(
        "SELECT digest FROM seat WHERE game = ?1 AND power = ?2",
        params![game, power],
    ) {
        Ok(rows) => Ok(only(rows)),
        Err(error) => Err(error),
    }
}

/// The row with a seat's vote, if there is one.
pub fn find_ballot<S: Alter>(
    conn: &mut Connection<S>,
    game: &str,
    power: &str,
) -> Result<Option<Row>, Error>
    ensures value { IsKept S.Store conn.old → is_honest S.Store conn.new → IfOk result (λ o. o
        ≡ option_map show_ballot
        (find (is_ballot game.now power.now) (tables_in S.Store conn.old).ballots)) }
    ensures selects { Selects S.Store conn.old conn.new result }
    ensures caused { IsKept S.Store conn.old → does_show S.Store conn.old
        → is_honest S.Store conn.new
        → IfErr result (IsCaused (has_faulted S.Store conn.old conn.new)) }
{
    match conn.query_all(
        "SELECT names FROM ballot WHERE game = ?1 AND power = ?2",
        params![game, power],
    ) {
        Ok(rows) => Ok(only(rows)),
        Err(error) => Err(error),
    }
}

/// The row that says whether a game has the option INTENT, if there is one.
pub fn find_choice<S: Alter>(conn: &mut Connection<S>, game: &str) -> Result<Option<Row>, Error>
    ensures value { IsKept S.Store conn.old → is_honest S.Store conn.new → IfOk result (λ o. o
        ≡ option_map show_choice
        (find (is_choice_in game.now) (tables_in S.Store conn.old).choices)) }
    ensures selects { Selects S.Store conn.old conn.new result }
    ensures caused { IsKept S.Store conn.old → does_show S.Store conn.old
        → is_honest S.Store conn.new
        → IfErr result (IsCaused (has_faulted S.Store conn.old conn.new)) }
{
    match conn.query_all("SELECT intent FROM choice WHERE game = ?1", params![game]) {
        Ok(rows) => Ok(only(rows)),
        Err(error) => Err(error),
    }
}

/// An item of a seat's inbox.
pub fn find_item<S: Alter>(
    conn: &mut Connection<S>,
    game: &str,
    power: &str,
    number: u32,
) -> Result<Option<Row>, Error>
    ensures value { IsKept S.Store conn.old → is_honest S.Store conn.new → IfOk result (λ o. o
        ≡ option_map show_item
        (find (is_item game.now power.now number) (tables_in S.Store conn.old).boxes)) }
    ensures selects { Selects S.Store conn.old conn.new result }
    ensures caused { IsKept S.Store conn.old → does_show S.Store conn.old
        → is_honest S.Store conn.new
        → IfErr result (IsCaused (has_faulted S.Store conn.old conn.new)) }
{
    match conn.query_all(
        "SELECT grey, writer, addressees, body FROM box WHERE game = ?1 AND power = ?2 AND number = ?3",
        params![game, power, number],
    ) {
        Ok(rows) => Ok(only(rows)),
        Err(error) => Err(error),
    }
}

/// The game's paper of this number, if there is one.
pub fn find_paper<S: Alter>(
    conn: &mut Connection<S>,
    game: &str,
    number: u32,
) -> Result<Option<Row>, Error>
    ensures value { IsKept S.Store conn.old → is_honest S.Store conn.new → IfOk result (λ o. o
        ≡ option_map show_paper
        (find (is_numbered game.now number) (tables_in S.Store conn.old).papers)) }
    ensures selects { Selects S.Store conn.old conn.new result }
    ensures caused { IsKept S.Store conn.old → does_show S.Store conn.old
        → is_honest S.Store conn.new
        → IfErr result (IsCaused (has_faulted S.Store conn.old conn.new)) }
{
    match conn.query_all(
        "SELECT body FROM paper WHERE game = ?1 AND number = ?2",
        params![game, number],
    ) {
        Ok(rows) => Ok(only(rows)),
        Err(error) => Err(error),
    }
}
