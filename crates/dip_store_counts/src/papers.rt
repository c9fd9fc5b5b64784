//! What is known of the papers of a game, or found in its row.
ghost use Rattle.std.specs.Prelude.{◌≡◌, ◌<◌, ◌^◌, IfErr, IfOk};
ghost use Rattle.std.specs.List.{AllByRecursion};
ghost use Rattle.dip_store_sql.specs.Causes.{has_faulted};
ghost use Rattle.dip_store_sql.specs.Calls.{IsKept, Selects, does_show, is_honest, tables_in};
ghost use Rattle.dip_store_sql.specs.RowFaults.{FailsFor};
ghost use Rattle.dip_store_counts.specs.Counts.{Peeks};
ghost use Rattle.dip_store_counts.specs.Knowing.{ArePapersKnown, papers_in};

use dip_store_sql::{RowFault, find_game};
use sqlite::{Alter, Connection};

/// How many papers a game has, by its row; none where there is no such game.
fn find_papers<S: Alter>(conn: &mut Connection<S>, game: &str) -> Result<Option<u32>, RowFault>
    ensures value { IsKept S.Store conn.old → is_honest S.Store conn.new → IfOk result (λ n. n
        ≡ papers_in game.now (tables_in S.Store conn.old).games) }
    ensures selects { Selects S.Store conn.old conn.new result }
    ensures fails { IsKept S.Store conn.old → does_show S.Store conn.old
        → is_honest S.Store conn.new
        → AllByRecursion (λ g. g.papers < 2 ^ 32) (tables_in S.Store conn.old).games
        → IfErr result (FailsFor (has_faulted S.Store conn.old conn.new) ⊥) }
{
    let Some(row) = find_game(conn, game)? else {
        return Ok(None);
    };
    let count: u32 = row.get(6)?;
    Ok(Some(count))
}

/// How many papers a game has; nothing is asked where it is known.
pub(crate) fn know_papers<S: Alter>(
    conn: &mut Connection<S>,
    game: &str,
    known: Option<u32>,
) -> Result<Option<u32>, RowFault>
    ensures value { IsKept S.Store conn.old
        → ArePapersKnown known game.now (tables_in S.Store conn.old).games
        → is_honest S.Store conn.new → IfOk result (λ n. n
        ≡ papers_in game.now (tables_in S.Store conn.old).games) }
    ensures peeks { Peeks S.Store conn.old conn.new result }
    ensures fails { IsKept S.Store conn.old → does_show S.Store conn.old
        → is_honest S.Store conn.new
        → AllByRecursion (λ g. g.papers < 2 ^ 32) (tables_in S.Store conn.old).games
        → IfErr result (FailsFor (has_faulted S.Store conn.old conn.new) ⊥) }
{
    match known {
        Some(count) => Ok(Some(count)),
        None => find_papers(conn, game),
    }
}
