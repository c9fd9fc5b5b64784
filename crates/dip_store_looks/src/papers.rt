//! Papers.
ghost use Rattle.std.specs.Prelude.{◌≡◌, IfErr, IfOk, option_map, string_bytes};
ghost use Rattle.std.specs.List.{find};
ghost use Rattle.dip_map.specs.Charts.{Chart};
ghost use Rattle.dip_store_sql.specs.RowFaults.{IsFromOutside};
ghost use Rattle.dip_store_tables.specs.Legible.{AreOurs};
ghost use Rattle.dip_store_sql.specs.Causes.{has_faulted};
ghost use Rattle.dip_store_sql.specs.Calls.{IsKept, Selects, does_show, is_honest, tables_in};
ghost use Rattle.dip_store_sql.specs.Showing.{is_numbered};

use dip_store_sql::{RowFault, find_paper, text_at};
use sqlite::{Alter, Connection};

/// The text of a game's paper by its number; none where there is no such game or paper.
///
/// # Errors
/// Want of memory, or the database's own.
pub fn look_paper<S: Alter>(
    conn: &mut Connection<S>,
    game: &str,
    number: u32,
) -> Result<Option<String>, RowFault>
    ensures value { IsKept S.Store conn.old → is_honest S.Store conn.new → IfOk result (λ o.
        option_map string_bytes o ≡ option_map (λ p. p.body)
        (find (is_numbered game.now number) (tables_in S.Store conn.old).papers)) }
    ensures selects { Selects S.Store conn.old conn.new result }
    ensures own { IsKept S.Store conn.old → does_show S.Store conn.old → is_honest S.Store conn.new
        → (m : Chart) → AreOurs m (tables_in S.Store conn.old)
        → IfErr result (IsFromOutside (has_faulted S.Store conn.old conn.new)) }
{
    let Some(row) = find_paper(conn, game, number)? else {
        return Ok(None);
    };
    let body = text_at(&row, 0)?;
    Ok(Some(body))
}
