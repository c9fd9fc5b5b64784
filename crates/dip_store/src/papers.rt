//! A paper of a game that is there.
ghost use Rattle.std.specs.Prelude.{◌≡◌, IfErr, IfOk, option_map, string_bytes};
ghost use Rattle.dip_map.specs.Charts.{Chart};
ghost use Rattle.dip_store_sql.specs.RowFaults.{IsFromOutside};
ghost use Rattle.dip_store_tables.specs.Legible.{AreOurs};
ghost use Rattle.dip_desk_state.specs.State.{paper_at};
ghost use Rattle.dip_store_sql.specs.Causes.{has_faulted};
ghost use Rattle.dip_store_sql.specs.Calls.{IsKept, Selects, does_show, is_honest, tables_in};
ghost use Rattle.dip_store_tables.specs.Reading.{state_of};

use dip_store_looks::look_paper;
use dip_store_sql::{RowFault, find_game};
use dip_store_tables::paper_is_found;
use sqlite::{Alter, Connection};

/// The text of a game's paper by its number; `None` where there is no such game or paper. A paper's row may stand without its game,
/// where no keeper wrote it; such a paper isn't shown.
///
/// # Errors
/// Want of memory, the database's own, or a row that no keeper writes.
pub(crate) fn look_game_paper<S: Alter>(
    conn: &mut Connection<S>,
    game: &str,
    number: u32,
) -> Result<Option<String>, RowFault>
    ensures value { IsKept S.Store conn.old → is_honest S.Store conn.new → IfOk result (λ o.
        (m : Chart) → option_map string_bytes o
        ≡ paper_at game.now number (state_of m (tables_in S.Store conn.old))) }
    ensures selects { Selects S.Store conn.old conn.new result }
    ensures own { IsKept S.Store conn.old → does_show S.Store conn.old → is_honest S.Store conn.new
        → (m : Chart) → AreOurs m (tables_in S.Store conn.old)
        → IfErr result (IsFromOutside (has_faulted S.Store conn.old conn.new)) }
{
    paper_is_found();
    let Some(_game) = find_game(conn, game)? else {
        return Ok(None);
    };
    let paper = look_paper(conn, game, number)?;
    Ok(paper)
}
