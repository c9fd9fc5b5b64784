//! The public part of a game, as it is shared.
ghost use Rattle.std.specs.Prelude.{◌≡◌, IfErr, IfOk, option_map};
ghost use Rattle.dip_store_sql.specs.RowFaults.{IsFromOutside};
ghost use Rattle.dip_store_tables.specs.Legible.{AreOurs};
ghost use Rattle.dip_desk_state.specs.Rows as rows;
ghost use Rattle.dip_desk_state.specs.State.{public_at};
ghost use Rattle.dip_store_sql.specs.Causes.{has_faulted};
ghost use Rattle.dip_store_sql.specs.Calls.{IsKept, Selects, does_show, is_honest, tables_in};
ghost use Rattle.dip_store_tables.specs.Reading.{state_of};

use dip_desk_state::Public;
use dip_map::Map;
use dip_store_looks::look_public;
use dip_store_sql::RowFault;
use dip_store_tables::public_is_found;
use sqlite::{Alter, Connection};
use std::alloc::Global;
use std::rc::Rc;

/// The public part of a game, to be shared; `None` where there is no such game.
///
/// # Errors
/// Want of memory, the database's own, or `Misfit` where a row of it is none that a keeper writes by this map.
pub(crate) fn look_shared_public<S: Alter>(
    conn: &mut Connection<S>,
    alloc: Global,
    map: &Map,
    game: &str,
) -> Result<Option<Rc<Public>>, RowFault>
    ensures value { IsKept S.Store conn.old → is_honest S.Store conn.new → IfOk result (λ o.
        option_map (λ p. rows.public p.value) o
        ≡ public_at game.now (state_of map.now (tables_in S.Store conn.old))) }
    ensures selects { Selects S.Store conn.old conn.new result }
    ensures own { IsKept S.Store conn.old → does_show S.Store conn.old → is_honest S.Store conn.new
        → AreOurs map.now (tables_in S.Store conn.old)
        → IfErr result (IsFromOutside (has_faulted S.Store conn.old conn.new)) }
{
    public_is_found();
    let Some(public) = look_public(conn, alloc, map, game)? else {
        return Ok(None);
    };
    Ok(Some(Rc::new(alloc, public)?))
}
