//! The master's row.
ghost use Rattle.std.specs.Prelude.{◌≡◌, IfErr, IfOk};
ghost use Rattle.dip_map.specs.Charts.{Chart};
ghost use Rattle.dip_store_sql.specs.RowFaults.{IsFromOutside};
ghost use Rattle.dip_store_looks.specs.Readable.{IsDeskReadable};
ghost use Rattle.dip_store_looks.specs.Shown.{shown_desk};
ghost use Rattle.dip_store_tables.specs.Legible.{AreOurs};
ghost use Rattle.dip_desk_state.specs.ChangeRows as desk_rows;
ghost use Rattle.dip_store_sql.specs.Causes.{has_faulted};
ghost use Rattle.dip_store_sql.specs.Calls.{IsKept, Selects, does_show, is_honest, tables_in};
ghost use Rattle.dip_store_tables.specs.Coding.{AreCoded};
ghost use Rattle.dip_store_tables.specs.Reading.{state_of};

use crate::letters::kept_in;
use dip_desk_state::Desk;
use dip_store_sql::{RowFault, digest_at, find_desk};
use sqlite::{Alter, Connection, Row};
use std::alloc::Global;

fn desk_in(alloc: Global, row: &Row) -> Result<Desk, RowFault>
    ensures value { IfOk result (λ d. desk_rows.desk d ≡ shown_desk row.now) }
    ensures own { IsDeskReadable row.now → IfErr result (IsFromOutside ⊥) }
{
    Ok(Desk {
        digest: digest_at(row, 2)?,
        kept: kept_in(alloc, row, 3)?,
    })
}

/// The digest of the master's secret, and the master's last letter.
///
/// # Errors
/// Want of memory, the database's own, or `Misfit` where the row isn't there or is none that a keeper writes.
pub fn look_desk<S: Alter>(conn: &mut Connection<S>, alloc: Global) -> Result<Desk, RowFault>
    ensures value { IsKept S.Store conn.old → is_honest S.Store conn.new → IfOk result (λ d.
        (m : Chart) → AreCoded m (tables_in S.Store conn.old)
        → desk_rows.desk d ≡ (state_of m (tables_in S.Store conn.old)).desk) }
    ensures selects { Selects S.Store conn.old conn.new result }
    ensures own { IsKept S.Store conn.old → does_show S.Store conn.old → is_honest S.Store conn.new
        → (m : Chart) → AreOurs m (tables_in S.Store conn.old)
        → IfErr result (IsFromOutside (has_faulted S.Store conn.old conn.new)) }
{
    let Some(row) = find_desk(conn)? else {
        return Err(RowFault::Misfit);
    };
    desk_in(alloc, &row)
}
