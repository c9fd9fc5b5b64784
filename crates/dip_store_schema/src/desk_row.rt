//! The master's row, as one who opens the store reads it.
ghost use Rattle.std.specs.Prelude.{◌≡◌, IfErr, IfOk};
ghost use Rattle.dip_store_schema.specs.Checking.{ReadsDesk};
ghost use Rattle.dip_store_schema.specs.Desk.{IsMarked, shown_columns};
ghost use Rattle.dip_store_sql.specs.RowFaults.{BlamesFor, IsFromOutside};
ghost use Rattle.dip_store_tables.specs.Legible.{AreOurs};
ghost use Rattle.dip_store_sql.specs.Calls.{IsKept, WasKept, does_show, is_honest, old_tables_in, tables_in};
ghost use Rattle.dip_store_sql.specs.Showing.{show_desk};
ghost use Rattle.dip_store_sql.specs.Causes.{has_faulted};
ghost use Rattle.dip_store_tables.specs.Renewing.{WereOurs};
ghost use Rattle.dip_store_tables.specs.Tables.{DeskRow};
ghost use Rattle.dip_store_tables.specs.Written.{IsDeskWritten};

use dip_store_sql::{RowFault, digest_at, find_desk, number_at};
use sqlite::{Alter, Connection, Row};

/// What the master's row says: the version of the tables, the SHA-256 of the map's text, the master's digest, and the number of the
/// master's last letter, 0 where there is none.
#[derive(Drop)]
pub struct DeskColumns {
    pub version: u32,
    pub map_sum: [u8; 32],
    pub digest: [u8; 32],
    pub last: u32,
}

fn columns_in(row: &Row) -> Result<DeskColumns, RowFault>
    ensures value { IfOk result (λ d. d ≡ shown_columns row.now) }
    ensures own { (d : DeskRow) → row.now ≡ show_desk d → IsMarked d → IsDeskWritten d
        → IfErr result (IsFromOutside ⊥) }
    ensures blames { IfErr result (BlamesFor ⊥) }
{
    Ok(DeskColumns {
        version: number_at(row, 0)?,
        map_sum: digest_at(row, 1)?,
        digest: digest_at(row, 2)?,
        last: number_at(row, 3)?,
    })
}

/// The master's row; none where the store has none.
///
/// # Errors
/// Want of memory, the database's own, or a column that no keeper writes.
pub fn read_desk<S: Alter>(conn: &mut Connection<S>) -> Result<Option<DeskColumns>, RowFault>
    ensures new { ReadsDesk S.Store (IsKept S.Store) AreOurs (tables_in S.Store) conn.old conn.new
        result }
    ensures old { ReadsDesk S.Store (WasKept S.Store) WereOurs (old_tables_in S.Store) conn.old
        conn.new result }
    // Whatever the store has, the disk is told of only where it told of a fault of it.
    ensures blames { does_show S.Store conn.old → is_honest S.Store conn.new
        → IfErr result (BlamesFor (has_faulted S.Store conn.old conn.new)) }
{
    let Some(row) = find_desk(conn)? else {
        return Ok(None);
    };
    let columns = columns_in(&row)?;
    Ok(Some(columns))
}
