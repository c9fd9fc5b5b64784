//! Whether a store has a desk's tables, before it is opened.
ghost use Rattle.std.specs.Prelude.{◌≡◌, IfErr, IsErrOf, OnOk};
ghost use Rattle.sha2.specs.Sha256.{sha256};
ghost use Rattle.dip_store_sql.specs.Schema.{our_schema};
ghost use Rattle.dip_store_schema.specs.Checking.{ChecksDesk, ChecksRow, ChecksTables};
ghost use Rattle.dip_store_schema.specs.Known.{HasOldTables, HasOurTables};
ghost use Rattle.dip_store_tables.specs.Legible.{AreOurs};
ghost use Rattle.dip_store_sql.specs.Calls.{IsKept, WasKept, does_show, is_honest, old_tables_in, tables_in};
ghost use Rattle.dip_store_sql.specs.Causes.{has_faulted};
ghost use Rattle.dip_store_schema.specs.Refusing.{Differs};
ghost use Rattle.dip_store_sql.specs.Old.{old_schema};
ghost use Rattle.dip_store_tables.specs.Renewing.{WereOurs};

use crate::desk_row::{DeskColumns, read_desk};
use crate::faults::{StoreFault, desk_fault, open_fault};
use crate::known::{knows_all, knows_old};
use dip_letters::sum;
use sqlite::{Alter, Connection};

/// The version of the tables.
pub const VERSION: u32 = 2;

/// The version of tables that are made anew at opening.
const OLD_VERSION: u32 = 1;

/// That the ten tables are there.
fn check_tables<S: Alter>(conn: &mut Connection<S>) -> Result<(), StoreFault>
    ensures { ChecksTables S.Store HasOurTables our_schema (IsKept S.Store) conn.old conn.new
        result }
{
    match knows_all(conn) {
        Ok(true) => Ok(()),
        Ok(false) => Err(StoreFault::OtherSchema),
        Err(error) => Err(open_fault(error)),
    }
}

/// That the master's row is of this version, and says this map.
fn check_columns(columns: &DeskColumns, version: u32, map_text: &str) -> Result<(), StoreFault>
    ensures is { OnOk result
        ((columns.now.version ≡ version) × (columns.now.map_sum ≡ sha256 map_text.now)) }
    ensures differs { IfErr result (Differs version columns.now (sha256 map_text.now)) }
{
    if columns.version != version {
        return Err(StoreFault::OtherSchema);
    }
    if columns.map_sum != sum(map_text.as_bytes()) {
        return Err(StoreFault::OtherMap);
    }
    Ok(())
}

/// That there is a master's row, of this version and with this map.
fn check_row<S: Alter>(
    conn: &mut Connection<S>,
    version: u32,
    map_text: &str,
) -> Result<(), StoreFault>
    ensures new { ChecksRow S.Store (IsKept S.Store) AreOurs (tables_in S.Store) version
        (sha256 map_text.now) conn.old conn.new result }
    ensures old { ChecksRow S.Store (WasKept S.Store) WereOurs (old_tables_in S.Store) version
        (sha256 map_text.now) conn.old conn.new result }
    // Whatever the store has, the disk is told of only where it told of a fault of it.
    ensures caused { is_honest S.Store conn.new → does_show S.Store conn.old
        → IsErrOf result StoreFault.Disk → has_faulted S.Store conn.old conn.new }
{
    match read_desk(conn) {
        Ok(Some(columns)) => check_columns(&columns, version, map_text),
        Ok(None) => Err(StoreFault::OtherSchema),
        Err(fault) => Err(desk_fault(fault)),
    }
}

/// That the store has a desk's tables of this version, made with this map's text.
pub fn check_desk<S: Alter>(conn: &mut Connection<S>, map_text: &str) -> Result<(), StoreFault>
    ensures { ChecksDesk S.Store HasOurTables our_schema (IsKept S.Store) AreOurs
        (tables_in S.Store) 2 (sha256 map_text.now) conn.old conn.new result }
{
    check_tables(conn)?;
    check_row(conn, VERSION, map_text)
}

/// That the eight tables of version 1 are there.
fn check_old_tables<S: Alter>(conn: &mut Connection<S>) -> Result<(), StoreFault>
    ensures { ChecksTables S.Store HasOldTables old_schema (WasKept S.Store) conn.old conn.new
        result }
{
    match knows_old(conn) {
        Ok(true) => Ok(()),
        Ok(false) => Err(StoreFault::OtherSchema),
        Err(error) => Err(open_fault(error)),
    }
}

/// That the store has the tables of version 1, made with this map's text.
pub fn check_old_desk<S: Alter>(conn: &mut Connection<S>, map_text: &str) -> Result<(), StoreFault>
    ensures { ChecksDesk S.Store HasOldTables old_schema (WasKept S.Store) WereOurs
        (old_tables_in S.Store) 1 (sha256 map_text.now) conn.old conn.new result }
{
    check_old_tables(conn)?;
    check_row(conn, OLD_VERSION, map_text)
}
