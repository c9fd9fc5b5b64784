//! A desk's tables in a store that has none.
ghost use Rattle.std.specs.Prelude.{◌≡◌, IfErr, OnErr, OnOk, false};
ghost use Rattle.sqlite.specs.Held.{state};
ghost use Rattle.sqlite.specs.State.{Survives};
ghost use Rattle.dip_store_schema.specs.Founding.{SetsUpTables};
ghost use Rattle.dip_store_sql.specs.Calls.{does_show, is_honest};
ghost use Rattle.dip_store_sql.specs.Causes.{IsCaused, has_faulted};
ghost use Rattle.dip_store_tables.specs.Writing.{new_tables};

use crate::making::make_tables;
use sqlite::{Alter, Connection, Error};

/// Makes our tables and the master's row in one transaction: the whole of it or nothing.
///
/// # Errors
/// Want of memory, what the disk refused, or that one of the tables is there. Then what was committed is as before.
pub fn set_up_tables<S: Alter>(
    conn: &mut Connection<S>,
    map_sum: &[u8; 32],
    digest: &[u8; 32],
) -> Result<(), Error>
    requires { conn.old.in_transaction ≡ false }
    ensures { SetsUpTables S.Store map_sum.now digest.now conn.old conn.new result }
{
    let mut tx = conn.transaction();
    make_tables(&mut tx, map_sum, digest)?;
    tx.commit()?;
    Ok(())
}
