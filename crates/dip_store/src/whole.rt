//! A change in one transaction, made whole or not at all.
ghost use Rattle.std.specs.Prelude.{◌≡◌, ◌<◌, All, IfErr, false};
ghost use Rattle.dip_desk_state.specs.Bounds.{most_items};
ghost use Rattle.dip_desk_state.specs.ChangeRows as machine;
ghost use Rattle.dip_store_tables.specs.ChangeColumns.{IsWritable};
ghost use Rattle.dip_store_sql.specs.Causes.{has_faulted};
ghost use Rattle.dip_store_sql.specs.Calls.{IsKept, does_show, is_honest, tables_in};
ghost use Rattle.dip_store_sql.specs.Keys.{AreKeyed};
ghost use Rattle.dip_store_sql.specs.Refusals.{IsBlamed, IsWant};
ghost use Rattle.dip_store_changes.specs.Parts.{changing_row};
ghost use Rattle.dip_store.specs.Making.{Makes};

use dip_desk_state::Change;
use dip_map::Map;
use dip_store_changes::make_parts;
use dip_store_counts::{AuthorRow, Reader};
use sqlite::{Alter, Connection, Error};
use std::alloc::Global;

/// Makes the whole change or nothing of it. The author's row has these columns beside the letter, where the author has a
/// seat, and it may be known that no order of it stood; where it is press, the readers have it.
pub(crate) fn make_with<S: Alter>(
    conn: &mut Connection<S>,
    alloc: Global,
    map: &Map,
    change: &Change,
    row: Option<AuthorRow>,
    unordered: bool,
    readers: &[Reader],
) -> Result<(), Error>
    requires idle { conn.old.in_transaction ≡ false }
    requires writable { IsWritable map.now (machine.change change.now) }
    requires room { All (λ r. r.items < most_items) readers.now }
    ensures makes { Makes S.Store
        (changing_row row unordered readers.now map.now (machine.change change.now))
        conn.old conn.new result }
    ensures wants { IsKept S.Store conn.old → does_show S.Store conn.old
        → is_honest S.Store conn.new → AreKeyed (changing_row row unordered readers.now
        map.now (machine.change change.now) (tables_in S.Store conn.old))
        → IfErr result (IsWant (has_faulted S.Store conn.old conn.new)) }
    ensures blames { IsKept S.Store conn.old → does_show S.Store conn.old
        → is_honest S.Store conn.new
        → IfErr result (IsBlamed (has_faulted S.Store conn.old conn.new)) }
{
    let mut tx = conn.transaction();
    make_parts(alloc, &mut tx, map, change, row, unordered, readers)?;
    tx.commit()
}
