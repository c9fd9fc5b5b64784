//! Last letters, as rows show them.
ghost use Rattle.std.specs.Prelude.{◌≡◌, ◌<◌, ◌+◌, IfErr, IfOk, option_map};
ghost use Rattle.sqlite.specs.Order.{bytes, column};
ghost use Rattle.dip_store_sql.specs.RowFaults.{IsFromOutside};
ghost use Rattle.dip_store_looks.specs.Readable.{IsKeptReadable};
ghost use Rattle.dip_desk_state.specs.Rows as rows;
ghost use Rattle.dip_store_sql.specs.Rows.{number_in};
ghost use Rattle.dip_store_tables.specs.Reading.{kept_of};

use dip_desk_state::Kept;
use dip_store_sql::{RowFault, digest_at, number_at, text_at};
use dip_store_tables::read_kept;
use sqlite::Row;
use std::alloc::Global;

/// The last letter that the columns from a number on tell: its number, its sum and its reply.
pub(crate) fn kept_in(alloc: Global, row: &Row, at: usize) -> Result<Option<Kept>, RowFault>
    requires { at < 100 }
    ensures value { IfOk result (λ k. option_map rows.kept k
        ≡ kept_of (number_in (column row.now at)) (bytes (column row.now (at + 1)))
        (bytes (column row.now (at + 2)))) }
    ensures own { IsKeptReadable row.now at → IfErr result (IsFromOutside ⊥) }
{
    let last = number_at(row, at)?;
    if last == 0 {
        return Ok(None);
    }
    let sum = digest_at(row, at + 1)?;
    let printed = text_at(row, at + 2)?;
    match read_kept(alloc, last, sum, printed.as_str())? {
        Some(kept) => Ok(kept),
        None => Err(RowFault::Misfit),
    }
}
