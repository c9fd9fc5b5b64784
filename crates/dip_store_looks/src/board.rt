//! A board as rows show it.
ghost use Rattle.std.specs.Prelude.{◌≡◌, ◌<◌, ◌^◌, IfErr, IfOk, map as each};
ghost use Rattle.sqlite.specs.Order.{bytes, column};
ghost use Rattle.dip_store_tables.specs.Boards.{board_of};
ghost use Rattle.dip_store_sql.specs.RowFaults.{IsFromOutside};
ghost use Rattle.dip_store_looks.specs.Readable.{IsBoardReadable};
ghost use Rattle.dip_store_sql.specs.Values.{HasNumber};
ghost use Rattle.dip_store_looks.specs.Shown.{shown_centre, shown_unit};
ghost use Rattle.dip_store_sql.specs.Rows.{number_in};

use crate::columns::{centres_of, units_of};
use dip_map::{Board, Map};
use dip_store_sql::{RowFault, number_at, text_at};
use dip_store_tables::read_board;
use sqlite::Row;
use std::alloc::Global;

/// The year of a game's row.
fn year_of(row: &Row) -> Result<u16, RowFault>
    ensures value { IfOk result (λ y. y ≡ number_in (column row.now 0)) }
    ensures own { HasNumber row.now 0 → number_in (column row.now 0) < 2 ^ 16
        → IfErr result (IsFromOutside ⊥) }
{
    match u16::try_from(number_at(row, 0)?) {
        Ok(year) => Ok(year),
        Err(_) => Err(RowFault::Misfit),
    }
}

/// The board of a game's row, its units' rows and its centres' rows, with the option INTENT or without it.
pub(crate) fn board_in(
    alloc: Global,
    map: &Map,
    row: &Row,
    units: &[Row],
    centres: &[Row],
    intent: bool,
) -> Result<Board, RowFault>
    ensures value { IfOk result (λ b. b ≡ board_of map.now (each shown_unit units.now)
        (each shown_centre centres.now) (bytes (column row.now 7)) (number_in (column row.now 0))
        (number_in (column row.now 1)) intent) }
    ensures own { IsBoardReadable map.now row.now units.now centres.now
        → IfErr result (IsFromOutside ⊥) }
{
    let units = units_of(alloc, units)?;
    let centres = centres_of(alloc, centres)?;
    let standoff = text_at(row, 7)?;
    let season = number_at(row, 1)?;
    let read = read_board(
        alloc,
        map,
        units.as_slice(),
        centres.as_slice(),
        standoff.as_str(),
        year_of(row)?,
        season,
        intent,
    )?;
    match read {
        Some(board) => Ok(board),
        None => Err(RowFault::Misfit),
    }
}
