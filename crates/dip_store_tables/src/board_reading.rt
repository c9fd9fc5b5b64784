//! A board read from its rows.
ghost use Rattle.std.specs.Prelude.{◌≡◌, ◌<◌, IfNone, IfOk, IfSome};
ghost use Rattle.std.specs.List.{AllByRecursion};
ghost use Rattle.dip_store_tables.specs.Boards.{board_of, season_of};
ghost use Rattle.dip_store_tables.specs.WrittenBoards.{AreOfBoard};

use crate::board_columns::{CentreColumns, UnitColumns};
use crate::centres::{owners, standoff};
use crate::units::{dislodged_units, standing_units};
use dip_map::{Board, Map, Phase, Season};
use std::alloc::{AllocError, Global};

/// The season of a number, from 0 for the movement of Spring to 4 for Winter.
fn season_in(number: u32) -> Option<Season>
    ensures value { IfSome result (λ s. s ≡ season_of number) }
    ensures none { IfNone result (4 < number) }
{
    match number {
        0 => Some(Season::SpringMoves),
        1 => Some(Season::SpringRetreats),
        2 => Some(Season::FallMoves),
        3 => Some(Season::FallRetreats),
        4 => Some(Season::Winter),
        _ => None,
    }
}

/// The board of a game's rows, with its text of standoffs, its year, the number of its season, 0 for the moves of Spring to 4 for
/// Winter, and whether it has the option INTENT.
///
/// None where a code or a name isn't the map's, or there is no season of that number. Rows that were written of a board of the
/// map are read.
pub fn read_board(
    alloc: Global,
    map: &Map,
    units: &[UnitColumns],
    centres: &[CentreColumns],
    standoffs: &str,
    year: u16,
    season: u32,
    intent: bool,
) -> Result<Option<Board>, AllocError>
    ensures value { IfOk result (λ o. IfSome o (λ b.
        b ≡ board_of map.now units.now centres.now standoffs.now year season intent)) }
    ensures none { IfOk result (λ o. IfNone o (
        AreOfBoard map.now units.now centres.now standoffs.now season → ⊥)) }
{
    let Some(season) = season_in(season) else {
        return Ok(None);
    };
    let Some(stand) = standing_units(alloc, map, units)? else {
        return Ok(None);
    };
    let Some(fell) = dislodged_units(alloc, map, units)? else {
        return Ok(None);
    };
    let Some(closed) = standoff(alloc, map, standoffs)? else {
        return Ok(None);
    };
    let Some(owned) = owners(alloc, map, centres)? else {
        return Ok(None);
    };
    Ok(Some(Board::of(stand, fell, closed, owned, Phase { year, season }, intent)))
}
