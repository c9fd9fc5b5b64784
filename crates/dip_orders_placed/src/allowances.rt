//! What a power may build or has to remove in Winter.
ghost use Rattle.std.specs.Prelude.{◌≡◌, ◌==◌, ◌<◌, ◌^◌, count_by};
ghost use Rattle.dip_map.specs.Boards.{IsOf, is_power, owns, is_left, is_vacant, centres_owned, units_counted};
ghost use Rattle.dip_orders_placed.specs.Allowances.{vacant_homes, builds_due, removals_due, allowance};

use dip_map::{Board, Map};
use dip_names::{Power, Prov};

/// How many home centres of a power are its own and vacant.
pub fn vacant_homes(map: &Map, board: &Board, power: Power) -> usize
    ensures { result ≡ vacant_homes map.now board.now power }
{
    map.home(power)
        .iter()
        .filter(|prov| board.owns(power, **prov) && board.is_vacant(**prov))
        .count()
}

/// How many units a power may build: as many as it has centres more than units, at most one in each of its vacant home centres.
pub fn builds_due(map: &Map, board: &Board, power: Power) -> usize
    ensures { result ≡ builds_due map.now board.now power }
{
    let centres = board.centres_owned(power);
    let units = board.units_counted(power);
    centres
        .saturating_sub(units)
        .min(vacant_homes(map, board, power))
}

/// How many units a power has to remove: as many as it has more than centres.
pub fn removals_due(board: &Board, power: Power) -> usize
    ensures { result ≡ removals_due board.now power }
{
    let centres = board.centres_owned(power);
    let units = board.units_counted(power);
    units.saturating_sub(centres)
}

/// What a power may build in Winter, or, below zero, has to remove.
///
/// It is the centres that the power owns less its units, standing and dislodged; and where that is above zero, no more
/// than the home centres that the power owns and in which no unit is.
pub fn allowance(map: &Map, board: &Board, power: Power) -> i16
    requires of_map { IsOf map.now board.now }
    ensures { result ≡ allowance map.now board.now power }
{
    map.facts();
    let builds = builds_due(map, board, power);
    let removals = removals_due(board, power);
    builds as i16 - removals as i16
}
