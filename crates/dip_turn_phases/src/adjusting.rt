//! What builds and removals make of a board.
ghost use Rattle.std.specs.Prelude.{◌≡◌, ◌==◌, ◌&&◌, not, IfOk, map, filter, flat_map, count_by};
ghost use Rattle.std.specs.List.{list_any, filter_map};
ghost use Rattle.dip_orders_placed.specs.Standing.{is_same_unit};
ghost use Rattle.dip_orders.specs.Conditions.{is_build, is_remove};
ghost use Rattle.dip_turn_phases.specs.Adjusting as a;

use crate::disorder::in_disorder;
use crate::lines::Waiver;
use dip_map::{Board, Map};
use dip_names::{Power, Unit};
use dip_orders::{PlacedOrder, builds_due, is_build, is_remove, is_same_unit, removals_due};
use std::alloc::{AllocError, Global};

/// The units of the builds among these orders, in their order.
pub fn units_built(alloc: Global, pending: &[PlacedOrder]) -> Result<Vec<Unit>, AllocError>
    ensures { IfOk result (λ v. v.items ≡ a.units_built pending.now) }
{
    let mut units = Vec::new(alloc);
    for placed in pending {
        if is_build(&placed.order) {
            units.push(placed.unit)?;
        }
    }
    Ok(units)
}

/// Whether the removal of the unit was ordered.
fn is_given(pending: &[PlacedOrder], unit: &Unit) -> bool
    ensures { result ≡ a.is_given pending.now unit.now }
{
    pending.iter().any(|placed| is_remove(&placed.order) && is_same_unit(&placed.unit, unit))
}

/// The units whose removal stands.
pub fn units_given(
    alloc: Global,
    board: &Board,
    pending: &[PlacedOrder],
) -> Result<Vec<Unit>, AllocError>
    ensures { IfOk result (λ v. v.items ≡ a.units_given board.now pending.now) }
{
    let mut units = Vec::new(alloc);
    for unit in board.units() {
        if is_given(pending, unit) {
            units.push(*unit)?;
        }
    }
    Ok(units)
}

/// The units without those that were ordered to be removed.
fn units_kept(
    alloc: Global,
    board: &Board,
    pending: &[PlacedOrder],
) -> Result<Vec<Unit>, AllocError>
    ensures { IfOk result (λ v. v.items ≡ a.units_kept board.now pending.now) }
{
    let mut units = Vec::new(alloc);
    for unit in board.units() {
        if !is_given(pending, unit) {
            units.push(*unit)?;
        }
    }
    Ok(units)
}

/// How many builds of the power were ordered.
fn builds_given(pending: &[PlacedOrder], power: Power) -> usize
    ensures { result ≡ a.builds_given pending.now power }
{
    pending
        .iter()
        .filter(|placed| is_build(&placed.order) && placed.unit.power == power)
        .count()
}

/// How many removals of the power were ordered.
fn removals_given(pending: &[PlacedOrder], power: Power) -> usize
    ensures { result ≡ a.removals_given pending.now power }
{
    pending
        .iter()
        .filter(|placed| is_remove(&placed.order) && placed.unit.power == power)
        .count()
}

/// How many removals a power still owes.
fn removals_owed(board: &Board, pending: &[PlacedOrder], power: Power) -> usize
    ensures { result ≡ a.removals_owed board.now pending.now power }
{
    let due = removals_due(board, power);
    due.saturating_sub(removals_given(pending, power))
}

/// Those of these units that are the power's.
fn units_of_power(alloc: Global, units: &[Unit], power: Power) -> Result<Vec<Unit>, AllocError>
    ensures { IfOk result (λ v. v.items ≡ a.units_of_power power units.now) }
{
    let mut found = Vec::new(alloc);
    for unit in units {
        if unit.power == power {
            found.push(*unit)?;
        }
    }
    Ok(found)
}

/// The units of a power that are removed in disorder, in the order in which they go.
fn disorder_of(
    alloc: Global,
    map: &Map,
    board: &Board,
    pending: &[PlacedOrder],
    power: Power,
) -> Result<Vec<Unit>, AllocError>
    ensures { IfOk result (λ v. v.items ≡ a.disorder_of map.now board.now pending.now power) }
{
    let units = units_kept(alloc, board, pending)?;
    let own = units_of_power(alloc, units.as_slice(), power)?;
    let owed = removals_owed(board, pending, power);
    in_disorder(alloc, map, power, owed, own.as_slice())
}

/// All units that are removed in disorder, power by power.
pub fn disorder(
    alloc: Global,
    map: &Map,
    board: &Board,
    pending: &[PlacedOrder],
) -> Result<Vec<Unit>, AllocError>
    ensures { IfOk result (λ v. v.items ≡ a.disorder map.now board.now pending.now) }
{
    let mut all = Vec::new(alloc);
    for power in map.each_power() {
        let more = disorder_of(alloc, map, board, pending, power)?;
        all.extend_from_slice(more.as_slice())?;
    }
    Ok(all)
}

/// Whether one of these stands where the unit does.
fn is_among(units: &[Unit], unit: &Unit) -> bool
    ensures { result ≡ a.is_among units.now unit.now }
{
    units
        .iter()
        .any(|other| other.place.prov == unit.place.prov)
}

/// The units that stand in none of the provinces of the others.
fn without(alloc: Global, units: &[Unit], gone: &[Unit]) -> Result<Vec<Unit>, AllocError>
    ensures { IfOk result (λ v. v.items ≡ filter (λ u. not (a.is_among gone.now u)) units.now) }
{
    let mut left = Vec::new(alloc);
    for unit in units {
        if !is_among(gone, unit) {
            left.push(*unit)?;
        }
    }
    Ok(left)
}

/// The units after a Winter: those that no order and no disorder removes, and then those that were
/// built.
fn units_after(
    alloc: Global,
    map: &Map,
    board: &Board,
    pending: &[PlacedOrder],
) -> Result<Vec<Unit>, AllocError>
    ensures { IfOk result
        (λ v. v.items ≡ (a.after_adjustment map.now board.now pending.now).units) }
{
    let gone = disorder(alloc, map, board, pending)?;
    let kept = units_kept(alloc, board, pending)?;
    let mut units = without(alloc, kept.as_slice(), gone.as_slice())?;
    let built = units_built(alloc, pending)?;
    units.extend_from_slice(built.as_slice())?;
    Ok(units)
}

/// The board after a Winter: its units are those of `units_after`, and owners and phase stay.
pub fn after_adjustment(
    alloc: Global,
    map: &Map,
    board: &Board,
    pending: &[PlacedOrder],
) -> Result<Board, AllocError>
    ensures { IfOk result (λ b. b ≡ a.after_adjustment map.now board.now pending.now) }
{
    let units = units_after(alloc, map, board, pending)?;
    let owners = board.owners().to_vec(alloc)?;
    Ok(Board::of(
        units,
        Vec::new(alloc),
        Vec::new(alloc),
        owners,
        board.phase(),
        board.intent(),
    ))
}

/// How many builds that are due a power lets go.
fn builds_waived(map: &Map, board: &Board, pending: &[PlacedOrder], power: Power) -> usize
    ensures { result ≡ a.builds_waived map.now board.now pending.now power }
{
    let due = builds_due(map, board, power);
    due.saturating_sub(builds_given(pending, power))
}

/// What a power waives: builds that it may have and didn't order; nothing where there is none.
fn waiver_of(map: &Map, board: &Board, pending: &[PlacedOrder], power: Power) -> Option<Waiver>
    ensures { result ≡ a.waiver map.now board.now pending.now power }
{
    let builds = builds_waived(map, board, pending, power);
    if 0 < builds {
        Some(Waiver { power, builds })
    } else {
        None
    }
}

/// The waived builds, by power.
pub fn waivers(
    alloc: Global,
    map: &Map,
    board: &Board,
    pending: &[PlacedOrder],
) -> Result<Vec<Waiver>, AllocError>
    ensures { IfOk result (λ v. v.items ≡ a.waivers map.now board.now pending.now) }
{
    let mut all = Vec::new(alloc);
    for power in map.each_power() {
        if let Some(waiver) = waiver_of(map, board, pending, power) {
            all.push(waiver)?;
        }
    }
    Ok(all)
}
