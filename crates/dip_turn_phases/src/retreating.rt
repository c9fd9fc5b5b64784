//! What the retreats make of a board.
ghost use Rattle.std.specs.Prelude.{◌≡◌, ◌==◌, ◌&&◌, IfOk, find, count_by, map};
ghost use Rattle.std.specs.List.{filter_map};
ghost use Rattle.dip_orders_placed.specs.Standing.{is_same_unit};
ghost use Rattle.dip_turn_phases.specs.Retreating as r;

use crate::lines::RetreatLine;
use dip_map::{Board, Dislodged};
use dip_names::{Place, Prov, Unit};
use dip_orders::{Order, PlacedOrder, is_same_unit};
use std::alloc::{AllocError, Global};

/// Whether the order is one for a dislodged unit.
fn is_for_dislodged(order: &Order) -> bool
    ensures { result ≡ r.is_for_dislodged order.now }
{
    match order {
        Order::Retreat { .. } | Order::Disband => true,
        Order::Hold | Order::Move { .. } | Order::SupportHold { .. } => false,
        Order::SupportMove { .. } | Order::Convoy { .. } => false,
        Order::Build | Order::Remove => false,
    }
}

/// The first order to retreat or disband that is the unit's own.
fn found_retreat(pending: &[PlacedOrder], dislodged: &Dislodged) -> Option<PlacedOrder>
    ensures { result ≡ r.found_retreat pending.now dislodged.now }
{
    for placed in pending {
        if is_same_unit(&placed.unit, &dislodged.unit) && is_for_dislodged(&placed.order) {
            return Some(*placed);
        }
    }
    None
}

/// The order of a dislodged unit, to disband where it has none.
fn retreat_order(pending: &[PlacedOrder], dislodged: &Dislodged) -> Order
    ensures { result ≡ r.retreat_order pending.now dislodged.now }
{
    match found_retreat(pending, dislodged) {
        Some(placed) => placed.order,
        None => Order::Disband,
    }
}

/// Where an order sends a dislodged unit.
pub fn refuge(order: &Order) -> Option<Place>
    ensures { result ≡ r.refuge order.now }
{
    match order {
        Order::Retreat { to } => Some(*to),
        Order::Hold | Order::Move { .. } | Order::SupportHold { .. } => None,
        Order::SupportMove { .. } | Order::Convoy { .. } | Order::Disband => None,
        Order::Build | Order::Remove => None,
    }
}

/// Where a dislodged unit is to go.
fn goal(pending: &[PlacedOrder], dislodged: &Dislodged) -> Option<Place>
    ensures { result ≡ r.goal pending.now dislodged.now }
{
    refuge(&retreat_order(pending, dislodged))
}

/// Whether the place is in that province.
fn is_in(place: Option<Place>, prov: Prov) -> bool
    ensures { result ≡ r.is_in place prov }
{
    match place {
        Some(place) => place.prov == prov,
        None => false,
    }
}

/// Whether one alone of the dislodged units goes to a province.
fn is_sought_by_one(pending: &[PlacedOrder], dislodged: &[Dislodged], prov: Prov) -> bool
    ensures { result ≡ r.is_sought_by_one pending.now dislodged.now prov }
{
    let count = dislodged
        .iter()
        .filter(|unit| is_in(goal(pending, unit), prov))
        .count();
    count == 1
}

/// A dislodged unit where it stands after the retreats of all of these, if it does.
fn after_retreat(pending: &[PlacedOrder], all: &[Dislodged], dislodged: &Dislodged) -> Option<Unit>
    ensures { result ≡ r.after_retreat pending.now all.now dislodged.now }
{
    match goal(pending, dislodged) {
        None => None,
        Some(to) => {
            if is_sought_by_one(pending, all, to.prov) {
                Some(Unit {
                    power: dislodged.unit.power,
                    kind: dislodged.unit.kind,
                    place: to,
                })
            } else {
                None
            }
        }
    }
}

/// The units that stood, and then those that retreated, each at its new place.
fn units_after(
    alloc: Global,
    board: &Board,
    pending: &[PlacedOrder],
) -> Result<Vec<Unit>, AllocError>
    ensures { IfOk result (λ v. v.items ≡ (r.after_retreats board.now pending.now).units) }
{
    let mut units = board.units().to_vec(alloc)?;
    for dislodged in board.dislodged() {
        if let Some(unit) = after_retreat(pending, board.dislodged(), dislodged) {
            units.push(unit)?;
        }
    }
    Ok(units)
}

/// The board after the retreats, with nobody dislodged and no standoffs; owners and phase stay.
pub fn after_retreats(
    alloc: Global,
    board: &Board,
    pending: &[PlacedOrder],
) -> Result<Board, AllocError>
    ensures { IfOk result (λ b. b ≡ r.after_retreats board.now pending.now) }
{
    let units = units_after(alloc, board, pending)?;
    let owners = board.owners().to_vec(alloc)?;
    Ok(Board::of(
        units,
        Vec::new(alloc),
        Vec::new(alloc),
        owners,
        board.phase(),
        board.intent(),
    ))
}

/// What is told of a dislodged unit: its order, and whether it goes where that sends it.
fn retreat_line(board: &Board, pending: &[PlacedOrder], dislodged: &Dislodged) -> RetreatLine
    ensures { result ≡ r.retreat_line board.now pending.now dislodged.now }
{
    RetreatLine {
        placed: PlacedOrder {
            unit: dislodged.unit,
            order: retreat_order(pending, dislodged),
        },
        is_made: after_retreat(pending, board.dislodged(), dislodged).is_some(),
    }
}

/// A line for each dislodged unit, in the board's order.
pub fn retreat_lines(
    alloc: Global,
    board: &Board,
    pending: &[PlacedOrder],
) -> Result<Vec<RetreatLine>, AllocError>
    ensures { IfOk result (λ v. v.items ≡ r.retreat_lines board.now pending.now) }
{
    let mut lines = Vec::new(alloc);
    for dislodged in board.dislodged() {
        lines.push(retreat_line(board, pending, dislodged))?;
    }
    Ok(lines)
}
