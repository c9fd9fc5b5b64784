//! What became of each order of a movement, and of its unit.
ghost use Rattle.std.specs.Prelude.{◌≡◌, IfOk};
ghost use Rattle.dip_decide_rules.specs.Matching.{situation};
ghost use Rattle.dip_decide_rules.specs.Results.{values_in};
ghost use Rattle.dip_turn_phases.specs.Moving.{moved_board};
ghost use Rattle.dip_turn_phases.specs.Outcomes as o;

use crate::lines::{Fate, MovementLine, Outcome};
use crate::moving::{dislodged_unit, has_moved, is_driven_out, may_go};
use crate::orders::{is_convoy, is_listed, is_support};
use crate::standoffs::has_path;
use dip_decide_rules::Resolution;
use dip_map::{Board, Map};
use dip_orders_placed::{Order, PlacedOrder};
use std::alloc::{AllocError, Global};

/// What becomes of a move: it succeeds, has a path and fails, or has none.
fn move_outcome(
    map: &Map,
    resolution: &Resolution,
    orders: &[PlacedOrder],
    placed: &PlacedOrder,
) -> Outcome
    ensures { result ≡ o.move_outcome (situation map.now orders.now) (values_in resolution.now)
        placed.now }
{
    if has_moved(resolution, placed) {
        return Outcome::Moves;
    }
    if has_path(map, resolution, orders, placed.unit.place.prov) {
        Outcome::Bounced
    } else {
        Outcome::NoRoute
    }
}

/// What became of a support: void where it doesn't match.
fn support_outcome(
    map: &Map,
    resolution: &Resolution,
    orders: &[PlacedOrder],
    placed: &PlacedOrder,
) -> Outcome
    ensures { result ≡ o.support_outcome (situation map.now orders.now) (values_in resolution.now)
        placed.now }
{
    if !is_support(map, orders, placed.unit.place.prov) {
        return Outcome::Void;
    }
    if is_listed(resolution.supports.as_slice(), placed.unit.place.prov) {
        Outcome::Given
    } else {
        Outcome::Cut
    }
}

/// What becomes of a convoy: it matches, or doesn't.
fn convoy_outcome(map: &Map, orders: &[PlacedOrder], placed: &PlacedOrder) -> Outcome
    ensures { result ≡ o.convoy_outcome (situation map.now orders.now) placed.now }
{
    if is_convoy(map, orders, placed.unit.place.prov) {
        Outcome::Convoys
    } else {
        Outcome::Void
    }
}

/// What became of an order.
fn outcome_of(
    map: &Map,
    resolution: &Resolution,
    orders: &[PlacedOrder],
    placed: &PlacedOrder,
) -> Outcome
    ensures { result ≡ o.outcome map.now (values_in resolution.now) orders.now placed.now }
{
    match placed.order {
        Order::Hold => Outcome::Holds,
        Order::Move { .. } => move_outcome(map, resolution, orders, placed),
        Order::SupportHold { .. } | Order::SupportMove { .. } => {
            support_outcome(map, resolution, orders, placed)
        }
        Order::Convoy { .. } => convoy_outcome(map, orders, placed),
        Order::Retreat { .. } | Order::Disband | Order::Build | Order::Remove => Outcome::Holds,
    }
}

/// What became of a unit, on the board with all dislodged units.
fn fate_of(
    alloc: Global,
    map: &Map,
    moved: &Board,
    resolution: &Resolution,
    orders: &[PlacedOrder],
    placed: &PlacedOrder,
) -> Result<Fate, AllocError>
    ensures { IfOk result
        (λ f. f ≡ o.fate_on map.now moved.now (values_in resolution.now) orders.now placed.now) }
{
    if !is_driven_out(resolution, orders, placed) {
        return Ok(Fate::Stands);
    }
    let unit = dislodged_unit(map, resolution, orders, placed);
    if may_go(alloc, map, moved, &unit)? {
        Ok(Fate::Dislodged)
    } else {
        Ok(Fate::Destroyed)
    }
}

/// The line of an order, with what became of it.
fn movement_line(
    alloc: Global,
    map: &Map,
    moved: &Board,
    resolution: &Resolution,
    orders: &[PlacedOrder],
    placed: &PlacedOrder,
) -> Result<MovementLine, AllocError>
    ensures { IfOk result
        (λ l. l ≡ o.line_on map.now moved.now (values_in resolution.now) orders.now placed.now) }
{
    let fate = fate_of(alloc, map, moved, resolution, orders, placed)?;
    Ok(MovementLine {
        placed: *placed,
        outcome: outcome_of(map, resolution, orders, placed),
        fate,
    })
}

/// A line for each of the orders as they were given, in their order; `orders` are the same as they are meant, and `moved` is the board
/// with all dislodged units.
pub fn movement_lines(
    alloc: Global,
    map: &Map,
    moved: &Board,
    resolution: &Resolution,
    orders: &[PlacedOrder],
    given: &[PlacedOrder],
) -> Result<Vec<MovementLine>, AllocError>
    ensures { IfOk result
        (λ v. v.items
        ≡ o.lines_on map.now moved.now (values_in resolution.now) orders.now given.now) }
{
    let mut lines = Vec::new(alloc);
    for placed in given {
        let line = movement_line(alloc, map, moved, resolution, orders, placed)?;
        lines.push(line)?;
    }
    Ok(lines)
}
