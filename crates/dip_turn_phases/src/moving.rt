//! What a movement makes of a board.
ghost use Rattle.std.specs.Prelude.{◌≡◌, Some, IfOk, find, filter, map, length, nat_lt, not};
ghost use Rattle.dip_decide_rules.specs.Results.{values_in};
ghost use Rattle.dip_turn_phases.specs.Moving as m;

use crate::orders::{destination, is_at, is_convoyed, is_listed};
use crate::standoffs::standoffs_after;
use dip_decide_rules::Resolution;
use dip_map::{Board, Dislodged, Map};
use dip_names::{Place, Prov, Unit};
use dip_orders_placed::{Order, PlacedOrder, retreats};
use std::alloc::{AllocError, Global};

/// Where an order leads a unit from its place.
fn leads_to(place: Place, order: &Order) -> Place
    ensures { result ≡ m.leads_to place order.now }
{
    match order {
        Order::Move { to, .. } => *to,
        Order::Hold | Order::SupportHold { .. } | Order::SupportMove { .. } => place,
        Order::Convoy { .. } | Order::Retreat { .. } | Order::Disband => place,
        Order::Build | Order::Remove => place,
    }
}

/// Whether the move of a unit succeeds.
pub(crate) fn has_moved(resolution: &Resolution, placed: &PlacedOrder) -> bool
    ensures { result ≡ m.has_moved (values_in resolution.now) placed.now }
{
    is_listed(resolution.moves.as_slice(), placed.unit.place.prov)
}

/// A unit where it stands after the movement, unless it is dislodged.
fn unit_after(resolution: &Resolution, placed: &PlacedOrder) -> Unit
    ensures { result ≡ m.unit_after (values_in resolution.now) placed.now }
{
    if has_moved(resolution, placed) {
        Unit {
            power: placed.unit.power,
            kind: placed.unit.kind,
            place: leads_to(placed.unit.place, &placed.order),
        }
    } else {
        placed.unit
    }
}

/// Whether the order is a move into that province that succeeds.
fn enters(resolution: &Resolution, prov: Prov, placed: &PlacedOrder) -> bool
    ensures { result ≡ m.enters (values_in resolution.now) prov placed.now }
{
    is_at(destination(&placed.order), prov) && has_moved(resolution, placed)
}

/// Who entered a province.
fn entrant(resolution: &Resolution, orders: &[PlacedOrder], prov: Prov) -> Option<PlacedOrder>
    ensures { result ≡ m.entrant (values_in resolution.now) orders.now prov }
{
    for placed in orders {
        if enters(resolution, prov, placed) {
            return Some(*placed);
        }
    }
    None
}

/// Whether a unit is dislodged: it stays, and somebody entered its province.
pub(crate) fn is_driven_out(
    resolution: &Resolution,
    orders: &[PlacedOrder],
    placed: &PlacedOrder,
) -> bool
    ensures { result ≡ m.is_driven_out (values_in resolution.now) orders.now placed.now }
{
    !has_moved(resolution, placed) && entrant(resolution, orders, placed.unit.place.prov).is_some()
}

/// Where an attacker came from; none where it came by convoy.
fn origin(map: &Map, entrant: &Option<PlacedOrder>) -> Option<Prov>
    ensures { result ≡ m.origin map.now entrant.now }
{
    match entrant {
        Some(placed) => {
            if is_convoyed(map, placed) {
                None
            } else {
                Some(placed.unit.place.prov)
            }
        }
        None => None,
    }
}

/// A dislodged unit, with its attacker's origin.
pub(crate) fn dislodged_unit(
    map: &Map,
    resolution: &Resolution,
    orders: &[PlacedOrder],
    placed: &PlacedOrder,
) -> Dislodged
    ensures { result ≡ m.dislodged_unit map.now (values_in resolution.now) orders.now placed.now }
{
    let entrant = entrant(resolution, orders, placed.unit.place.prov);
    Dislodged {
        unit: placed.unit,
        origin: origin(map, &entrant),
    }
}

/// The units that stand after the movement.
fn standing_after(
    alloc: Global,
    resolution: &Resolution,
    orders: &[PlacedOrder],
) -> Result<Vec<Unit>, AllocError>
    ensures { IfOk result (λ v. v.items ≡ m.standing_after (values_in resolution.now) orders.now) }
{
    orders
        .iter()
        .filter(|placed| !is_driven_out(resolution, orders, placed))
        .map(|placed| unit_after(resolution, placed))
        .collect(alloc)
}

/// The units that the movement dislodged.
fn dislodged_after(
    alloc: Global,
    map: &Map,
    resolution: &Resolution,
    orders: &[PlacedOrder],
) -> Result<Vec<Dislodged>, AllocError>
    ensures { IfOk result
        (λ v. v.items ≡ m.dislodged_after map.now (values_in resolution.now) orders.now) }
{
    orders
        .iter()
        .filter(|placed| is_driven_out(resolution, orders, placed))
        .map(|placed| dislodged_unit(map, resolution, orders, placed))
        .collect(alloc)
}

/// The board with all dislodged units.
pub fn moved_board(
    alloc: Global,
    map: &Map,
    board: &Board,
    resolution: &Resolution,
    orders: &[PlacedOrder],
) -> Result<Board, AllocError>
    ensures { IfOk result
        (λ b. b ≡ m.moved_board map.now board.now (values_in resolution.now) orders.now) }
{
    let units = standing_after(alloc, resolution, orders)?;
    let dislodged = dislodged_after(alloc, map, resolution, orders)?;
    let standoff = standoffs_after(alloc, map, resolution, orders, units.as_slice())?;
    let owners = board.owners().to_vec(alloc)?;
    Ok(Board::of(
        units,
        dislodged,
        standoff,
        owners,
        board.phase(),
        board.intent(),
    ))
}

/// Whether a dislodged unit has a place to retreat to.
pub(crate) fn may_go(
    alloc: Global,
    map: &Map,
    board: &Board,
    dislodged: &Dislodged,
) -> Result<bool, AllocError>
    ensures { IfOk result (λ b. b ≡ m.may_go map.now board.now dislodged.now) }
{
    let places = retreats(alloc, map, board, dislodged)?;
    Ok(0 < places.len())
}

/// Those of the dislodged units that have a place to retreat to.
fn dislodged_with_retreats(
    alloc: Global,
    map: &Map,
    board: &Board,
) -> Result<Vec<Dislodged>, AllocError>
    ensures { IfOk result (λ v. v.items ≡ filter (m.may_go map.now board.now) board.now.dislodged) }
{
    let mut spared = Vec::new(alloc);
    for dislodged in board.dislodged() {
        if may_go(alloc, map, board, dislodged)? {
            spared.push(*dislodged)?;
        }
    }
    Ok(spared)
}

/// The board without the dislodged units that have no place to retreat to.
pub fn without_destroyed(alloc: Global, map: &Map, board: &Board) -> Result<Board, AllocError>
    ensures { IfOk result (λ b. b ≡ m.without_destroyed map.now board.now) }
{
    let dislodged = dislodged_with_retreats(alloc, map, board)?;
    let units = board.units().to_vec(alloc)?;
    let standoff = board.standoff().to_vec(alloc)?;
    let owners = board.owners().to_vec(alloc)?;
    Ok(Board::of(
        units,
        dislodged,
        standoff,
        owners,
        board.phase(),
        board.intent(),
    ))
}
