//! The orders of a movement: who goes where and how, and which supports and convoys match.
ghost use Rattle.std.specs.Prelude.{◌≡◌, ◌==◌, ◌&&◌, Some, find, not, is_some};
ghost use Rattle.std.specs.List.{list_any};
ghost use Rattle.dip_names.specs.Kinds.{is_kind, is_sea};
ghost use Rattle.dip_map.specs.Charts.{province};
ghost use Rattle.dip_names.specs.declared.names.Kind.TheVariants.{Fleet};
ghost use Rattle.dip_decide_rules.specs.Matching.{destination, target_of, order_at, is_convoyed, is_there, is_matched, is_carried, situation};
ghost use Rattle.dip_decide_rules.specs.Movement.{is_at, is_listed, head_to_head, is_support};
ghost use Rattle.dip_turn_phases.specs.Outcomes.{is_convoy};

use dip_map::Map;
use dip_names::{Kind, Prov};
use dip_orders_placed::{Order, Other, PlacedOrder};

/// Where an order sends its unit.
pub(crate) fn destination(order: &Order) -> Option<Prov>
    ensures { result ≡ destination order.now }
{
    match order {
        Order::Move { to, .. } => Some(to.prov),
        _ => None,
    }
}

/// Whether a unit goes to that province.
pub(crate) fn is_at(target: Option<Prov>, prov: Prov) -> bool
    ensures { result ≡ is_at target prov }
{
    match target {
        Some(target) => target == prov,
        None => false,
    }
}

/// Whether the province is one of these.
pub(crate) fn is_listed(list: &[Prov], prov: Prov) -> bool
    ensures { result ≡ is_listed list.now prov }
{
    list.contains(&prov)
}

/// The first of these orders whose unit stands in the province, if there is one.
pub(crate) fn order_at(orders: &[PlacedOrder], prov: Prov) -> Option<PlacedOrder>
    ensures { result ≡ order_at orders.now prov }
{
    for placed in orders {
        if placed.unit.place.prov == prov {
            return Some(*placed);
        }
    }
    None
}

/// Where the unit in a province is ordered to move to.
fn target(orders: &[PlacedOrder], prov: Prov) -> Option<Prov>
    ensures { result ≡ target_of (order_at orders.now prov) }
{
    match order_at(orders, prov) {
        Some(placed) => destination(&placed.order),
        None => None,
    }
}

/// Whether the order is a move by convoy.
pub(crate) fn is_convoyed(map: &Map, placed: &PlacedOrder) -> bool
    ensures { result ≡ is_convoyed map.now (Some placed.now) }
{
    match (placed.unit.kind, placed.order) {
        (Kind::Army, Order::Move { to, via }) => {
            via || !map.is_army_next(placed.unit.place.prov, to.prov)
        }
        _ => false,
    }
}

/// Whether the unit in a province moves by convoy.
pub(crate) fn is_convoyed_from(map: &Map, orders: &[PlacedOrder], prov: Prov) -> bool
    ensures { result ≡ is_convoyed map.now (order_at orders.now prov) }
{
    match order_at(orders, prov) {
        Some(placed) => is_convoyed(map, &placed),
        None => false,
    }
}

/// Whether units of the two provinces go to one another's, neither by convoy.
pub(crate) fn is_head_to_head(map: &Map, orders: &[PlacedOrder], one: Prov, other: Prov) -> bool
    ensures { result ≡ head_to_head (situation map.now orders.now) one other }
{
    is_at(target(orders, one), other)
        && is_at(target(orders, other), one)
        && !is_convoyed_from(map, orders, one)
        && !is_convoyed_from(map, orders, other)
}

/// Whether the unit that a support or a convoy names is there.
fn is_there(orders: &[PlacedOrder], at: &Other, prov: Prov) -> bool
    ensures { result ≡ is_there at.now (order_at orders.now prov) }
{
    match order_at(orders, prov) {
        Some(placed) => placed.unit.kind.is(at.kind),
        None => false,
    }
}

/// Whether a support matches, and is for the unit in a province.
fn is_matched(orders: &[PlacedOrder], order: &Order, prov: Prov) -> bool
    ensures { result ≡ is_matched (order_at orders.now) order.now prov }
{
    match order {
        Order::SupportHold { at } => {
            at.prov == prov && is_there(orders, at, prov) && target(orders, prov).is_none()
        }
        Order::SupportMove { at, to } => {
            at.prov == prov && is_there(orders, at, prov) && is_at(target(orders, prov), *to)
        }
        _ => false,
    }
}

/// Whether a support matches the order of a unit.
fn matches_any(orders: &[PlacedOrder], order: &Order) -> bool
    ensures { result ≡ list_any (λ o. is_matched (order_at orders.now) order.now o.unit.place.prov)
        orders.now }
{
    orders
        .iter()
        .any(|other| is_matched(orders, order, other.unit.place.prov))
}

/// Whether the support of the unit in a province matches.
pub(crate) fn is_support(map: &Map, orders: &[PlacedOrder], prov: Prov) -> bool
    ensures { result ≡ is_support (situation map.now orders.now) prov }
{
    let _ = map;
    match order_at(orders, prov) {
        Some(placed) => matches_any(orders, &placed.order),
        None => false,
    }
}

/// Whether a convoy matches, and is for the unit in a province.
fn is_carried(map: &Map, orders: &[PlacedOrder], order: &Order, prov: Prov) -> bool
    ensures { result ≡ is_carried map.now (order_at orders.now) order.now prov }
{
    match order {
        Order::Convoy { at, to } => {
            at.prov == prov
                && is_there(orders, at, prov)
                && is_convoyed_from(map, orders, prov)
                && is_at(target(orders, prov), *to)
        }
        _ => false,
    }
}

/// Whether a unit is a fleet in a sea.
fn is_sailing(map: &Map, placed: &PlacedOrder) -> bool
    ensures { result ≡
        (is_kind placed.now.unit.kind Fleet && is_sea
        (province map.now placed.now.unit.place.prov).terrain) }
{
    placed.unit.kind.is(Kind::Fleet) && map.kind(placed.unit.place.prov).is_sea()
}

/// Whether a convoy matches the order of an army.
fn carries_any(map: &Map, orders: &[PlacedOrder], order: &Order) -> bool
    ensures { result ≡ list_any
        (λ o. is_carried map.now (order_at orders.now) order.now o.unit.place.prov) orders.now }
{
    orders.iter().any(|other| is_carried(map, orders, order, other.unit.place.prov))
}

/// Whether the convoy of the fleet in a province matches.
pub(crate) fn is_convoy(map: &Map, orders: &[PlacedOrder], prov: Prov) -> bool
    ensures { result ≡ is_convoy (situation map.now orders.now) prov }
{
    match order_at(orders, prov) {
        Some(placed) => is_sailing(map, &placed) && carries_any(map, orders, &placed.order),
        None => false,
    }
}
