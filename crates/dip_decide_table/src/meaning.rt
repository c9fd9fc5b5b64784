//! The orders of a movement as they are meant: by convoy also where a fleet of the army's own power is to carry it.
ghost use Rattle.std.specs.Prelude.{◌≡◌, ◌<◌, All, IfOk, length, map as each};
ghost use Rattle.std.specs.List.{list_any};
ghost use Rattle.dip_decide_table.specs.Rows.{situation_of};
ghost use Rattle.dip_decide_table.specs.Meaning as m;

use crate::placed::Table;
use crate::table::table_of;
use dip_map::{Board, Map};
use dip_names::{Kind, Power, Prov, Unit};
use dip_orders_placed::{Order, PlacedOrder};
use std::alloc::{AllocError, Global};

/// Whether the order is to convoy the army in one province to the other.
fn is_convoy_of(from: Prov, to: Prov, order: &Order) -> bool
    ensures { result ≡ m.is_convoy_of from to order.now }
{
    match order {
        Order::Convoy { at, to: end } => at.kind.is(Kind::Army) && at.prov == from && *end == to,
        _ => false,
    }
}

/// Whether the unit is a fleet of that power in a sea, ordered to convoy the army in the one province to the other.
fn carries_for(map: &Map, power: Power, from: Prov, to: Prov, placed: &PlacedOrder) -> bool
    ensures { result ≡ m.carries_for map.now power from to placed.now }
{
    placed.unit.power == power
        && placed.unit.kind.is(Kind::Fleet)
        && map.kind(placed.unit.place.prov).is_sea()
        && is_convoy_of(from, to, &placed.order)
}

/// Whether a fleet of that power in a sea is ordered to convoy the army from one province to the
/// other.
fn is_carried_for(map: &Map, orders: &[PlacedOrder], power: Power, from: Prov, to: Prov) -> bool
    ensures { result ≡ list_any (m.carries_for map.now power from to) orders.now }
{
    orders
        .iter()
        .any(|placed| carries_for(map, power, from, to, placed))
}

/// Whether the unit is an army between two coastal provinces, whose very move a fleet of its own power in a sea is to convoy.
fn is_meant_by_sea(map: &Map, orders: &[PlacedOrder], unit: &Unit, to: Prov) -> bool
    ensures { result ≡ m.is_meant_by_sea map.now orders.now unit.now to }
{
    unit.kind.is(Kind::Army)
        && map.kind(unit.place.prov).is_coastal()
        && map.kind(to).is_coastal()
        && is_carried_for(map, orders, unit.power, unit.place.prov, to)
}

/// What an order means beside all orders of its board.
fn meant_of(map: &Map, orders: &[PlacedOrder], placed: &PlacedOrder) -> PlacedOrder
    ensures { result ≡ m.meant_of map.now orders.now placed.now }
{
    match placed.order {
        Order::Move { to, via } => PlacedOrder {
            unit: placed.unit,
            order: Order::Move {
                to,
                via: via || is_meant_by_sea(map, orders, &placed.unit, to.prov),
            },
        },
        _ => *placed,
    }
}

/// The orders as the option INTENT reads them: which moves go by convoy.
fn meant_by_sea(
    alloc: Global,
    map: &Map,
    orders: &[PlacedOrder],
) -> Result<Vec<PlacedOrder>, AllocError>
    ensures { IfOk result (λ v. v.items ≡ each (m.meant_of map.now orders.now) orders.now) }
{
    orders
        .iter()
        .map(|placed| meant_of(map, orders, placed))
        .collect(alloc)
}

/// The orders of a movement as they are meant on a board: where the game has the option INTENT, an army's move between two coastal provinces
/// goes by convoy also where a fleet of its own power in a sea is ordered to convoy that very move. With the option off they are meant as
/// they were given. The only error is want of memory.
pub fn orders_as_meant(
    alloc: Global,
    map: &Map,
    board: &Board,
    orders: &[PlacedOrder],
) -> Result<Vec<PlacedOrder>, AllocError>
    ensures { IfOk result (λ v. v.items ≡ m.meant_on map.now board.now orders.now) }
{
    if board.intent() {
        meant_by_sea(alloc, map, orders)
    } else {
        orders.to_vec(alloc)
    }
}

/// The table of these orders as they are meant on a board.
pub fn table_on<'a>(
    alloc: Global,
    map: &'a Map,
    board: &Board,
    orders: &[PlacedOrder],
) -> Result<Table<'a>, AllocError>
    requires within { All (λ o. o.unit.place.prov < length map.now.provinces) orders.now }
    ensures { IfOk result (λ t. situation_of t ≡ m.situation_on map.now board.now orders.now) }
{
    let meant = orders_as_meant(alloc, map, board, orders)?;
    table_of(alloc, map, meant.as_slice())
}
