//! Supports and convoys.
ghost use Rattle.std.specs.Prelude.{◌≡◌};
ghost use Rattle.dip_map.specs.Charts.{province};
ghost use Rattle.dip_orders.specs.Rules.{is_supportable};
ghost use Rattle.dip_orders.specs.Checking.{carrier, convoy_order, support_hold_order, support_move_order};

use crate::faults::OrderFault;
use crate::moves::{could_come, could_move, may_convoy};
use crate::units::{checked_other, checked_unit, has_coast, prov_of, unit_at};
use dip_map::{Board, Map};
use dip_names::{Kind, Power, Prov, Unit};
use dip_orders_lines::{Mention, Spot};
use dip_orders_placed::{Order, Other, PlacedOrder};

/// The order to support a unit that stays, or the first check that it fails.
pub(crate) fn support_hold_of(
    map: &Map,
    board: &Board,
    power: Power,
    mention: Mention,
    other: Mention,
) -> Result<PlacedOrder, OrderFault>
    ensures { result ≡ support_hold_order map.now board.now power mention other }
{
    let prov = prov_of(map, mention.at)?;
    let q = prov_of(map, other.at)?;
    let unit = checked_unit(map, unit_at(board, power, prov), mention, prov)?;
    checked_other(map, board, other.kind, q, other.at.coast)?;
    if !could_move(map, &unit, q) {
        return Err(OrderFault::SupportOutOfReach);
    }
    let at = Other {
        kind: other.kind,
        prov: q,
    };
    Ok(PlacedOrder {
        unit,
        order: Order::SupportHold { at },
    })
}

/// Whether a unit may support the move of another one to q.
fn is_supportable(map: &Map, unit: &Unit, other: &Unit, q: Prov) -> bool
    ensures { result ≡ is_supportable map.now unit.now other.now q }
{
    could_move(map, unit, q) && other.place.prov != unit.place.prov && could_come(map, other, q)
}

/// The order to support a move, or the first check that it fails.
pub(crate) fn support_move_of(
    map: &Map,
    board: &Board,
    power: Power,
    mention: Mention,
    other: Mention,
    to: Spot,
) -> Result<PlacedOrder, OrderFault>
    ensures { result ≡ support_move_order map.now board.now power mention other to }
{
    let prov = prov_of(map, mention.at)?;
    let from = prov_of(map, other.at)?;
    let q = prov_of(map, to)?;
    let unit = checked_unit(map, unit_at(board, power, prov), mention, prov)?;
    let mover = checked_other(map, board, other.kind, from, other.at.coast)?;
    if !is_supportable(map, &unit, &mover, q) {
        return Err(OrderFault::SupportOutOfReach);
    }
    let at = Other {
        kind: other.kind,
        prov: from,
    };
    Ok(PlacedOrder {
        unit,
        order: Order::SupportMove { at, to: q },
    })
}

/// The fleet of a convoy: a fleet at sea.
fn carrier(map: &Map, unit: &Unit) -> Result<Unit, OrderFault>
    ensures { result ≡ carrier map.now unit.now }
{
    if !unit.kind.is(Kind::Fleet) {
        return Err(OrderFault::WrongKind);
    }
    if !map.kind(unit.place.prov).is_sea() {
        return Err(OrderFault::NoConvoyThere);
    }
    Ok(*unit)
}

/// The order to convoy an army, or the first check that it fails.
pub(crate) fn convoy_of(
    map: &Map,
    board: &Board,
    power: Power,
    mention: Mention,
    army: Spot,
    to: Spot,
) -> Result<PlacedOrder, OrderFault>
    ensures { result ≡ convoy_order map.now board.now power mention army to }
{
    let prov = prov_of(map, mention.at)?;
    let from = prov_of(map, army)?;
    let q = prov_of(map, to)?;
    let unit = checked_unit(map, unit_at(board, power, prov), mention, prov)?;
    let unit = carrier(map, &unit)?;
    checked_other(map, board, Kind::Army, from, army.coast)?;
    if !has_coast(map, q, to.coast) {
        return Err(OrderFault::WrongCoast);
    }
    if !may_convoy(map, from, q) {
        return Err(OrderFault::NoConvoyThere);
    }
    let at = Other {
        kind: Kind::Army,
        prov: from,
    };
    Ok(PlacedOrder {
        unit,
        order: Order::Convoy { at, to: q },
    })
}
