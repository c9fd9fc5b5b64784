//! Where a unit may go, and hold and move orders.
ghost use Rattle.std.specs.Prelude.{◌≡◌, ◌==◌, ◌&&◌};
ghost use Rattle.std.specs.Str.{bytes_eq};
ghost use Rattle.dip_map.specs.Charts.{province, shore};
ghost use Rattle.dip_orders.specs.Checking.{march_to, coast_to, sail_to, go_to, hold_order, move_order};
ghost use Rattle.dip_orders.specs.Conditions.{may_convoy, may_travel, first_in, count_in, named_in, could_move, could_come};

use crate::faults::OrderFault;
use crate::units::{checked_unit, prov_of, unit_at};
use dip_map::{Board, Map};
use dip_names::{Kind, Place, Power, Prov, Unit};
use dip_orders_lines::{Mention, Spot};
use dip_orders_placed::{Order, PlacedOrder};

/// Whether a convoy may lead from p to q.
pub(crate) fn may_convoy(map: &Map, p: Prov, q: Prov) -> bool
    ensures { result ≡ may_convoy map.now p q }
{
    map.kind(p).is_coastal() && map.kind(q).is_coastal() && p != q
}

/// Whether an army may march from p to q, on foot or by convoy.
fn may_travel(map: &Map, p: Prov, q: Prov) -> bool
    ensures { result ≡ may_travel map.now p q }
{
    map.is_army_next(p, q) || may_convoy(map, p, q)
}

/// Where an army goes that is sent to a province.
fn march_to(
    map: &Map,
    p: Prov,
    q: Prov,
    coast: Option<[u8; 2]>,
    via: bool,
) -> Result<Place, OrderFault>
    ensures { result ≡ march_to map.now p q coast via }
{
    if coast.is_some() {
        return Err(OrderFault::WrongCoast);
    }
    if via {
        if !may_convoy(map, p, q) {
            return Err(OrderFault::NoConvoyThere);
        }
        return Ok(Place { prov: q, coast: 0 });
    }
    if !may_travel(map, p, q) {
        return Err(OrderFault::OutOfReach);
    }
    Ok(Place { prov: q, coast: 0 })
}

/// The first of these places that lies in the province, if one does: with coasts there may be two.
fn first_in(places: &[Place], q: Prov) -> Option<Place>
    ensures { result ≡ first_in places.now q }
{
    for place in places {
        if place.prov == q {
            return Some(*place);
        }
    }
    None
}

/// How many of these places are in a province.
fn count_in(places: &[Place], q: Prov) -> usize
    ensures { result ≡ count_in places.now q }
{
    places.iter().filter(|place| place.prov == q).count()
}

/// Whether the place is in the province, at the coast with this name.
fn is_named(map: &Map, place: Place, q: Prov, name: [u8; 2]) -> bool
    ensures { result ≡ ((place.prov == q) && bytes_eq (shore map.now place).name name) }
{
    place.prov == q && map.coast_name(place).as_bytes() == name.as_slice()
}

/// The first of these places that is in a province, at its coast of that name.
fn named_in(map: &Map, places: &[Place], q: Prov, name: [u8; 2]) -> Option<Place>
    ensures { result ≡ named_in map.now places.now q name }
{
    for place in places {
        if is_named(map, *place, q, name) {
            return Some(*place);
        }
    }
    None
}

/// Which of these places in q, the first of which is given, a fleet goes to.
fn coast_to(
    map: &Map,
    places: &[Place],
    q: Prov,
    coast: Option<[u8; 2]>,
    first: Place,
) -> Result<Place, OrderFault>
    ensures { result ≡ coast_to map.now places.now q coast first }
{
    match coast {
        Some(name) => match named_in(map, places, q, name) {
            Some(place) => Ok(place),
            None => Err(OrderFault::WrongCoast),
        },
        None => {
            if 1 < count_in(places, q) {
                return Err(OrderFault::CoastNeeded);
            }
            Ok(first)
        }
    }
}

/// Where in q a fleet goes, of these places; the fault given where it can't come to q.
pub(crate) fn sail_to(
    map: &Map,
    places: &[Place],
    q: Prov,
    coast: Option<[u8; 2]>,
    none: OrderFault,
) -> Result<Place, OrderFault>
    ensures { result ≡ sail_to map.now places.now q coast none }
{
    match first_in(places, q) {
        Some(first) => coast_to(map, places, q, coast, first),
        None => Err(none),
    }
}

/// Where a unit goes that is sent to a province.
fn go_to(
    map: &Map,
    unit: &Unit,
    q: Prov,
    coast: Option<[u8; 2]>,
    via: bool,
) -> Result<Place, OrderFault>
    ensures { result ≡ go_to map.now unit.now.kind unit.now.place q coast via }
{
    match unit.kind {
        Kind::Army => march_to(map, unit.place.prov, q, coast, via),
        Kind::Fleet => {
            if via {
                return Err(OrderFault::WrongKind);
            }
            let next = map.fleet_next(unit.place);
            sail_to(map, next, q, coast, OrderFault::OutOfReach)
        }
    }
}

/// Whether a unit could move to a province, by itself.
pub(crate) fn could_move(map: &Map, unit: &Unit, q: Prov) -> bool
    ensures { result ≡ could_move map.now unit.now.kind unit.now.place q }
{
    match unit.kind {
        Kind::Army => map.is_army_next(unit.place.prov, q),
        Kind::Fleet => first_in(map.fleet_next(unit.place), q).is_some(),
    }
}

/// Whether a unit could come to a province, by itself or by convoy.
pub(crate) fn could_come(map: &Map, unit: &Unit, q: Prov) -> bool
    ensures { result ≡ could_come map.now unit.now q }
{
    could_move(map, unit, q) || unit.kind.is(Kind::Army) && may_convoy(map, unit.place.prov, q)
}

/// The order to hold, or the first check that it fails.
pub(crate) fn hold_of(
    map: &Map,
    board: &Board,
    power: Power,
    mention: Mention,
) -> Result<PlacedOrder, OrderFault>
    ensures { result ≡ hold_order map.now board.now power mention }
{
    let prov = prov_of(map, mention.at)?;
    let unit = checked_unit(map, unit_at(board, power, prov), mention, prov)?;
    Ok(PlacedOrder {
        unit,
        order: Order::Hold,
    })
}

/// The order to move, or the first check that it fails.
pub(crate) fn move_of(
    map: &Map,
    board: &Board,
    power: Power,
    mention: Mention,
    spot: Spot,
    via: bool,
) -> Result<PlacedOrder, OrderFault>
    ensures { result ≡ move_order map.now board.now power mention spot via }
{
    let prov = prov_of(map, mention.at)?;
    let q = prov_of(map, spot)?;
    let unit = checked_unit(map, unit_at(board, power, prov), mention, prov)?;
    let to = go_to(map, &unit, q, spot.coast, via)?;
    Ok(PlacedOrder {
        unit,
        order: Order::Move { to, via },
    })
}
