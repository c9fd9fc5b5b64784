//! Orders of the Winter: builds and removals.
ghost use Rattle.std.specs.Prelude.{◌≡◌, ◌==◌, ◌&&◌, not, count_by};
ghost use Rattle.std.specs.List.{list_any};
ghost use Rattle.dip_map.specs.Charts.{home};
ghost use Rattle.dip_orders.specs.Checking.{site_at, build_order, remove_order};
ghost use Rattle.dip_orders.specs.Conditions.{may_build, is_build, is_remove, builds_elsewhere, removals_elsewhere};

use crate::faults::OrderFault;
use crate::units::{checked_unit, prov_of, unit_at};
use dip_map::{Board, Map};
use dip_names::{Kind, Place, Power, Prov, Unit};
use dip_orders_lines::Mention;
use dip_orders_placed::{Order, PlacedOrder, builds_due, removals_due};

/// Whether a unit of a kind may be built there.
fn may_build(map: &Map, board: &Board, power: Power, kind: Kind, p: Prov) -> bool
    ensures { result ≡ may_build map.now board.now power kind p }
{
    map.is_home(power, p)
        && board.owns(power, p)
        && board.is_vacant(p)
        && (kind.is(Kind::Army) || map.kind(p).is_coastal())
}

/// Where in a province a unit is built.
fn site_of(map: &Map, kind: Kind, prov: Prov, coast: Option<[u8; 2]>) -> Result<Place, OrderFault>
    ensures { result ≡ site_at map.now kind prov coast }
{
    match (kind, coast) {
        (Kind::Army, Some(_)) => Err(OrderFault::WrongCoast),
        (Kind::Army, None) => Ok(Place { prov, coast: 0 }),
        (Kind::Fleet, Some(name)) => match map.coast(prov, &name) {
            Some(coast) => Ok(Place { prov, coast }),
            None => Err(OrderFault::WrongCoast),
        },
        (Kind::Fleet, None) => {
            if 1 < map.coasts(prov) {
                return Err(OrderFault::CoastNeeded);
            }
            Ok(Place { prov, coast: 0 })
        }
    }
}

/// Whether an order builds a unit.
pub fn is_build(order: &Order) -> bool
    ensures { result ≡ is_build order.now }
{
    match order {
        Order::Build => true,
        Order::Hold | Order::Move { .. } | Order::SupportHold { .. } => false,
        Order::SupportMove { .. } | Order::Convoy { .. } => false,
        Order::Retreat { .. } | Order::Disband | Order::Remove => false,
    }
}

/// Whether an order removes a unit.
pub fn is_remove(order: &Order) -> bool
    ensures { result ≡ is_remove order.now }
{
    match order {
        Order::Remove => true,
        Order::Hold | Order::Move { .. } | Order::SupportHold { .. } => false,
        Order::SupportMove { .. } | Order::Convoy { .. } => false,
        Order::Retreat { .. } | Order::Disband | Order::Build => false,
    }
}

/// How many builds stand in other provinces.
fn builds_elsewhere(pending: &[PlacedOrder], p: Prov) -> usize
    ensures { result ≡ builds_elsewhere pending.now p }
{
    pending
        .iter()
        .filter(|o| is_build(&o.order) && o.unit.place.prov != p)
        .count()
}

/// How many removals stand in other provinces.
fn removals_elsewhere(pending: &[PlacedOrder], p: Prov) -> usize
    ensures { result ≡ removals_elsewhere pending.now p }
{
    pending
        .iter()
        .filter(|o| is_remove(&o.order) && o.unit.place.prov != p)
        .count()
}

/// The order to build a unit, or the first check that it fails.
pub(crate) fn build_of(
    map: &Map,
    board: &Board,
    power: Power,
    pending: &[PlacedOrder],
    mention: Mention,
) -> Result<PlacedOrder, OrderFault>
    ensures { result ≡ build_order map.now board.now power pending.now mention }
{
    let prov = prov_of(map, mention.at)?;
    if !may_build(map, board, power, mention.kind, prov) {
        return Err(OrderFault::NoBuildThere);
    }
    let place = site_of(map, mention.kind, prov, mention.at.coast)?;
    if builds_due(map, board, power) <= builds_elsewhere(pending, prov) {
        return Err(OrderFault::AllowanceUsed);
    }
    let unit = Unit {
        power,
        kind: mention.kind,
        place,
    };
    Ok(PlacedOrder {
        unit,
        order: Order::Build,
    })
}

/// The order to remove a unit, or the first check that it fails.
pub(crate) fn remove_of(
    map: &Map,
    board: &Board,
    power: Power,
    pending: &[PlacedOrder],
    mention: Mention,
) -> Result<PlacedOrder, OrderFault>
    ensures { result ≡ remove_order map.now board.now power pending.now mention }
{
    let prov = prov_of(map, mention.at)?;
    let unit = checked_unit(map, unit_at(board, power, prov), mention, prov)?;
    if removals_due(board, power) <= removals_elsewhere(pending, prov) {
        return Err(OrderFault::AllowanceUsed);
    }
    Ok(PlacedOrder {
        unit,
        order: Order::Remove,
    })
}
