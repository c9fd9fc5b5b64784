//! Orders of dislodged units: retreats, and to disband.
ghost use Rattle.std.specs.Prelude.{◌≡◌};
ghost use Rattle.dip_orders.specs.Checking.{leave_to, withdraw_to, disband_order, retreat_order};

use crate::faults::OrderFault;
use crate::moves::sail_to;
use crate::units::{checked_dislodged, dislodged_at, prov_of};
use dip_map::{Board, Dislodged, Map};
use dip_names::{Kind, Place, Power, Prov, Unit};
use dip_orders_lines::{Mention, Spot};
use dip_orders_placed::{Order, PlacedOrder, is_open};

/// Where in q a dislodged unit goes, if q is next to it.
fn leave_to(map: &Map, unit: &Unit, q: Prov, coast: Option<[u8; 2]>) -> Result<Place, OrderFault>
    ensures { result ≡ leave_to map.now unit.now.kind unit.now.place q coast }
{
    match unit.kind {
        Kind::Army => {
            if !map.is_army_next(unit.place.prov, q) {
                return Err(OrderFault::NoSuchRetreat);
            }
            if coast.is_some() {
                return Err(OrderFault::WrongCoast);
            }
            Ok(Place { prov: q, coast: 0 })
        }
        Kind::Fleet => {
            let next = map.fleet_next(unit.place);
            sail_to(map, next, q, coast, OrderFault::NoSuchRetreat)
        }
    }
}

/// Where a dislodged unit retreats that is sent to a province.
fn withdraw_to(
    map: &Map,
    board: &Board,
    dislodged: &Dislodged,
    q: Prov,
    coast: Option<[u8; 2]>,
) -> Result<Place, OrderFault>
    ensures { result ≡ withdraw_to map.now board.now dislodged.now q coast }
{
    if !is_open(board, dislodged.origin, q) {
        return Err(OrderFault::NoSuchRetreat);
    }
    leave_to(map, &dislodged.unit, q, coast)
}

/// The order to retreat, or the first check that it fails.
pub(crate) fn retreat_of(
    map: &Map,
    board: &Board,
    power: Power,
    mention: Mention,
    spot: Spot,
) -> Result<PlacedOrder, OrderFault>
    ensures { result ≡ retreat_order map.now board.now power mention spot }
{
    let prov = prov_of(map, mention.at)?;
    let q = prov_of(map, spot)?;
    let found = dislodged_at(board, power, prov);
    let dislodged = checked_dislodged(map, found, mention, prov)?;
    let to = withdraw_to(map, board, &dislodged, q, spot.coast)?;
    Ok(PlacedOrder {
        unit: dislodged.unit,
        order: Order::Retreat { to },
    })
}

/// The order to disband, or the first check that it fails.
pub(crate) fn disband_of(
    map: &Map,
    board: &Board,
    power: Power,
    mention: Mention,
) -> Result<PlacedOrder, OrderFault>
    ensures { result ≡ disband_order map.now board.now power mention }
{
    let prov = prov_of(map, mention.at)?;
    let found = dislodged_at(board, power, prov);
    let dislodged = checked_dislodged(map, found, mention, prov)?;
    Ok(PlacedOrder {
        unit: dislodged.unit,
        order: Order::Disband,
    })
}
