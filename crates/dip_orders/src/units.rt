//! The units that a line names, as they stand on the board.
ghost use Rattle.std.specs.Prelude.{◌≡◌, ◌==◌, ◌&&◌, find, Some};
ghost use Rattle.dip_orders.specs.Checking.{prov_at, checked_unit, checked_dislodged, checked_other};
ghost use Rattle.dip_orders.specs.Conditions.{unit_at, dislodged_at, other_at, knows_coast};
ghost use Rattle.dip_names.specs.Kinds.{is_kind};

use crate::faults::OrderFault;
use dip_map::{Board, Dislodged, Map};
use dip_names::{Kind, Power, Prov, Unit};
use dip_orders_lines::{Mention, Spot};

/// The province with a code.
pub(crate) fn prov_of(map: &Map, spot: Spot) -> Result<Prov, OrderFault>
    ensures { result ≡ prov_at map.now spot }
{
    match map.prov(&spot.code) {
        Some(prov) => Ok(prov),
        None => Err(OrderFault::UnknownProvince),
    }
}

/// The power's standing unit in a province.
pub(crate) fn unit_at(board: &Board, power: Power, prov: Prov) -> Option<Unit>
    ensures { result ≡ unit_at board.now power prov }
{
    for unit in board.units() {
        if unit.power == power && unit.place.prov == prov {
            return Some(*unit);
        }
    }
    None
}

/// The power's dislodged unit that stood in a province.
pub(crate) fn dislodged_at(board: &Board, power: Power, prov: Prov) -> Option<Dislodged>
    ensures { result ≡ dislodged_at board.now power prov }
{
    for dislodged in board.dislodged() {
        if dislodged.unit.power == power && dislodged.unit.place.prov == prov {
            return Some(*dislodged);
        }
    }
    None
}

/// The standing unit of a kind in a province, of any power.
fn other_at(board: &Board, kind: Kind, prov: Prov) -> Option<Unit>
    ensures { result ≡ other_at board.now kind prov }
{
    for unit in board.units() {
        if unit.kind.is(kind) && unit.place.prov == prov {
            return Some(*unit);
        }
    }
    None
}

/// Whether the province has the coast that is named, if one is.
pub(crate) fn has_coast(map: &Map, prov: Prov, coast: Option<[u8; 2]>) -> bool
    ensures { result ≡ knows_coast map.now prov coast }
{
    match coast {
        Some(name) => map.coast(prov, &name).is_some(),
        None => true,
    }
}

/// The unit that was found: it is of the kind written, and the coast written is one of the province.
pub(crate) fn checked_unit(
    map: &Map,
    found: Option<Unit>,
    mention: Mention,
    prov: Prov,
) -> Result<Unit, OrderFault>
    ensures { result ≡ checked_unit map.now found mention prov }
{
    match found {
        Some(unit) => {
            if !unit.kind.is(mention.kind) {
                return Err(OrderFault::WrongKind);
            }
            if !has_coast(map, prov, mention.at.coast) {
                return Err(OrderFault::WrongCoast);
            }
            Ok(unit)
        }
        None => Err(OrderFault::NoUnitThere),
    }
}

/// The dislodged unit that was found: it is of the kind written, and the coast written is one of
/// the province where it was dislodged.
pub(crate) fn checked_dislodged(
    map: &Map,
    found: Option<Dislodged>,
    mention: Mention,
    prov: Prov,
) -> Result<Dislodged, OrderFault>
    ensures { result ≡ checked_dislodged map.now found mention prov }
{
    match found {
        Some(dislodged) => {
            let unit = checked_unit(map, Some(dislodged.unit), mention, prov)?;
            Ok(Dislodged {
                unit,
                origin: dislodged.origin,
            })
        }
        None => Err(OrderFault::NoUnitThere),
    }
}

/// The unit that a support or a convoy names: one stands there, and the coast written is one of the province.
pub(crate) fn checked_other(
    map: &Map,
    board: &Board,
    kind: Kind,
    prov: Prov,
    coast: Option<[u8; 2]>,
) -> Result<Unit, OrderFault>
    ensures { result ≡ checked_other map.now board.now kind prov coast }
{
    match other_at(board, kind, prov) {
        Some(unit) => {
            if !has_coast(map, prov, coast) {
                return Err(OrderFault::WrongCoast);
            }
            Ok(unit)
        }
        None => Err(OrderFault::NoSuchUnit),
    }
}
