//! Units read from their rows.
ghost use Rattle.std.specs.Prelude.{◌≡◌, ◌<◌, filter, map as each, IfNone, IfOk, IfSome, None};
ghost use Rattle.std.specs.List.{AllByRecursion};
ghost use Rattle.dip_map.specs.Charts.{coast_of};
ghost use Rattle.dip_names.specs.declared.names.Kind.TheVariants.{Fleet};
ghost use Rattle.dip_store_tables.specs.Boards.{kind_of, origin_of, place_of, unit_of, dislodged_of, stands, fell};
ghost use Rattle.dip_store_tables.specs.WrittenBoards.{IsUnitRow, IsOriginText};

use crate::board_columns::UnitColumns;
use dip_map::{Dislodged, Map};
use dip_names::{Kind, Place, Prov, Unit};
use std::alloc::{AllocError, Global};

/// The kind of a number: 0 is an army, 1 a fleet.
fn kind_in(number: u32) -> Option<Kind>
    ensures value { IfSome result (λ k. k ≡ kind_of number) }
    ensures none { IfNone result (1 < number) }
{
    match number {
        0 => Some(Kind::Army),
        1 => Some(Kind::Fleet),
        _ => None,
    }
}

/// The place that is meant: the province at the coast written, else the only one there.
fn place_in(map: &Map, kind: Kind, prov: Prov, coast: &str) -> Option<Place>
    ensures value { IfSome result (λ a. a ≡ place_of map.now kind prov coast.now) }
    ensures fleet { IfNone result (kind ≡ Fleet) }
    ensures none { IfNone result (coast_of map.now prov coast.now ≡ None) }
{
    match kind {
        Kind::Army => Some(Place { prov, coast: 0 }),
        Kind::Fleet => {
            let coast = map.coast(prov, coast.as_bytes())?;
            Some(Place { prov, coast })
        }
    }
}

/// The unit of a row; none where a code or a name of it isn't the map's.
fn unit_in(map: &Map, row: &UnitColumns) -> Option<Unit>
    ensures value { IfSome result (λ u. u ≡ unit_of map.now row.now) }
    ensures none { IfNone result (IsUnitRow map.now row.now → ⊥) }
{
    map.facts();
    let power = map.power(row.power.as_str())?;
    let prov = map.prov(row.province.as_bytes())?;
    let kind = kind_in(row.kind)?;
    let place = place_in(map, kind, prov, row.coast.as_str())?;
    Some(Unit { power, kind, place })
}

/// The province of an origin's code; none of none where the text is empty, and none where it isn't the map's.
fn origin_in(map: &Map, origin: &str) -> Option<Option<Prov>>
    ensures value { IfSome result (λ o. o ≡ origin_of map.now origin.now) }
    ensures none { IfNone result (IsOriginText map.now origin.now → ⊥) }
{
    map.facts();
    if origin.is_empty() {
        return Some(None);
    }
    let prov = map.prov(origin.as_bytes())?;
    Some(Some(prov))
}

/// The units that stand, in the order of their rows; none where a row of one isn't a unit's of the map.
pub(crate) fn standing_units(
    alloc: Global,
    map: &Map,
    rows: &[UnitColumns],
) -> Result<Option<Vec<Unit>>, AllocError>
    ensures value { IfOk result (λ o. IfSome o (λ v.
        v.items ≡ each (unit_of map.now) (filter stands rows.now))) }
    ensures none { IfOk result (λ o. IfNone o (AllByRecursion (IsUnitRow map.now) rows.now → ⊥)) }
{
    let mut units = Vec::new(alloc);
    for row in rows {
        if row.dislodged == 0 {
            let Some(unit) = unit_in(map, row) else {
                return Ok(None);
            };
            units.push(unit)?;
        }
    }
    Ok(Some(units))
}

/// The dislodged units, likewise.
pub(crate) fn dislodged_units(
    alloc: Global,
    map: &Map,
    rows: &[UnitColumns],
) -> Result<Option<Vec<Dislodged>>, AllocError>
    ensures value { IfOk result (λ o. IfSome o (λ v.
        v.items ≡ each (dislodged_of map.now) (filter fell rows.now))) }
    ensures none { IfOk result (λ o. IfNone o (AllByRecursion (IsUnitRow map.now) rows.now → ⊥)) }
{
    let mut dislodged = Vec::new(alloc);
    for row in rows {
        if row.dislodged == 1 {
            let Some(unit) = unit_in(map, row) else {
                return Ok(None);
            };
            let Some(origin) = origin_in(map, row.origin.as_str()) else {
                return Ok(None);
            };
            dislodged.push(Dislodged { unit, origin })?;
        }
    }
    Ok(Some(dislodged))
}
