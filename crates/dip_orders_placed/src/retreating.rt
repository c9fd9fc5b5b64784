//! Where a dislodged unit may retreat.
ghost use Rattle.std.specs.Prelude.{◌≡◌, ◌↔◌, IsTrue, IfOk, true};
ghost use Rattle.dip_map.specs.Charts.{are_places_single};
ghost use Rattle.dip_names.specs.declared.names.Place.{Place as APlace};
ghost use Rattle.dip_orders_placed.specs.Retreats.{on_foot, next_places, is_origin, is_open, retreats_of, is_place_among, MayRetreat};
ghost use Rattle.dip_map.specs.Boards.{is_held};

use dip_map::{Board, Dislodged, Map};
use dip_names::{Kind, Place, Prov};
use std::alloc::{AllocError, Global};

/// Whether the attacker came from that province; one that came by convoy closes none.
fn is_origin(origin: Option<Prov>, prov: Prov) -> bool
    ensures { result ≡ is_origin origin prov }
{
    match origin {
        Some(origin) => origin == prov,
        None => false,
    }
}

/// Whether a unit whose attacker came from `origin` may retreat to that province.
pub fn is_open(board: &Board, origin: Option<Prov>, prov: Prov) -> bool
    ensures { result ≡ is_open board.now origin prov }
{
    !board.is_held(prov) && !is_origin(origin, prov) && !board.standoff().contains(&prov)
}

/// The places of an army in these provinces.
fn on_foot(alloc: Global, provinces: &[Prov]) -> Result<Vec<Place>, AllocError>
    ensures { IfOk result (λ v. v.items ≡ on_foot provinces.now) }
{
    let mut places = Vec::new(alloc);
    for prov in provinces {
        places.push(Place {
            prov: *prov,
            coast: 0,
        })?;
    }
    Ok(places)
}

/// The neighbouring places for a kind of unit: an army's provinces, which tell no coast, and a fleet's coasts and seas. The only error is
/// want of memory.
pub fn next_places(
    alloc: Global,
    map: &Map,
    kind: Kind,
    place: Place,
) -> Result<Vec<Place>, AllocError>
    ensures { IfOk result (λ v. v.items ≡ next_places map.now kind place) }
{
    match kind {
        Kind::Army => on_foot(alloc, map.army_next(place.prov)),
        Kind::Fleet => map.fleet_next(place).to_vec(alloc),
    }
}

/// Where a dislodged unit may retreat, in the map's order.
///
/// It goes to a place next to its own for its kind, as in a move on foot or by sea without a convoy. That province is
/// empty, it isn't the one that the attacker came from, and no standoff left it closed. An attacker that came by convoy
/// closes no province. The only error is want of memory.
pub fn retreats(
    alloc: Global,
    map: &Map,
    board: &Board,
    unit: &Dislodged,
) -> Result<Vec<Place>, AllocError>
    ensures value { IfOk result (λ v. v.items ≡ retreats_of map.now board.now unit.now) }
    ensures exact { IfOk result
        (λ v. (a : APlace) → IsTrue (is_place_among a v.items)
        ↔ MayRetreat map.now board.now unit.now a) }
    ensures single { IfOk result (λ v. are_places_single v.items ≡ true) }
{
    map.facts();
    let mut places = next_places(alloc, map, unit.unit.kind, unit.unit.place)?;
    places.retain(|place| is_open(board, unit.origin, place.prov));
    Ok(places)
}
