//! The map that a file states: codes looked up.
ghost use Rattle.std.specs.Prelude.{◌≡◌, ◌≤◌, IfOk, length, map};
ghost use Rattle.std.specs.List.{position};
ghost use Rattle.std.specs.Str.{bytes_eq};
ghost use Rattle.dip_map_text.specs.Stated.{each, each_from, or_unknown, prov_at, coast_at, place_at, unit_of, unit_at, shore_at, province_at, realm_at, chart_at, map_in, parts_at};
ghost use Rattle.dip_map_chart.specs.Charts.{IsMap};
ghost use Rattle.dip_names.specs.Results.{Gives};

use dip_map::Map;
use dip_map_chart::{Parts, Province, Realm, Shore};
use dip_map_file::{
    Draft, PowerDraft, ProvinceDraft, ShoreDraft, Site, UnitDraft, draft_of, tables_of,
};
use dip_names::{Kind, MapFault, Place, Power, Prov, Unit};
use std::alloc::Global;

/// The province with a code.
#[tactic(auto, unfolding(crate::specs::Stated::prov_at))]
fn prov_of(draft: &Draft<'_>, code: &[u8]) -> Result<Prov, MapFault>
    requires { length draft.now.provinces ≤ 200 }
    ensures { Gives (λ p. p) result (prov_at draft.now code.now) }
{
    match prov_index(draft, code) {
        Some(index) => Ok(Prov::new(index as u8)),
        None => Err(MapFault::UnknownName),
    }
}

/// The number of the province with a code.
fn prov_index(draft: &Draft<'_>, code: &[u8]) -> Option<usize>
    ensures { result ≡ position (λ p. bytes_eq p.code code.now) draft.now.provinces }
{
    draft
        .provinces
        .iter()
        .position(|province| province.code.as_bytes() == code)
}

/// The number of the coast with a name, of a province.
#[tactic(auto, unfolding(crate::specs::Stated::coast_at))]
fn coast_of(draft: &Draft<'_>, p: Prov, name: &[u8]) -> Result<u8, MapFault>
    ensures { Gives (λ k. k) result (coast_at draft.now p name.now) }
{
    let Some(province) = draft.provinces.get(p.index() as usize) else {
        return Err(MapFault::UnknownName);
    };
    match province.coast(name) {
        Some(coast) => Ok(coast),
        None => Err(MapFault::UnknownName),
    }
}

/// A place where a fleet may be.
#[tactic(auto, unfolding(crate::specs::Stated::place_at))]
fn place_of(draft: &Draft<'_>, site: &Site<'_>) -> Result<Place, MapFault>
    requires few { length draft.now.provinces ≤ 200 }
    ensures { Gives (λ a. a) result (place_at draft.now site.now) }
{
    let prov = prov_of(draft, site.code)?;
    let coast = coast_of(draft, prov, site.coast)?;
    Ok(Place { prov, coast })
}

/// The unit of a power that the file states.
fn unit_of(draft: &Draft<'_>, power: Power, unit: &UnitDraft<'_>) -> Result<Unit, MapFault>
    requires few { length draft.now.provinces ≤ 200 }
    ensures { Gives (λ u. u) result (unit_at draft.now power unit.now) }
{
    match unit.kind {
        Kind::Army => {
            let prov = prov_of(draft, unit.site.code)?;
            Ok(Unit {
                power,
                kind: Kind::Army,
                place: Place { prov, coast: 0 },
            })
        }
        Kind::Fleet => {
            let place = place_of(draft, &unit.site)?;
            Ok(Unit {
                power,
                kind: Kind::Fleet,
                place,
            })
        }
    }
}

/// The provinces with these codes.
fn provs_of(alloc: Global, draft: &Draft<'_>, codes: &[&str]) -> Result<Vec<Prov>, MapFault>
    requires { length draft.now.provinces ≤ 200 }
    ensures { Gives (λ v. v.items) result (each (prov_at draft.now) (map (λ s. s.now) codes.now)) }
{
    let mut provs = Vec::new(alloc);
    for code in codes {
        let prov = prov_of(draft, code.as_bytes())?;
        provs.push(prov)?;
    }
    Ok(provs)
}

/// The places that the file states.
fn places_of(alloc: Global, draft: &Draft<'_>, sites: &[Site<'_>]) -> Result<Vec<Place>, MapFault>
    requires few { length draft.now.provinces ≤ 200 }
    ensures { Gives (λ v. v.items) result (each (place_at draft.now) sites.now) }
{
    let mut places = Vec::new(alloc);
    for site in sites {
        let place = place_of(draft, site)?;
        places.push(place)?;
    }
    Ok(places)
}

/// The units of a power that the file states.
fn units_of(
    alloc: Global,
    draft: &Draft<'_>,
    power: Power,
    units: &[UnitDraft<'_>],
) -> Result<Vec<Unit>, MapFault>
    requires few { length draft.now.provinces ≤ 200 }
    ensures { Gives (λ v. v.items) result (each (unit_at draft.now power) units.now) }
{
    let mut found = Vec::new(alloc);
    for unit in units {
        let unit = unit_of(draft, power, unit)?;
        found.push(unit)?;
    }
    Ok(found)
}

/// A coast with its neighbours looked up; `UnknownName` where one isn't defined.
#[tactic(auto, unfolding(crate::specs::Stated::shore_at))]
fn shore_of(alloc: Global, draft: &Draft<'_>, shore: &ShoreDraft<'_>) -> Result<Shore, MapFault>
    requires few { length draft.now.provinces ≤ 200 }
    ensures { Gives (λ s. s) result (shore_at draft.now shore.now) }
{
    let next = places_of(alloc, draft, shore.next.as_slice())?;
    let name = String::from_str(alloc, shore.name)?;
    Ok(Shore { name, next })
}

/// The coasts of a province that the file states.
fn each_shore_of(
    alloc: Global,
    draft: &Draft<'_>,
    shores: &[ShoreDraft<'_>],
) -> Result<Vec<Shore>, MapFault>
    requires few { length draft.now.provinces ≤ 200 }
    ensures { Gives (λ v. v.items) result (each (shore_at draft.now) shores.now) }
{
    let mut found = Vec::new(alloc);
    for shore in shores {
        let shore = shore_of(alloc, draft, shore)?;
        found.push(shore)?;
    }
    Ok(found)
}

/// A province with the neighbours of armies and of fleets looked up; `UnknownName` where one isn't
/// defined.
#[tactic(auto, unfolding(crate::specs::Stated::province_at))]
fn province_of(
    alloc: Global,
    draft: &Draft<'_>,
    written: &ProvinceDraft<'_>,
) -> Result<Province, MapFault>
    requires few { length draft.now.provinces ≤ 200 }
    ensures { Gives (λ p. p) result (province_at draft.now written.now) }
{
    let army = provs_of(alloc, draft, written.army.as_slice())?;
    let shores = each_shore_of(alloc, draft, written.shores.as_slice())?;
    let code = String::from_str(alloc, written.code)?;
    let name = String::from_str(alloc, written.name)?;
    Ok(Province {
        code,
        name,
        terrain: written.terrain,
        centre: written.centre,
        army,
        shores,
    })
}

/// The provinces that the file states.
fn provinces_of(alloc: Global, draft: &Draft<'_>) -> Result<Vec<Province>, MapFault>
    requires few { length draft.now.provinces ≤ 200 }
    ensures { Gives (λ v. v.items) result (each (province_at draft.now) draft.now.provinces) }
{
    let mut provinces = Vec::new(alloc);
    for written in draft.provinces.iter() {
        let province = province_of(alloc, draft, written)?;
        provinces.push(province)?;
    }
    Ok(provinces)
}

/// A power with its home centres and its units at the opening looked up; `UnknownName` where one
/// isn't defined.
#[tactic(auto, unfolding(crate::specs::Stated::realm_at))]
fn realm_of(
    alloc: Global,
    draft: &Draft<'_>,
    power: Power,
    side: &PowerDraft<'_>,
) -> Result<Realm, MapFault>
    requires few { length draft.now.provinces ≤ 200 }
    ensures { Gives (λ r. r) result (realm_at draft.now power side.now) }
{
    let home = provs_of(alloc, draft, side.home.as_slice())?;
    let units = units_of(alloc, draft, power, side.units.as_slice())?;
    let name = String::from_str(alloc, side.name)?;
    Ok(Realm { name, home, units })
}

/// The powers that the file states.
fn realms_of(alloc: Global, draft: &Draft<'_>) -> Result<Vec<Realm>, MapFault>
    requires few { length draft.now.provinces ≤ 200 }
    requires sides { length draft.now.powers ≤ 7 }
    ensures { Gives (λ v. v.items) result (each_from (realm_at draft.now) 0 draft.now.powers) }
{
    let mut realms = Vec::new(alloc);
    for (number, side) in draft.powers.iter().enumerate() {
        let realm = realm_of(alloc, draft, Power::new(number as u8), side)?;
        realms.push(realm)?;
    }
    Ok(realms)
}

/// The parts of the map that a draft states, each code looked up; `UnknownName` where one isn't defined.
#[tactic(auto, unfolding(crate::specs::Stated::chart_at))]
fn parts_of(alloc: Global, draft: &Draft<'_>) -> Result<Parts, MapFault>
    requires few { length draft.now.provinces ≤ 200 }
    requires sides { length draft.now.powers ≤ 7 }
    ensures { Gives (λ m. m) result (chart_at draft.now) }
{
    let realms = realms_of(alloc, draft)?;
    let provinces = provinces_of(alloc, draft)?;
    let name = String::from_str(alloc, draft.name)?;
    Ok(Parts {
        name,
        realms,
        provinces,
    })
}

/// The parts of the map that a draft states, within the limits; `OverLimit` where it states no power or more than 7, no province or more than
/// 200.
fn parts_in(alloc: Global, draft: &Draft<'_>) -> Result<Parts, MapFault>
    ensures { Gives (λ m. m) result (parts_at draft.now) }
{
    let powers = draft.powers.len();
    let provinces = draft.provinces.len();
    if powers < 1 || 7 < powers || provinces < 1 || 200 < provinces {
        return Err(MapFault::OverLimit);
    }
    parts_of(alloc, draft)
}

/// The map that a text states: TOML with the map's name, its powers and its provinces, as `STANDARD` has them.
///
/// # Errors
/// The first fault: `NotToml`, `WrongField`, `OverLimit`, `UnknownName`, `DoubledName`, `NotSymmetric`, in that order. Want of memory
/// may come in place of any.
#[tactic(auto, unfolding(crate::specs::Stated::map_in))]
pub fn map_from_toml(alloc: Global, text: &str) -> Result<Map, MapFault>
    ensures stated { Gives (λ m. m) result (map_in text.now) }
    ensures lawful { IfOk result IsMap }
{
    let file = tables_of(alloc, text)?;
    let draft = draft_of(alloc, &file)?;
    let parts = parts_in(alloc, &draft)?;
    Map::of(alloc, parts)
}
