//! A map, and what is asked of it.
ghost use Rattle.std.specs.Prelude.{◌≡◌, ◌<◌, length, All, IfOk, true};
ghost use Rattle.std.specs.Cmp.Lexicographic.{slice_cmp};
ghost use Rattle.std.specs.Ordering.{nat_cmp};
ghost use Rattle.dip_map_chart.specs.Charts.{Chart, IsMap, provs, powers, province, realm, shore, army_next, fleet_next, home, is_home, prov_of, power_of, coast_of, is_centre, is_fleet_place, may_stand, is_unit, is_army_next, is_fleet_next};
ghost use Rattle.dip_map.specs.Checked.{check};
ghost use Rattle.dip_names.specs.Results.{Gives};
ghost use Rattle.dip_map_chart.specs.Walks.{IsDistance};

use crate::iterators::{Powers, Provs};
use dip_map_chart::{Distances, Parts, Province, Realm};
use dip_names::{Kind, MapFault, Place, Power, Prov, Terrain, Unit};
use std::alloc::Global;
use std::cmp::Ordering;
use std::marker::Model;

/// A map whose parts were checked: within limits, well formed, nothing twice, each neighbour allowed and named back.
///
/// The look-ups take any number: what isn't on the map has empty names and lists.
#[derive(Drop)]
pub struct Map {
    parts: Parts,
    distances: Distances,
}

impl Model for Map {
    ghost use Rattle.dip_map_chart.specs.Charts.{Chart, IsMap};
    ghost use Rattle.dip_map_chart.specs.Distances.{AreDistances};

    ghost Value = { Chart };

    ghost view = { λ m. m.parts };

    ghost invariant = { λ m. IsMap m.parts × AreDistances m.parts m.distances };
}

/// How a province's code stands to another.
fn beside(province: &Province, code: &[u8]) -> Ordering
    ensures { result ≡ slice_cmp nat_cmp province.now.code code.now }
{
    province.code.as_bytes().cmp(code)
}

/// The number of the province with a code, by halves, since the codes of a map ascend.
fn index_of(provinces: &[Province], code: &[u8]) -> Option<usize>
    ensures { (m : Chart) → IsMap m → provinces.now ≡ m.provinces
        → result ≡ prov_of m code.now }
{
    match provinces.binary_search_by(|province| beside(province, code)) {
        Ok(index) => Some(index),
        Err(_) => None,
    }
}

impl Map {
    /// The map of these parts.
    ///
    /// # Errors
    /// The first fault that they have. Want of memory may come in place of any.
    pub fn of(alloc: Global, parts: Parts) -> Result<Map, MapFault>
        ensures stated { Gives (λ m. m) result (check parts) }
        ensures lawful { IfOk result IsMap }
    {
        if let Some(fault) = parts.first_fault() {
            return Err(fault);
        }
        let distances = Distances::of(alloc, &parts)?;
        Ok(Map { parts, distances })
    }

    /// What each map keeps.
    pub fn facts(&self)
        ensures { IsMap self.now }
    {
        let _ = &self.parts;
    }

    /// How many provinces there are.
    pub fn province_count(&self) -> usize
        ensures { result ≡ length self.now.provinces }
    {
        self.parts.provinces.len()
    }

    /// How many powers there are.
    pub fn power_count(&self) -> usize
        ensures { result ≡ length self.now.realms }
    {
        self.parts.realms.len()
    }

    /// The provinces, in the order of their codes.
    pub fn each_province(&self) -> Provs
        ensures { result ≡ provs self.now }
    {
        self.facts();
        Provs::first(self.province_count())
    }

    /// The powers, in the order of their names.
    pub fn each_power(&self) -> Powers
        ensures { result ≡ powers self.now }
    {
        self.facts();
        Powers::first(self.power_count())
    }

    /// Where an army goes from a province.
    pub fn army_next(&self, p: Prov) -> &[Prov]
        ensures list { result.now ≡ army_next self.now p }
        ensures within { All (λ q. q < length self.now.provinces) result.now }
    {
        self.parts.army_next(p)
    }

    /// Where a fleet goes from a place.
    pub fn fleet_next(&self, a: Place) -> &[Place]
        ensures list { result.now ≡ fleet_next self.now a }
        ensures within { All (λ b. is_fleet_place self.now b ≡ true) result.now }
    {
        self.parts.fleet_next(a)
    }

    /// Whether an army goes from one province to the other.
    pub fn is_army_next(&self, p: Prov, q: Prov) -> bool
        ensures { result ≡ is_army_next self.now p q }
    {
        self.parts.is_army_next(p, q)
    }

    /// Whether a fleet goes from one place to the other.
    pub fn is_fleet_next(&self, a: Place, b: Place) -> bool
        ensures { result ≡ is_fleet_next self.now a b }
    {
        self.parts.is_fleet_next(a, b)
    }

    /// What a province is: inland, a coast or open sea.
    pub fn kind(&self, p: Prov) -> Terrain
        ensures { result ≡ (province self.now p).terrain }
    {
        self.parts.terrain(p)
    }

    /// Whether a province is a supply centre.
    pub fn is_centre(&self, p: Prov) -> bool
        ensures { result ≡ is_centre self.now p }
    {
        self.parts.is_centre(p)
    }

    /// The code of a province, three letters.
    pub fn code(&self, p: Prov) -> &str
        ensures { result.now ≡ (province self.now p).code }
    {
        self.parts.code(p)
    }

    /// A province's full name. Between units that disorder could remove alike, these names decide.
    pub fn name(&self, p: Prov) -> &str
        ensures { result.now ≡ (province self.now p).name }
    {
        self.parts.name(p)
    }

    /// The province with this code, if the map has one.
    pub fn prov(&self, code: &[u8]) -> Option<Prov>
        ensures { result ≡ prov_of self.now code.now }
    {
        self.facts();
        match index_of(self.parts.provinces.as_slice(), code) {
            Some(index) => Some(Prov::new(index as u8)),
            None => None,
        }
    }

    /// How many coasts a province has, 1 where it has none of its own and takes fleets.
    pub fn coasts(&self, p: Prov) -> usize
        ensures { result ≡ length (province self.now p).shores }
    {
        self.parts.coasts(p)
    }

    /// The name of a place's coast, empty where the province has no coasts of its own.
    pub fn coast_name(&self, a: Place) -> &str
        ensures { result.now ≡ (shore self.now a).name }
    {
        self.parts.coast_name(a)
    }

    /// The number of a province's coast with a name.
    pub fn coast(&self, p: Prov, name: &[u8]) -> Option<u8>
        ensures { result ≡ coast_of self.now p name.now }
    {
        match self.parts.coast_index(p, name) {
            Some(index) => Some(index as u8),
            None => None,
        }
    }

    /// A power's home centres. It may build in those that it owns.
    pub fn home(&self, power: Power) -> &[Prov]
        ensures list { result.now ≡ home self.now power }
        ensures within { All (λ p. p < length self.now.provinces) result.now }
    {
        self.parts.home(power)
    }

    /// Whether a province is a home centre of a power.
    pub fn is_home(&self, power: Power, p: Prov) -> bool
        ensures { result ≡ is_home self.now power p }
    {
        self.parts.is_home(power, p)
    }

    /// A power's name. It has small letters alone, as in letters and papers.
    pub fn power_name(&self, power: Power) -> &str
        ensures { result.now ≡ (realm self.now power).name }
    {
        self.parts.power_name(power)
    }

    /// The power with this name, if the map has one.
    pub fn power(&self, name: &str) -> Option<Power>
        ensures { result ≡ power_of self.now name.now }
    {
        match self.parts.power_index(name) {
            Some(index) => Some(Power::new(index as u8)),
            None => None,
        }
    }

    /// Whether a unit of that kind may be at the place, which is then one of the map.
    pub fn may_stand(&self, kind: Kind, place: Place) -> bool
        ensures { result ≡ may_stand self.now kind place }
    {
        self.parts.may_stand(kind, place)
    }

    /// Whether a unit is one of the map.
    pub fn is_unit(&self, unit: &Unit) -> bool
        ensures { result ≡ is_unit self.now unit.now }
    {
        self.parts.is_unit(unit)
    }

    /// The least number of steps from a place to a home centre of the power, 1,000 where none leads there.
    ///
    /// A fleet goes by its neighbours, an army by those of either kind, over water too.
    pub fn distance(&self, kind: Kind, place: Place, power: Power) -> u16
        ensures { IsDistance self.now kind place power result }
    {
        self.distances.distance(kind, place, power)
    }

    /// The powers, each with its home centres and its units at the opening.
    pub fn realms(&self) -> &[Realm]
        ensures { result.now ≡ self.now.realms }
    {
        self.parts.realms.as_slice()
    }
}
