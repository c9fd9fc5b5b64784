//! The checks that a map's parts have to pass, and the first fault.
ghost use Rattle.std.specs.Prelude.{◌≡◌, ◌==◌, ◌≤◌, length, true, None};
ghost use Rattle.std.specs.List.{list_all};
ghost use Rattle.std.specs.Cmp.Lexicographic.{slice_cmp};
ghost use Rattle.std.specs.Ordering.{is_lt, nat_cmp};
ghost use Rattle.dip_map_chart.specs.Charts.{IsMap, is_coast_name, are_ascending_by};
ghost use Rattle.dip_map_chart.specs.Charts.{has_one_shore, has_named_shores, is_shaped, is_province, is_centre, is_realm, is_unit};
ghost use Rattle.dip_map_chart.specs.Checks.{answers, is_within_limits, is_well_formed, rest_has_own_units, rest_of_shores, rest_of_coasts, is_distinct};
ghost use Rattle.dip_map_chart.specs.Checks.{is_named_back, rest_is_mutual, are_named_back, rest_of_shores_is_mutual, rest_is_mutual_by_sea, is_mutual, first_fault};

use crate::parts::{Parts, Province, Realm, Shore};
use dip_names::{
    MapFault, Place, Power, Prov, Terrain, Unit, is_coast_name, is_code, is_full_name,
    is_power_name,
};

impl Shore {
    /// Whether the coast has a name.
    fn is_named(&self) -> bool
        ensures { result ≡ is_coast_name self.now.name }
    {
        is_coast_name(self.name.as_bytes())
    }

    /// Whether the coast has no name.
    fn is_unnamed(&self) -> bool
        ensures { result ≡ (length self.now.name == 0) }
    {
        self.name.as_str().len() == 0
    }
}

/// Whether none of these coasts has a name.
fn are_unnamed(shores: &[Shore]) -> bool
    ensures { result ≡ list_all (λ s. length s.name == 0) shores.now }
{
    shores.iter().all(|shore| shore.is_unnamed())
}

/// Whether each of these coasts has a name.
fn are_named(shores: &[Shore]) -> bool
    ensures { result ≡ list_all (λ s. is_coast_name s.name) shores.now }
{
    shores.iter().all(|shore| shore.is_named())
}

/// Whether there is one coast, without a name.
fn has_one_shore(shores: &[Shore]) -> bool
    ensures { result ≡ has_one_shore shores.now }
{
    shores.len() == 1 && are_unnamed(shores)
}

/// Whether there are two to four coasts, with names.
fn has_named_shores(shores: &[Shore]) -> bool
    ensures { result ≡ has_named_shores shores.now }
{
    2 <= shores.len() && shores.len() <= 4 && are_named(shores)
}

impl Province {
    /// Whether the coasts and the army's neighbours are such as the terrain has them.
    fn is_shaped(&self) -> bool
        ensures { result ≡ is_shaped self.now.terrain self.now }
    {
        let shores = self.shores.as_slice();
        match self.terrain {
            Terrain::Inland => shores.len() == 0,
            Terrain::Coast => has_one_shore(shores) || has_named_shores(shores),
            Terrain::Sea => has_one_shore(shores) && self.army.len() == 0 && !self.centre,
        }
    }

    /// Whether the province is well formed.
    fn is_well_formed(&self) -> bool
        ensures { result ≡ is_province self.now }
    {
        is_code(self.code.as_bytes()) && is_full_name(self.name.as_str()) && self.is_shaped()
    }
}

/// Whether a look-up answered this number.
fn answers(found: Option<usize>, number: usize) -> bool
    ensures { result ≡ answers found number }
{
    match found {
        Some(index) => index == number,
        None => false,
    }
}

/// Whether the code comes before those of all these provinces.
fn is_before_codes(code: &str, provinces: &[Province]) -> bool
    ensures { result ≡ list_all (λ r. is_lt (slice_cmp nat_cmp code.now r.code)) provinces.now }
{
    provinces
        .iter()
        .all(|province| code < province.code.as_str())
}

/// Whether the name comes before those of all these powers.
fn is_before_names(name: &str, realms: &[Realm]) -> bool
    ensures { result ≡ list_all (λ r. is_lt (slice_cmp nat_cmp name.now r.name)) realms.now }
{
    realms.iter().all(|realm| name < realm.name.as_str())
}

/// Whether these units are a power's.
fn are_of(units: &[Unit], power: Power) -> bool
    ensures { result ≡ list_all (λ u. u.power == power) units.now }
{
    units.iter().all(|unit| unit.power == power)
}

impl Parts {
    /// Whether there are no more powers, provinces and coasts than a map may have, and no fewer.
    fn is_within_limits(&self) -> bool
        ensures { result ≡ is_within_limits self.now }
    {
        let powers = self.realms.len();
        let provinces = self.provinces.len();
        1 <= powers && powers <= 7 && 1 <= provinces && provinces <= 200
    }

    /// Whether each province is well formed.
    fn are_provinces(&self) -> bool
        ensures { result ≡ list_all is_province self.now.provinces }
    {
        self.provinces
            .iter()
            .all(|province| province.is_well_formed())
    }

    /// Whether each of these provinces is a centre.
    fn are_centres(&self, list: &[Prov]) -> bool
        ensures { result ≡ list_all (λ p. is_centre self.now p) list.now }
    {
        list.iter().all(|p| self.is_centre(*p))
    }

    /// Whether each of these units is of the map.
    fn are_units(&self, units: &[Unit]) -> bool
        ensures { result ≡ list_all (λ u. is_unit self.now u) units.now }
    {
        units.iter().all(|unit| self.is_unit(unit))
    }

    /// Whether the power is well formed.
    fn is_realm(&self, realm: &Realm) -> bool
        ensures { result ≡ is_realm self.now realm.now }
    {
        is_power_name(realm.name.as_str())
            && self.are_centres(realm.home.as_slice())
            && self.are_units(realm.units.as_slice())
    }

    /// Whether each power is well formed.
    fn are_realms(&self) -> bool
        ensures { result ≡ list_all (λ r. is_realm self.now r) self.now.realms }
    {
        self.realms.iter().all(|realm| self.is_realm(realm))
    }

    /// Whether each power's units are its own.
    fn has_own_units(&self) -> bool
        requires { length self.now.realms ≤ 7 }
        ensures { result ≡ rest_has_own_units 0 self.now.realms }
    {
        for (number, realm) in self.realms.iter().enumerate() {
            if !are_of(realm.units.as_slice(), Power::new(number as u8)) {
                return false;
            }
        }
        true
    }

    /// Whether each province and each power is well formed, and a power's units are its own.
    fn is_well_formed(&self) -> bool
        requires { length self.now.realms ≤ 7 }
        ensures { result ≡ is_well_formed self.now }
    {
        self.are_provinces() && self.are_realms() && self.has_own_units()
    }

    /// Whether codes ascend, so that none stands twice.
    fn has_ascending_codes(&self) -> bool
        ensures { result ≡ are_ascending_by (λ r. r.code) self.now.provinces }
    {
        for (number, province) in self.provinces.iter().enumerate() {
            let code = province.code.as_str();
            if !is_before_codes(code, &self.provinces[number + 1..]) {
                return false;
            }
        }
        true
    }

    /// Whether powers' names ascend, so that none stands twice.
    fn has_ascending_names(&self) -> bool
        ensures { result ≡ are_ascending_by (λ r. r.name) self.now.realms }
    {
        for (number, realm) in self.realms.iter().enumerate() {
            let name = realm.name.as_str();
            if !is_before_names(name, &self.realms[number + 1..]) {
                return false;
            }
        }
        true
    }

    /// Whether no name of a coast stands twice among these of a province.
    fn has_distinct_shores(&self, p: Prov, shores: &[Shore]) -> bool
        ensures { result ≡ rest_of_shores self.now p 0 shores.now }
    {
        for (number, shore) in shores.iter().enumerate() {
            if !answers(self.coast_index(p, shore.name.as_bytes()), number) {
                return false;
            }
        }
        true
    }

    /// Whether no name of a coast stands twice in any province.
    fn has_distinct_coasts(&self) -> bool
        requires { length self.now.provinces ≤ 200 }
        ensures { result ≡ rest_of_coasts self.now 0 self.now.provinces }
    {
        for (number, province) in self.provinces.iter().enumerate() {
            if !self.has_distinct_shores(Prov::new(number as u8), province.shores.as_slice()) {
                return false;
            }
        }
        true
    }

    /// Whether codes and powers' names ascend, and no coast's name stands twice in a province.
    fn is_distinct(&self) -> bool
        requires { length self.now.provinces ≤ 200 }
        ensures { result ≡ is_distinct self.now }
    {
        self.has_ascending_codes() && self.has_ascending_names() && self.has_distinct_coasts()
    }

    /// Whether each of these provinces has `p` among its neighbours of armies.
    fn is_named_back(&self, p: Prov, list: &[Prov]) -> bool
        ensures { result ≡ is_named_back self.now p list.now }
    {
        list.iter().all(|q| self.is_army_next(*q, p))
    }

    /// Whether each neighbour of armies names its neighbour back.
    fn is_mutual_by_land(&self) -> bool
        requires { length self.now.provinces ≤ 200 }
        ensures { result ≡ rest_is_mutual self.now 0 self.now.provinces }
    {
        for (number, province) in self.provinces.iter().enumerate() {
            if !self.is_named_back(Prov::new(number as u8), province.army.as_slice()) {
                return false;
            }
        }
        true
    }

    /// Whether each of these places has `a` among its neighbours of fleets.
    fn are_named_back(&self, a: Place, list: &[Place]) -> bool
        ensures { result ≡ are_named_back self.now a list.now }
    {
        list.iter().all(|b| self.is_fleet_next(*b, a))
    }

    /// Whether each neighbour of these coasts names that coast back.
    fn are_shores_mutual(&self, prov: Prov, shores: &[Shore]) -> bool
        requires { length shores.now ≤ 4 }
        ensures { result ≡ rest_of_shores_is_mutual self.now prov 0 shores.now }
    {
        for (number, shore) in shores.iter().enumerate() {
            let place = Place {
                prov,
                coast: number as u8,
            };
            if !self.are_named_back(place, shore.next.as_slice()) {
                return false;
            }
        }
        true
    }

    /// Whether each neighbour of fleets names its neighbour back.
    fn is_mutual_by_sea(&self) -> bool
        requires few { length self.now.provinces ≤ 200 }
        requires well_formed { is_well_formed self.now ≡ true }
        ensures { result ≡ rest_is_mutual_by_sea self.now 0 self.now.provinces }
    {
        for (number, province) in self.provinces.iter().enumerate() {
            let shores = province.shores.as_slice();
            if !self.are_shores_mutual(Prov::new(number as u8), shores) {
                return false;
            }
        }
        true
    }

    /// Whether each neighbour names its neighbour back.
    fn is_mutual(&self) -> bool
        requires few { length self.now.provinces ≤ 200 }
        requires well_formed { is_well_formed self.now ≡ true }
        ensures { result ≡ is_mutual self.now }
    {
        self.is_mutual_by_land() && self.is_mutual_by_sea()
    }

    /// The first fault, if there is one: parts without a fault are those of a map.
    pub fn first_fault(&self) -> Option<MapFault>
        ensures first { result ≡ first_fault self.now }
        ensures lawful { result ≡ None → IsMap self.now }
    {
        if !self.is_within_limits() {
            return Some(MapFault::OverLimit);
        }
        if !self.is_well_formed() {
            return Some(MapFault::UnknownName);
        }
        if !self.is_allowed() {
            return Some(MapFault::UnknownName);
        }
        if !self.is_distinct() {
            return Some(MapFault::DoubledName);
        }
        if !self.is_single() {
            return Some(MapFault::DoubledName);
        }
        if !self.is_mutual() {
            return Some(MapFault::NotSymmetric);
        }
        None
    }
}
