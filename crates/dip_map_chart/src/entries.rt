//! Checks of a list's entries: neighbours that are allowed, and nothing that stands twice.
ghost use Rattle.std.specs.Prelude.{◌≡◌, ◌==◌, ◌&&◌, ◌≤◌, not, length};
ghost use Rattle.std.specs.List.{list_all, list_any};
ghost use Rattle.std.specs.Str.{bytes_eq};
ghost use Rattle.dip_map_chart.specs.Charts.{are_provs_single, are_places_single, are_units_single};
ghost use Rattle.dip_map_chart.specs.Checks.{may_march, lead_away, rest_is_allowed, is_allowed, are_names_single};
ghost use Rattle.dip_map_chart.specs.Checks.{has_single_neighbours, is_home_of, is_held_by, are_homes_single, are_openings_single, is_single};

use crate::parts::{Parts, Province, Realm, Shore};
use dip_names::{Place, Prov, Unit};

/// Whether all these places are in other provinces than `p`.
fn leads_away(p: Prov, next: &[Place]) -> bool
    ensures { result ≡ list_all (λ b. not (b.prov == p)) next.now }
{
    next.iter().all(|b| b.prov != p)
}

/// Whether these coasts lead to other provinces than `p`.
fn lead_away(p: Prov, shores: &[Shore]) -> bool
    ensures { result ≡ lead_away p shores.now }
{
    shores
        .iter()
        .all(|shore| leads_away(p, shore.next.as_slice()))
}

/// Whether no province stands twice in the list.
fn are_provs_single(provs: &[Prov]) -> bool
    ensures { result ≡ are_provs_single provs.now }
{
    for (number, p) in provs.iter().enumerate() {
        if provs[number + 1..].contains(p) {
            return false;
        }
    }
    true
}

/// Whether no place stands twice in the list.
fn are_places_single(places: &[Place]) -> bool
    ensures { result ≡ are_places_single places.now }
{
    for (number, a) in places.iter().enumerate() {
        if places[number + 1..].contains(a) {
            return false;
        }
    }
    true
}

/// Whether one of these provinces has the full name.
fn is_name_of(provinces: &[Province], name: &str) -> bool
    ensures { result ≡ list_any (λ t. bytes_eq t.name name.now) provinces.now }
{
    provinces
        .iter()
        .any(|province| province.name.as_str() == name)
}

/// Whether no full name stands twice in the list.
fn are_names_single(provinces: &[Province]) -> bool
    ensures { result ≡ are_names_single provinces.now }
{
    for (number, province) in provinces.iter().enumerate() {
        if is_name_of(&provinces[number + 1..], province.name.as_str()) {
            return false;
        }
    }
    true
}

/// Whether one of these units stands in the province.
fn is_held(units: &[Unit], p: Prov) -> bool
    ensures { result ≡ list_any (λ u. u.place.prov == p) units.now }
{
    units.iter().any(|unit| unit.place.prov == p)
}

/// Whether no two of these units stand in one province.
pub fn are_units_single(units: &[Unit]) -> bool
    ensures { result ≡ are_units_single units.now }
{
    for (number, unit) in units.iter().enumerate() {
        if is_held(&units[number + 1..], unit.place.prov) {
            return false;
        }
    }
    true
}

/// Whether no neighbour stands twice for any of these coasts.
fn are_shores_single(shores: &[Shore]) -> bool
    ensures { result ≡ list_all (λ s. are_places_single s.next) shores.now }
{
    shores
        .iter()
        .all(|shore| are_places_single(shore.next.as_slice()))
}

/// Whether no neighbour of the province stands twice in a list of it.
fn has_single_neighbours(province: &Province) -> bool
    ensures { result ≡ has_single_neighbours province.now }
{
    are_provs_single(province.army.as_slice()) && are_shores_single(province.shores.as_slice())
}

/// Whether no neighbour stands twice in a list of any of these provinces.
fn have_single_neighbours(provinces: &[Province]) -> bool
    ensures { result ≡ list_all has_single_neighbours provinces.now }
{
    provinces
        .iter()
        .all(|province| has_single_neighbours(province))
}

/// Whether the province is a home centre of one of these powers.
fn is_home_of(realms: &[Realm], p: Prov) -> bool
    ensures { result ≡ is_home_of realms.now p }
{
    realms
        .iter()
        .any(|realm| realm.home.as_slice().contains(&p))
}

/// Whether any of these provinces is a home centre of one of these powers.
fn is_any_home_of(realms: &[Realm], homes: &[Prov]) -> bool
    ensures { result ≡ list_any (λ p. is_home_of realms.now p) homes.now }
{
    homes.iter().any(|p| is_home_of(realms, *p))
}

/// Whether a unit of one of these powers stands in the province at the opening.
fn is_held_by(realms: &[Realm], p: Prov) -> bool
    ensures { result ≡ is_held_by realms.now p }
{
    realms
        .iter()
        .any(|realm| is_held(realm.units.as_slice(), p))
}

/// Whether any of these units stands where a unit of one of these powers does.
fn is_any_held_by(realms: &[Realm], units: &[Unit]) -> bool
    ensures { result ≡ list_any (λ u. is_held_by realms.now u.place.prov) units.now }
{
    units.iter().any(|unit| is_held_by(realms, unit.place.prov))
}

/// Whether no home centre stands twice, in a power's list or in those of two powers.
fn are_homes_single(realms: &[Realm]) -> bool
    ensures { result ≡ are_homes_single realms.now }
{
    for (number, realm) in realms.iter().enumerate() {
        let home = realm.home.as_slice();
        if !are_provs_single(home) || is_any_home_of(&realms[number + 1..], home) {
            return false;
        }
    }
    true
}

/// Whether no two opening units of these powers stand in one province.
fn are_openings_single(realms: &[Realm]) -> bool
    ensures { result ≡ are_openings_single realms.now }
{
    for (number, realm) in realms.iter().enumerate() {
        let units = realm.units.as_slice();
        if !are_units_single(units) || is_any_held_by(&realms[number + 1..], units) {
            return false;
        }
    }
    true
}

impl Parts {
    /// Whether an army goes from `p` to this neighbour: another province, and no sea.
    fn may_march(&self, p: Prov, q: Prov) -> bool
        ensures { result ≡ may_march self.now p q }
    {
        q != p && !self.terrain(q).is_sea()
    }

    /// Whether an army goes from `p` to each of these neighbours.
    fn may_march_to(&self, p: Prov, list: &[Prov]) -> bool
        ensures { result ≡ list_all (λ q. may_march self.now p q) list.now }
    {
        list.iter().all(|q| self.may_march(p, *q))
    }

    /// Whether each neighbour is one that a unit may go to.
    pub(crate) fn is_allowed(&self) -> bool
        requires { length self.now.provinces ≤ 200 }
        ensures { result ≡ is_allowed self.now }
    {
        for (number, province) in self.provinces.iter().enumerate() {
            let p = Prov::new(number as u8);
            let away = lead_away(p, province.shores.as_slice());
            if !away || !self.may_march_to(p, province.army.as_slice()) {
                return false;
            }
        }
        true
    }

    /// Whether no full name, neighbour, home centre and no province of an opening unit stands twice.
    pub(crate) fn is_single(&self) -> bool
        ensures { result ≡ is_single self.now }
    {
        let provinces = self.provinces.as_slice();
        let realms = self.realms.as_slice();
        are_names_single(provinces)
            && have_single_neighbours(provinces)
            && are_homes_single(realms)
            && are_openings_single(realms)
    }
}
