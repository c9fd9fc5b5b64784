//! Whether a board is one of a map.
ghost use Rattle.std.specs.Prelude.{◌≡◌, ◌<◌, ◌↔◌, ℕ, length, map, IsTrue, All, true, false, None, is_some, ◌==◌, nat_lt};
ghost use Rattle.std.specs.List.{list_any, list_all, slice_index_or};
ghost use Rattle.dip_map_chart.specs.Charts.{is_unit, is_centre, are_units_single};
ghost use Rattle.dip_map.specs.Boards.{is_prov_if_any, is_power_if_any, is_dislodged, is_held, are_ascending, IsOf};

use crate::boards::{Board, Dislodged};
use crate::charts::Map;
use dip_map_chart::are_units_single;
use dip_names::{Power, Prov, Unit};

impl Board {
    /// Whether the board is one of this map: each part of it is, with at most one standing and one dislodged unit a province; only centres
    /// have owners; standoffs ascend, and no unit stands there.
    pub fn is_of(&self, map: &Map) -> bool
        ensures { IsTrue result ↔ IsOf map.now self.now }
    {
        if !are_units_of(map, self.units()) {
            return false;
        }
        if !are_units_single(self.units()) {
            return false;
        }
        if !are_dislodged_of(map, self.dislodged()) {
            return false;
        }
        if !are_dislodged_single(self.dislodged()) {
            return false;
        }
        if !are_provinces_of(map, self.standoff()) {
            return false;
        }
        if !are_ascending(self.standoff()) {
            return false;
        }
        if !self.are_empty(self.standoff()) {
            return false;
        }
        if !are_owners_of(map, self.owners()) {
            return false;
        }
        if self.owners().len() != map.province_count() {
            return false;
        }
        are_owners_of_centres(map, self.owners())
    }

    /// Whether no unit stands in any of these provinces.
    fn are_empty(&self, provinces: &[Prov]) -> bool
        ensures { IsTrue result ↔ All (λ p. is_held self.now p ≡ false) provinces.now }
    {
        for province in provinces {
            if self.is_held(*province) {
                return false;
            }
        }
        true
    }
}

/// Whether the province, if there is one, is of the map.
fn is_prov_if_any(map: &Map, p: Option<Prov>) -> bool
    ensures { result ≡ is_prov_if_any map.now p }
{
    match p {
        Some(p) => (p.index() as usize) < map.province_count(),
        None => true,
    }
}

/// Whether the power, if there is one, is of the map.
fn is_power_if_any(map: &Map, power: Option<Power>) -> bool
    ensures { result ≡ is_power_if_any map.now power }
{
    match power {
        Some(power) => (power.index() as usize) < map.power_count(),
        None => true,
    }
}

/// Whether the dislodged unit and its attacker's origin are of the map.
fn is_dislodged_of(map: &Map, dislodged: &Dislodged) -> bool
    ensures { result ≡ is_dislodged map.now dislodged.now }
{
    map.is_unit(&dislodged.unit) && is_prov_if_any(map, dislodged.origin)
}

/// Whether all these units are of the map.
fn are_units_of(map: &Map, units: &[Unit]) -> bool
    ensures { IsTrue result ↔ All (λ u. is_unit map.now u ≡ true) units.now }
{
    for unit in units {
        if !map.is_unit(unit) {
            return false;
        }
    }
    true
}

/// Whether all these dislodged units are of the map.
fn are_dislodged_of(map: &Map, units: &[Dislodged]) -> bool
    ensures { IsTrue result ↔ All (λ d. is_dislodged map.now d ≡ true) units.now }
{
    for unit in units {
        if !is_dislodged_of(map, unit) {
            return false;
        }
    }
    true
}

/// Whether a unit was dislodged from the province.
fn is_left_by(units: &[Dislodged], p: Prov) -> bool
    ensures { result ≡ list_any (λ d. d.unit.place.prov == p) units.now }
{
    units.iter().any(|dislodged| dislodged.unit.place.prov == p)
}

/// Whether no two of these were dislodged from one province.
fn are_dislodged_single(units: &[Dislodged]) -> bool
    ensures { result ≡ are_units_single (map (λ d. d.unit) units.now) }
{
    for (number, dislodged) in units.iter().enumerate() {
        if is_left_by(&units[number + 1..], dislodged.unit.place.prov) {
            return false;
        }
    }
    true
}

/// Whether all these provinces are of the map.
fn are_provinces_of(map: &Map, provinces: &[Prov]) -> bool
    ensures { IsTrue result ↔ All (λ p. p < length map.now.provinces) provinces.now }
{
    for province in provinces {
        if map.province_count() <= province.index() as usize {
            return false;
        }
    }
    true
}

/// Whether the province comes before all of these.
fn is_before(p: Prov, provinces: &[Prov]) -> bool
    ensures { result ≡ list_all (λ q. nat_lt p q) provinces.now }
{
    provinces.iter().all(|later| p < *later)
}

/// Whether each of these provinces comes before all after it.
fn are_ascending(provinces: &[Prov]) -> bool
    ensures { result ≡ are_ascending provinces.now }
{
    for (number, province) in provinces.iter().enumerate() {
        if !is_before(*province, &provinces[number + 1..]) {
            return false;
        }
    }
    true
}

/// Whether only centres are owned.
fn are_owners_of_centres(map: &Map, owners: &[Option<Power>]) -> bool
    requires { length owners.now ≡ length map.now.provinces }
    ensures { IsTrue result
        ↔
        ((p : ℕ) → is_some (slice_index_or owners.now p None) ≡ true → is_centre map.now p ≡ true) }
{
    map.facts();
    for (number, owner) in owners.iter().enumerate() {
        if owner.is_some() && !map.is_centre(Prov::new(number as u8)) {
            return false;
        }
    }
    true
}

/// Whether all these owners are of the map.
fn are_owners_of(map: &Map, owners: &[Option<Power>]) -> bool
    ensures { IsTrue result ↔ All (λ o. is_power_if_any map.now o ≡ true) owners.now }
{
    for owner in owners {
        if !is_power_if_any(map, *owner) {
            return false;
        }
    }
    true
}
