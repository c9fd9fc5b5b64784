//! The parts of a map, and what is looked up in them.
ghost use Rattle.std.specs.Prelude.{◌≡◌, length};
ghost use Rattle.dip_map_chart.specs.Charts.{province, realm, shore, army_next, fleet_next, home, is_home, power_of, coast_of, is_centre};
ghost use Rattle.dip_map_chart.specs.Charts.{is_fleet_place, is_army_place, may_stand, is_unit, is_army_next, is_fleet_next};
ghost use Rattle.dip_names.specs.Kinds.{is_sea};

use dip_names::{Kind, Place, Power, Prov, Terrain, Unit};
use std::marker::Model;

/// A coast, and where a fleet goes from it.
///
/// A province that takes fleets and has no coasts of its own has one whose name is empty.
#[derive(Drop)]
pub struct Shore {
    pub name: String,
    pub next: Vec<Place>,
}

impl Model for Shore {
    ghost use Rattle.std.specs.Prelude.{string_bytes};
    ghost use Rattle.dip_map_chart.specs.Charts.{Shore as ShoreFacts};

    ghost Value = { ShoreFacts };

    ghost view = { λ s. record { name = string_bytes s.name; next = s.next.items } };
}

/// A province of a map: its code and full name, what it is, whether it is a centre, and where
/// armies and fleets go from it.
#[derive(Drop)]
pub struct Province {
    pub code: String,
    pub name: String,
    pub terrain: Terrain,
    pub centre: bool,
    pub army: Vec<Prov>,
    pub shores: Vec<Shore>,
}

impl Model for Province {
    ghost use Rattle.std.specs.Prelude.{string_bytes};
    ghost use Rattle.dip_map_chart.specs.Charts.{Province as ProvinceFacts};

    ghost Value = { ProvinceFacts };

    ghost view = { λ p. record { code = string_bytes p.code; name = string_bytes p.name; terrain = p.terrain; centre = p.centre; army = p.army.items; shores = p.shores.items } };
}

/// A power of a map, its home centres and its units at the opening.
#[derive(Drop)]
pub struct Realm {
    pub name: String,
    pub home: Vec<Prov>,
    pub units: Vec<Unit>,
}

impl Model for Realm {
    ghost use Rattle.std.specs.Prelude.{string_bytes};
    ghost use Rattle.dip_map_chart.specs.Charts.{Realm as RealmFacts};

    ghost Value = { RealmFacts };

    ghost view = { λ r. record { name = string_bytes r.name; home = r.home.items; units = r.units.items } };
}

/// The parts of a map, before they are checked.
#[derive(Drop)]
pub struct Parts {
    pub name: String,
    pub realms: Vec<Realm>,
    pub provinces: Vec<Province>,
}

impl Model for Parts {
    ghost use Rattle.std.specs.Prelude.{string_bytes};
    ghost use Rattle.dip_map_chart.specs.Charts.{Chart};

    ghost Value = { Chart };

    ghost view = { λ m. record { name = string_bytes m.name; realms = m.realms.items; provinces = m.provinces.items } };
}

/// The look-ups. What isn't there has empty names and lists.
impl Parts {
    /// Where an army goes from a province.
    pub fn army_next(&self, p: Prov) -> &[Prov]
        ensures { result.now ≡ army_next self.now p }
    {
        match self.provinces.get(p.index() as usize) {
            Some(province) => province.army.as_slice(),
            None => &[],
        }
    }

    /// The coasts from which fleets go; none inland, and none of a province that isn't of the map.
    pub fn shores(&self, p: Prov) -> &[Shore]
        ensures { result.now ≡ (province self.now p).shores }
    {
        match self.provinces.get(p.index() as usize) {
            Some(province) => province.shores.as_slice(),
            None => &[],
        }
    }

    /// Where a fleet goes from a place.
    pub fn fleet_next(&self, a: Place) -> &[Place]
        ensures { result.now ≡ fleet_next self.now a }
    {
        match self.shores(a.prov).get(a.coast as usize) {
            Some(shore) => shore.next.as_slice(),
            None => &[],
        }
    }

    /// The name of a place's coast, empty where the province has no coasts of its own.
    pub fn coast_name(&self, a: Place) -> &str
        ensures { result.now ≡ (shore self.now a).name }
    {
        match self.shores(a.prov).get(a.coast as usize) {
            Some(shore) => shore.name.as_str(),
            None => "",
        }
    }

    /// How many coasts a province has.
    pub fn coasts(&self, p: Prov) -> usize
        ensures { result ≡ length (province self.now p).shores }
    {
        self.shores(p).len()
    }

    /// Whether a province is inland, a coast or open sea.
    pub fn terrain(&self, p: Prov) -> Terrain
        ensures { result ≡ (province self.now p).terrain }
    {
        match self.provinces.get(p.index() as usize) {
            Some(province) => province.terrain,
            None => Terrain::Inland,
        }
    }

    /// Whether a province is a supply centre.
    pub fn is_centre(&self, p: Prov) -> bool
        ensures { result ≡ is_centre self.now p }
    {
        match self.provinces.get(p.index() as usize) {
            Some(province) => province.centre,
            None => false,
        }
    }

    /// A province's code, three letters; empty of one that isn't of the map.
    pub fn code(&self, p: Prov) -> &str
        ensures { result.now ≡ (province self.now p).code }
    {
        match self.provinces.get(p.index() as usize) {
            Some(province) => province.code.as_str(),
            None => "",
        }
    }

    /// A province's full name; empty of one that isn't of the map.
    pub fn name(&self, p: Prov) -> &str
        ensures { result.now ≡ (province self.now p).name }
    {
        match self.provinces.get(p.index() as usize) {
            Some(province) => province.name.as_str(),
            None => "",
        }
    }

    /// The home centres of a power; none of one that isn't of the map.
    pub fn home(&self, r: Power) -> &[Prov]
        ensures { result.now ≡ home self.now r }
    {
        match self.realms.get(r.index() as usize) {
            Some(realm) => realm.home.as_slice(),
            None => &[],
        }
    }

    /// Whether a province is a home centre of a power.
    pub fn is_home(&self, r: Power, p: Prov) -> bool
        ensures { result ≡ is_home self.now r p }
    {
        self.home(r).contains(&p)
    }

    /// A power's name; empty of one that isn't of the map.
    pub fn power_name(&self, r: Power) -> &str
        ensures { result.now ≡ (realm self.now r).name }
    {
        match self.realms.get(r.index() as usize) {
            Some(realm) => realm.name.as_str(),
            None => "",
        }
    }

    /// The number of the power with this name, if the map has one: it is its place in the order of
    /// names.
    pub fn power_index(&self, name: &str) -> Option<usize>
        ensures { result ≡ power_of self.now name.now }
    {
        self.realms
            .iter()
            .position(|realm| realm.name.as_str() == name)
    }

    /// The number of a province's coast with a name.
    pub fn coast_index(&self, p: Prov, name: &[u8]) -> Option<usize>
        ensures { result ≡ coast_of self.now p name.now }
    {
        self.shores(p)
            .iter()
            .position(|shore| shore.name.as_bytes() == name)
    }

    /// Whether an army goes from one province to the other.
    pub fn is_army_next(&self, p: Prov, q: Prov) -> bool
        ensures { result ≡ is_army_next self.now p q }
    {
        self.army_next(p).contains(&q)
    }

    /// Whether a fleet goes from one place to the other.
    pub fn is_fleet_next(&self, a: Place, b: Place) -> bool
        ensures { result ≡ is_fleet_next self.now a b }
    {
        self.fleet_next(a).contains(&b)
    }

    /// Whether the place is one where a fleet may be.
    pub fn is_fleet_place(&self, a: Place) -> bool
        ensures { result ≡ is_fleet_place self.now a }
    {
        (a.prov.index() as usize) < self.provinces.len() && (a.coast as usize) < self.coasts(a.prov)
    }

    /// Whether the place is one of the map where an army may be: it has no coast, and is no sea.
    fn is_army_place(&self, a: Place) -> bool
        ensures { result ≡ is_army_place self.now a }
    {
        (a.prov.index() as usize) < self.provinces.len()
            && a.coast == 0
            && !self.terrain(a.prov).is_sea()
    }

    /// Whether a unit of that kind may be at the place.
    pub fn may_stand(&self, kind: Kind, a: Place) -> bool
        ensures { result ≡ may_stand self.now kind a }
    {
        match kind {
            Kind::Army => self.is_army_place(a),
            Kind::Fleet => self.is_fleet_place(a),
        }
    }

    /// Whether the unit is one of these parts.
    pub fn is_unit(&self, unit: &Unit) -> bool
        ensures { result ≡ is_unit self.now unit.now }
    {
        (unit.power.index() as usize) < self.realms.len() && self.may_stand(unit.kind, unit.place)
    }
}
