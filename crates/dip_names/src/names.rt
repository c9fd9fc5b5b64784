//! Provinces, powers, places and units, by their numbers.
ghost use Rattle.std.specs.Prelude.{◌≡◌};
ghost use Rattle.dip_names.specs.Kinds.{is_kind, is_sea, is_coastal};

use std::marker::Model;

/// A province, by its place in the order of codes.
#[derive(Clone, Copy, PartialEq, Eq, PartialOrd, Ord, Debug)]
pub struct Prov {
    index: u8,
}

impl Model for Prov {
    ghost use Rattle.std.specs.Prelude.{ℕ, ◌<◌};

    ghost Value = { ℕ };

    ghost view = { λ p. p.index };

    ghost invariant = { λ p. p.index < 256 };

    ghost inverse = { λ n. record { index = n } };
}

impl Prov {
    /// The province of that number. Whether a map has so many isn't asked here.
    pub fn new(index: u8) -> Prov
        ensures { result ≡ index }
    {
        Prov { index }
    }

    /// Its number, from 0 on.
    pub fn index(self) -> u8
        ensures { result ≡ self }
    {
        self.index
    }
}

/// A power, by its place in the order of names.
#[derive(Clone, Copy, PartialEq, Eq, PartialOrd, Ord, Debug)]
pub struct Power {
    index: u8,
}

impl Model for Power {
    ghost use Rattle.std.specs.Prelude.{ℕ, ◌<◌};

    ghost Value = { ℕ };

    ghost view = { λ p. p.index };

    ghost invariant = { λ p. p.index < 256 };

    ghost inverse = { λ n. record { index = n } };
}

impl Power {
    /// The power of that number. Whether a map has so many isn't asked here.
    pub fn new(index: u8) -> Power
        ensures { result ≡ index }
    {
        Power { index }
    }

    /// Its number, from 0 on.
    pub fn index(self) -> u8
        ensures { result ≡ self }
    {
        self.index
    }
}

/// A province and the number of one of its coasts, 0 for the only one and for an army.
#[derive(Clone, Copy, PartialEq, Eq, PartialOrd, Ord, Debug)]
pub struct Place {
    pub prov: Prov,
    pub coast: u8,
}

/// An army or a fleet: armies stand inland and on coasts, fleets on coasts and at sea.
#[derive(Clone, Copy, PartialEq, Eq, PartialOrd, Ord, Debug)]
pub enum Kind {
    Army,
    Fleet,
}

impl Kind {
    /// Whether the two kinds are one.
    pub fn is(self, other: Kind) -> bool
        ensures { result ≡ is_kind self other }
    {
        match (self, other) {
            (Kind::Army, Kind::Army) | (Kind::Fleet, Kind::Fleet) => true,
            (Kind::Army, Kind::Fleet) | (Kind::Fleet, Kind::Army) => false,
        }
    }
}

/// What a province is: inland it takes armies, at sea fleets, and on a coast both.
#[derive(Clone, Copy, PartialEq, Eq, PartialOrd, Ord, Debug)]
pub enum Terrain {
    Inland,
    Coast,
    Sea,
}

impl Terrain {
    /// Whether it is the open sea. Only fleets stand there.
    pub fn is_sea(self) -> bool
        ensures { result ≡ is_sea self }
    {
        match self {
            Terrain::Inland | Terrain::Coast => false,
            Terrain::Sea => true,
        }
    }

    /// Whether it is a coast. Armies and fleets stand there.
    pub fn is_coastal(self) -> bool
        ensures { result ≡ is_coastal self }
    {
        match self {
            Terrain::Inland | Terrain::Sea => false,
            Terrain::Coast => true,
        }
    }
}

/// A unit of a power, and where it stands or was dislodged.
#[derive(Clone, Copy, PartialEq, Eq, PartialOrd, Ord, Debug)]
pub struct Unit {
    pub power: Power,
    pub kind: Kind,
    pub place: Place,
}
