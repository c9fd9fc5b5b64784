//! What a map's file writes, before its codes are looked up.
ghost use Rattle.std.specs.Prelude.{◌≡◌};
ghost use Rattle.std.specs.List.{position};
ghost use Rattle.std.specs.Str.{bytes_eq};

use dip_names::{Kind, Terrain};
use std::marker::Model;

/// A place as it is written: a code, and the name of a coast, which is empty where none is written.
#[derive(Drop)]
pub struct Site<'a> {
    pub code: &'a [u8],
    pub coast: &'a [u8],
}

impl<'a> Model for Site<'a> {
    ghost use Rattle.dip_map_file.specs.Drafts.{Site as SiteFacts};

    ghost Value = { SiteFacts };

    ghost view = { λ s. record { code = s.code.now; coast = s.coast.now } };
}

/// A coast, and where a fleet goes from it.
///
/// A province that takes fleets and has no coasts of its own has one whose name is empty.
#[derive(Drop)]
pub struct ShoreDraft<'a> {
    pub name: &'a str,
    pub next: Vec<Site<'a>>,
}

impl<'a> Model for ShoreDraft<'a> {
    ghost use Rattle.dip_map_file.specs.Drafts.{ShoreDraft as ShoreFacts};

    ghost Value = { ShoreFacts };

    ghost view = { λ s. record { name = s.name.now; next = s.next.items } };
}

/// A province as a file writes it: its neighbours are still codes.
#[derive(Drop)]
pub struct ProvinceDraft<'a> {
    pub code: &'a str,
    pub name: &'a str,
    pub terrain: Terrain,
    pub centre: bool,
    pub army: Vec<&'a str>,
    pub shores: Vec<ShoreDraft<'a>>,
}

impl<'a> Model for ProvinceDraft<'a> {
    ghost use Rattle.std.specs.Prelude.{map, length, ◌≤◌};
    ghost use Rattle.dip_map_file.specs.Drafts.{ProvinceDraft as ProvinceFacts};

    ghost Value = { ProvinceFacts };

    ghost view = { λ p. record { code = p.code.now; name = p.name.now; terrain = p.terrain; centre = p.centre; army = map (λ s. s.now) p.army.items; shores = p.shores.items } };

    ghost invariant = { λ p. length p.shores.items ≤ 4 };
}

impl<'a> ProvinceDraft<'a> {
    /// The number of the coast of that name; the empty name is that of the only coast where there is no other.
    pub fn coast(&self, name: &[u8]) -> Option<u8>
        ensures { result ≡ position (λ s. bytes_eq s.name name.now) self.now.shores }
    {
        match coast_index(self.shores.as_slice(), name) {
            Some(index) => Some(index as u8),
            None => None,
        }
    }
}

/// The number of the coast with a name.
fn coast_index(shores: &[ShoreDraft<'_>], name: &[u8]) -> Option<usize>
    ensures { result ≡ position (λ s. bytes_eq s.name name.now) shores.now }
{
    shores
        .iter()
        .position(|shore| shore.name.as_bytes() == name)
}

/// A unit with which a power begins, at a place that is still a code.
#[derive(Drop)]
pub struct UnitDraft<'a> {
    pub kind: Kind,
    pub site: Site<'a>,
}

impl<'a> Model for UnitDraft<'a> {
    ghost use Rattle.dip_map_file.specs.Drafts.{UnitDraft as UnitFacts};

    ghost Value = { UnitFacts };

    ghost view = { λ u. record { kind = u.kind; site = u.site } };
}

/// A power, the codes of its home centres, and its units at the opening.
#[derive(Drop)]
pub struct PowerDraft<'a> {
    pub name: &'a str,
    pub home: Vec<&'a str>,
    pub units: Vec<UnitDraft<'a>>,
}

impl<'a> Model for PowerDraft<'a> {
    ghost use Rattle.std.specs.Prelude.{map};
    ghost use Rattle.dip_map_file.specs.Drafts.{PowerDraft as PowerFacts};

    ghost Value = { PowerFacts };

    ghost view = { λ p. record { name = p.name.now; home = map (λ s. s.now) p.home.items; units = p.units.items } };
}

/// All that a map's file writes, powers by name and provinces by code.
#[derive(Drop)]
pub struct Draft<'a> {
    pub name: &'a str,
    pub powers: Vec<PowerDraft<'a>>,
    pub provinces: Vec<ProvinceDraft<'a>>,
}

impl<'a> Model for Draft<'a> {
    ghost use Rattle.dip_map_file.specs.Drafts.{Draft as DraftFacts};

    ghost Value = { DraftFacts };

    ghost view = { λ d. record { name = d.name.now; powers = d.powers.items; provinces = d.provinces.items } };
}
