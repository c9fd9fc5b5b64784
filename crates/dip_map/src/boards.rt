//! The board of a game: its parts, and the board of the opening.
ghost use Rattle.std.specs.Prelude.{◌≡◌, ◌==◌, IfOk, map as each};
ghost use Rattle.std.specs.List.{list_any, position};
ghost use Rattle.dip_map_chart.specs.Charts.{opening_units, provs};
ghost use Rattle.dip_map.specs.Boards.{IsOf, owner_at, opening};

use crate::charts::Map;
use dip_map_chart::Realm;
use dip_names::{Power, Prov, Unit};
use std::alloc::{AllocError, Global};
use std::marker::Model;

/// A unit that was dislodged, and where its attacker came from; none where that came by convoy.
#[derive(Clone, Copy, PartialEq, Eq, Debug)]
pub struct Dislodged {
    pub unit: Unit,
    pub origin: Option<Prov>,
}

/// The five kinds of phases, in the order in which a year has them.
#[derive(Clone, Copy, PartialEq, Eq, PartialOrd, Ord, Debug)]
pub enum Season {
    SpringMoves,
    SpringRetreats,
    FallMoves,
    FallRetreats,
    Winter,
}

/// A phase, by its year and its season: earlier phases are less than later ones.
#[derive(Clone, Copy, PartialEq, Eq, PartialOrd, Ord, Debug)]
pub struct Phase {
    pub year: u16,
    pub season: Season,
}

/// A board: what stands where, what was dislodged, who owns what, the phase to be played, and the game's option INTENT.
#[derive(Drop)]
pub struct Board {
    units: Vec<Unit>,
    dislodged: Vec<Dislodged>,
    standoff: Vec<Prov>,
    owners: Vec<Option<Power>>,
    phase: Phase,
    intent: bool,
}

impl Model for Board {
    ghost use Rattle.dip_map.specs.Boards.{Position};

    ghost Value = { Position };

    ghost view = { λ b. record { units = b.units.items; dislodged = b.dislodged.items; standoff = b.standoff.items; owners = b.owners.items; phase = b.phase; intent = b.intent } };
}

impl Board {
    /// The board of these parts; `is_of` tells whether it is one of a map.
    pub fn of(
        units: Vec<Unit>,
        dislodged: Vec<Dislodged>,
        standoff: Vec<Prov>,
        owners: Vec<Option<Power>>,
        phase: Phase,
        intent: bool,
    ) -> Board
        ensures { result ≡ record {
          units = units.items;
          dislodged = dislodged.items;
          standoff = standoff.items;
          owners =
              owners.items;
          phase = phase;
          intent = intent;
        } }
    {
        Board {
            units,
            dislodged,
            standoff,
            owners,
            phase,
            intent,
        }
    }

    /// This board in another phase. Everything else stays.
    pub fn with_phase(self, phase: Phase) -> Board
        ensures { result ≡ record self { phase = phase } }
    {
        Board {
            units: self.units,
            dislodged: self.dislodged,
            standoff: self.standoff,
            owners: self.owners,
            phase,
            intent: self.intent,
        }
    }

    /// This board with the option INTENT on or off.
    pub fn with_intent(self, intent: bool) -> Board
        ensures { result ≡ record self { intent = intent } }
    {
        Board {
            units: self.units,
            dislodged: self.dislodged,
            standoff: self.standoff,
            owners: self.owners,
            phase: self.phase,
            intent,
        }
    }

    /// The board of the opening, in Spring 1901, with the option INTENT off.
    #[tactic(auto, using(crate::proofs::BoardLaws::opening_law))]
    pub fn opening(alloc: Global, map: &Map) -> Result<Board, AllocError>
        ensures value { IfOk result (λ b. b ≡ opening map.now) }
        ensures lawful { IfOk result (λ b. IsOf map.now b) }
    {
        map.facts();
        let units = opening_units_of(alloc, map)?;
        let owners = owners_of(alloc, map)?;
        Ok(Board {
            units,
            dislodged: Vec::new(alloc),
            standoff: Vec::new(alloc),
            owners,
            phase: Phase {
                year: 1901,
                season: Season::SpringMoves,
            },
            intent: false,
        })
    }

    /// A board equal to this one.
    pub fn copy(&self, alloc: Global) -> Result<Board, AllocError>
        ensures { IfOk result (λ b. b ≡ self.now) }
    {
        let units = self.units.as_slice().to_vec(alloc)?;
        let dislodged = self.dislodged.as_slice().to_vec(alloc)?;
        let standoff = self.standoff.as_slice().to_vec(alloc)?;
        let owners = self.owners.as_slice().to_vec(alloc)?;
        Ok(Board {
            units,
            dislodged,
            standoff,
            owners,
            phase: self.phase,
            intent: self.intent,
        })
    }

    /// The standing units, in no order that is told.
    pub fn units(&self) -> &[Unit]
        ensures { result.now ≡ self.now.units }
    {
        self.units.as_slice()
    }

    /// The dislodged units. They have to retreat or disband, and aren't among `units`.
    pub fn dislodged(&self) -> &[Dislodged]
        ensures { result.now ≡ self.now.dislodged }
    {
        self.dislodged.as_slice()
    }

    /// The provinces that a standoff left closed to retreats.
    pub fn standoff(&self) -> &[Prov]
        ensures { result.now ≡ self.now.standoff }
    {
        self.standoff.as_slice()
    }

    /// The owner of each province, by its number; none where nobody owns it.
    pub fn owners(&self) -> &[Option<Power>]
        ensures { result.now ≡ self.now.owners }
    {
        self.owners.as_slice()
    }

    /// The phase to be played. A game that is over keeps its last one.
    pub fn phase(&self) -> Phase
        ensures { result ≡ self.now.phase }
    {
        self.phase
    }

    /// The option INTENT: whether an army's move between two coastal provinces goes by convoy also where a fleet of its own power in a sea
    /// is ordered to convoy that very move. A game's master chooses it, and no phase changes it.
    pub fn intent(&self) -> bool
        ensures { result ≡ self.now.intent }
    {
        self.intent
    }
}

/// Whether a province is a home centre of the power.
fn is_home(realm: &Realm, p: Prov) -> bool
    ensures { result ≡ list_any (λ x. x == p) realm.now.home }
{
    realm.home.as_slice().contains(&p)
}

/// The number of the power whose home centre the province is.
fn owner_index(realms: &[Realm], p: Prov) -> Option<usize>
    ensures { result ≡ position (λ r. list_any (λ x. x == p) r.home) realms.now }
{
    realms.iter().position(|realm| is_home(realm, p))
}

/// The power that owns a province at the opening: the one whose home centre it is.
fn owner_of(map: &Map, p: Prov) -> Option<Power>
    ensures { result ≡ owner_at map.now p }
{
    map.facts();
    match owner_index(map.realms(), p) {
        Some(index) => Some(Power::new(index as u8)),
        None => None,
    }
}

/// The owners of all provinces at the opening.
fn owners_of(alloc: Global, map: &Map) -> Result<Vec<Option<Power>>, AllocError>
    ensures { IfOk result (λ v. v.items ≡ each (owner_at map.now) (provs map.now)) }
{
    let mut owners = Vec::new(alloc);
    for prov in map.each_province() {
        owners.push(owner_of(map, prov))?;
    }
    Ok(owners)
}

/// The units of all powers at the opening.
fn opening_units_of(alloc: Global, map: &Map) -> Result<Vec<Unit>, AllocError>
    ensures { IfOk result (λ v. v.items ≡ opening_units map.now) }
{
    let mut units = Vec::new(alloc);
    for realm in map.realms() {
        units.extend_from_slice(realm.units.as_slice())?;
    }
    Ok(units)
}
