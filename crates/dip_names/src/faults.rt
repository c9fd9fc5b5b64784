//! Why there is no map.
ghost use Rattle.std.specs.Prelude.{◌≡◌};
ghost use Rattle.dip_names.specs.Faults.{fault_name};

use std::alloc::{AllocError, AllocFailed};
use std::error::Error;
use std::fmt;

/// Why a map's file says no map, by the numbers `M1` to `M7`.
#[derive(Clone, Copy, PartialEq, Eq, Debug)]
pub enum MapFault {
    /// The text isn't TOML.
    NotToml,
    /// A field is missing, isn't known, or is of the wrong type or form.
    WrongField,
    /// A code or coast that isn't defined or not allowed where it stands: an army by a sea, a fleet inland, a coast that is missing, a
    /// home that is no centre, a province as its own neighbour.
    UnknownName,
    /// A neighbour whose list doesn't name it back.
    NotSymmetric,
    /// A full name, or an entry of a list, that stands twice; a home centre of two powers; two opening units in one province.
    DoubledName,
    /// No power or more than 7, no province or more than 200.
    OverLimit,
    /// Memory ran out.
    Memory,
}

impl MapFault {
    /// Its number, as it is told: `M1` to `M7`.
    pub fn name(self) -> &'static str
        ensures { result.now ≡ fault_name self }
    {
        match self {
            MapFault::NotToml => "M1",
            MapFault::WrongField => "M2",
            MapFault::UnknownName => "M3",
            MapFault::NotSymmetric => "M4",
            MapFault::DoubledName => "M5",
            MapFault::OverLimit => "M6",
            MapFault::Memory => "M7",
        }
    }
}

impl fmt::Display for MapFault {
    ghost use Rattle.std.specs.Prelude.{Some};
    ghost use Rattle.dip_names.specs.Faults.{fault_text};

    ghost output = { λ fault. Some (fault_text fault) };

    #[tactic(auto, unfolding(crate::specs::Faults::fault_text))]
    fn fmt<W: fmt::Write>(&self, f: &mut fmt::Formatter<W>) -> fmt::Result {
        match self {
            MapFault::NotToml => write!(f, "M1 not TOML"),
            MapFault::WrongField => write!(f, "M2 missing or wrong field"),
            MapFault::UnknownName => write!(f, "M3 unknown name"),
            MapFault::NotSymmetric => write!(f, "M4 neighbour not symmetric"),
            MapFault::DoubledName => write!(f, "M5 doubled name"),
            MapFault::OverLimit => write!(f, "M6 over a limit"),
            MapFault::Memory => write!(f, "M7 memory"),
        }
    }
}

impl Error for MapFault {}

impl From<AllocError> for MapFault {
    ghost use Rattle.dip_names.specs.declared.faults.MapFault.TheVariants.{Memory};

    ghost from_gives = { λ _ fault. fault ≡ Memory };

    fn from(_: AllocError) -> MapFault {
        MapFault::Memory
    }
}

impl<T: Drop> From<AllocFailed<T>> for MapFault {
    ghost use Rattle.dip_names.specs.declared.faults.MapFault.TheVariants.{Memory};

    ghost from_gives = { λ _ fault. fault ≡ Memory };

    fn from(_: AllocFailed<T>) -> MapFault {
        MapFault::Memory
    }
}
