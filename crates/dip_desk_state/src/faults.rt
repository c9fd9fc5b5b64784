//! Why a letter isn't answered.
ghost use Rattle.std.specs.Prelude.{◌≡◌};
ghost use Rattle.dip_desk_state.specs.Faults.{keep_fault_name};

use std::alloc::{AllocError, AllocFailed};
use std::error::Error;
use std::fmt;

/// Why a keeper doesn't answer. Nothing has changed.
#[derive(Clone, Copy, PartialEq, Eq, Debug)]
pub enum KeepFault {
    /// Memory ran out.
    Memory,
    /// A fault of the disk, or want of room on it.
    Disk,
    /// What is kept is no record of the desk.
    Damaged,
}

impl KeepFault {
    /// The fault's name, as a program tells it.
    pub fn name(self) -> &'static str
        ensures { result.now ≡ keep_fault_name self }
    {
        match self {
            KeepFault::Memory => "Memory",
            KeepFault::Disk => "Disk",
            KeepFault::Damaged => "Damaged",
        }
    }
}

impl fmt::Display for KeepFault {
    ghost use Rattle.std.specs.Prelude.{Some};

    ghost output = { λ fault. Some (keep_fault_name fault) };

    fn fmt<W: fmt::Write>(&self, f: &mut fmt::Formatter<W>) -> fmt::Result {
        f.write_str(self.name())
    }
}

impl Error for KeepFault {}

impl From<AllocError> for KeepFault {
    ghost use Rattle.dip_desk_state.specs.declared.faults.KeepFault.TheVariants.{Memory};

    ghost from_gives = { λ _ fault. fault ≡ Memory };

    fn from(_error: AllocError) -> KeepFault {
        KeepFault::Memory
    }
}

impl<T: Drop> From<AllocFailed<T>> for KeepFault {
    ghost use Rattle.dip_desk_state.specs.declared.faults.KeepFault.TheVariants.{Memory};

    ghost from_gives = { λ _ fault. fault ≡ Memory };

    fn from(_error: AllocFailed<T>) -> KeepFault {
        KeepFault::Memory
    }
}
