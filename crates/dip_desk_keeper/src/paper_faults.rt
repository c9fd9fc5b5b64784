//! Why papers aren't written out.
ghost use Rattle.std.specs.Prelude.{◌≡◌};
ghost use Rattle.dip_desk_keeper.specs.Papers.{paper_fault_name};

use dip_desk_state::KeepFault;
use std::error::Error;
use std::fmt;

/// Why a game's papers weren't all written out. Papers before the fault may be out; what is kept hasn't changed.
#[derive(Clone, Copy, Debug, PartialEq, Eq)]
pub enum PaperFault {
    /// The writer failed, otherwise than by a signal that interrupts it.
    Write,
    /// The keeper gave no answer.
    Keep(KeepFault),
}

impl PaperFault {
    /// The fault's name, as a program tells it: a keeper's fault has its own.
    pub fn name(self) -> &'static str
        ensures { result.now ≡ paper_fault_name self }
    {
        match self {
            PaperFault::Write => "Write",
            PaperFault::Keep(fault) => fault.name(),
        }
    }
}

impl fmt::Display for PaperFault {
    ghost use Rattle.std.specs.Prelude.{Some};

    ghost output = { λ fault. Some (paper_fault_name fault) };

    fn fmt<W: fmt::Write>(&self, f: &mut fmt::Formatter<W>) -> fmt::Result {
        f.write_str(self.name())
    }
}

impl Error for PaperFault {}

impl From<KeepFault> for PaperFault {
    ghost use Rattle.dip_desk_keeper.specs.declared.paper_faults.PaperFault.TheVariants.{Keep};

    ghost from_gives = { λ fault told. told ≡ Keep fault };

    fn from(fault: KeepFault) -> PaperFault {
        PaperFault::Keep(fault)
    }
}
