//! Why the words ask for nothing.
ghost use Rattle.std.specs.Prelude.{◌≡◌};
ghost use Rattle.dip_judge_words.specs.UsageFaults.{fault_from};
ghost use Rattle.dip_judge_words.specs.declared.faults.UsageFault.TheVariants.{Memory};

use clap::Error;
use clap::error::ErrorKind;
use std::alloc::AllocError;
use std::fmt;

/// Why no command can be run by these arguments.
#[derive(Drop)]
pub enum UsageFault {
    /// `clap` refuses the words, or help was asked for; its text says which.
    Clap(Error),
    /// `clap` takes the words, but the master's secret is none, the port or the count is no such number, or the letters are to be
    /// taken over a store and in memory, or over neither.
    Check,
    /// Memory ran out.
    Memory,
}

impl fmt::Display for UsageFault {
    ghost use Rattle.dip_judge_words.specs.UsageFaults.{usage_text};

    ghost output = { λ fault. usage_text fault };

    fn fmt<W: fmt::Write>(&self, f: &mut fmt::Formatter<W>) -> fmt::Result {
        match self {
            UsageFault::Clap(error) => write!(f, "{error}"),
            UsageFault::Check => f.write_str("Usage"),
            UsageFault::Memory => f.write_str("Memory"),
        }
    }
}

impl From<Error> for UsageFault {
    ghost from_gives = { λ e f. f ≡ fault_from e };

    fn from(error: Error) -> UsageFault {
        match error.kind() {
            ErrorKind::OutOfMemory => UsageFault::Memory,
            _ => UsageFault::Clap(error),
        }
    }
}

impl From<AllocError> for UsageFault {
    ghost from_gives = { λ _ f. f ≡ Memory };

    fn from(_error: AllocError) -> UsageFault {
        UsageFault::Memory
    }
}
