//! Why papers aren't checked or explained to the end.
use std::error::Error;
use std::fmt;

/// Why papers aren't checked or explained to the end.
#[derive(Clone, Copy, Debug, PartialEq, Eq)]
pub enum CheckFault {
    /// The reader failed, otherwise than by a signal that interrupts it.
    Read,
    /// A paper has more bytes than a check reads of one.
    TooLong,
    /// The writer failed, otherwise than by a signal that interrupts it.
    Write,
    /// Memory ran out.
    Memory,
}

impl fmt::Display for CheckFault {
    ghost use Rattle.dip_check_papers.specs.Faults.{check_fault_name};
    ghost use Rattle.std.specs.Prelude.{Some};

    ghost output = { λ fault. Some (check_fault_name fault) };

    fn fmt<W: fmt::Write>(&self, f: &mut fmt::Formatter<W>) -> fmt::Result {
        f.write_str(match self {
            CheckFault::Read => "Read",
            CheckFault::TooLong => "TooLong",
            CheckFault::Write => "Write",
            CheckFault::Memory => "Memory",
        })
    }
}

impl Error for CheckFault {}
