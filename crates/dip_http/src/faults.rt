//! Why a connection ends early.
ghost use Rattle.std.specs.Prelude.{◌≡◌};
ghost use Rattle.dip_http.specs.Faults.{http_name};

use dip_desk_state::KeepFault;
use std::error::Error;
use std::fmt;

/// Why a connection ended by a fault. Each case says what was written by then, and whether a letter
/// was taken.
#[derive(Clone, Copy, Debug, PartialEq, Eq)]
pub enum HttpFault {
    /// The reader failed; nothing was written, and no letter was taken.
    Read,
    /// The writer failed; a letter that was taken stays taken.
    Write,
    /// Memory ran out; nothing was written, and no letter was taken.
    Memory,
    /// The keeper gave no answer, and no letter was taken; a 503 was written, or a beginning of it.
    Keep(KeepFault),
}

impl HttpFault {
    /// The fault's name, as the program tells it: a keeper's fault has its own.
    pub fn name(self) -> &'static str
        ensures { result.now ≡ http_name self }
    {
        match self {
            HttpFault::Read => "Read",
            HttpFault::Write => "Write",
            HttpFault::Memory => "Memory",
            HttpFault::Keep(fault) => fault.name(),
        }
    }
}

impl fmt::Display for HttpFault {
    ghost use Rattle.std.specs.Prelude.{Some};

    ghost output = { λ fault. Some (http_name fault) };

    fn fmt<W: fmt::Write>(&self, f: &mut fmt::Formatter<W>) -> fmt::Result {
        f.write_str(self.name())
    }
}

impl Error for HttpFault {}
