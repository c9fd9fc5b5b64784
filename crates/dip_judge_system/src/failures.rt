//! Why the program ends early: its exit status, and what it prints on standard error.
ghost use Rattle.std.specs.Prelude.{◌≡◌, ◌≤◌};
ghost use Rattle.dip_judge_words.specs.declared.faults.UsageFault.TheVariants.{Memory as no_words};
ghost use Rattle.dip_judge_system.specs.Failures.{exit_status, status_of, words_fault};
ghost use Rattle.dip_judge_system.specs.declared.failures.Failure.TheVariants.{Usage};
ghost use Rattle.std.specs.IoError.{error_kind};

use dip_check_papers::CheckFault;
use dip_desk_keeper::PaperFault;
use dip_desk_state::KeepFault;
use dip_judge_runs::{NoMap, RunFault};
use dip_judge_words::UsageFault;
use dip_store_schema::StoreFault;
use std::alloc::AllocError;
use std::{fmt, io};

/// Why the program ends early.
///
/// It is printed as `dip_judge: `, its number or name and LF; where `clap` refuses the words or help was asked for, as
/// `clap` has it. Where standard output says why the answer is no, nothing is printed so.
#[derive(Drop)]
pub enum Failure {
    /// The arguments ask for nothing.
    Usage(UsageFault),
    /// The map's file can't be read, or its text says no map.
    Map(NoMap),
    /// The store isn't opened, or no desk is made in it.
    Store(StoreFault),
    /// Memory ran out for the routes of HTTP, before anybody was served.
    NoMemory,
    /// The port can't be listened on.
    Listen,
    /// The run over the letters ended early.
    Run(RunFault),
    /// The keeper failed while clients were served.
    Serving(KeepFault),
    /// The store has no game of that name.
    NoGame,
    /// A game's papers weren't all written out.
    Papers(PaperFault),
    /// The papers weren't checked, or none was explained, to the end.
    Checking(CheckFault),
    /// The papers aren't right, or there is no explanation; standard output says why.
    Negative,
}

impl Failure {
    /// The exit status: 1 where the answer is no, 2 for the arguments, 3 for the map, 4 for the store, its keeper and a game that isn't there, 5 for a map's
    /// file, the port, input, output or other want of memory.
    pub fn status(&self) -> u8
        ensures status { result ≡ status_of self.now }
        ensures most { result ≤ 5 }
    {
        match self {
            Failure::Usage(UsageFault::Memory) => 5,
            Failure::Usage(_) => 2,
            Failure::Map(NoMap::File(_)) => 5,
            Failure::Map(NoMap::Map(_)) => 3,
            Failure::Store(_) => 4,
            Failure::NoMemory => 5,
            Failure::Listen => 5,
            Failure::Run(RunFault::Keep(_)) => 4,
            Failure::Run(_) => 5,
            Failure::Serving(_) => 4,
            Failure::NoGame => 4,
            Failure::Papers(PaperFault::Keep(_)) => 4,
            Failure::Papers(PaperFault::Write) => 5,
            Failure::Checking(_) => 5,
            Failure::Negative => 1,
        }
    }
}

/// The exit status of a run of the program: 0 where it did what was asked.
pub fn status_of(outcome: &Result<(), Failure>) -> u8
    ensures status { result ≡ exit_status outcome.now }
    ensures most { result ≤ 5 }
{
    match outcome {
        Ok(()) => 0,
        Err(failure) => failure.status(),
    }
}

impl fmt::Display for Failure {
    ghost use Rattle.dip_judge_system.specs.Failures.{printed};

    ghost output = { λ f. printed f };

    fn fmt<W: fmt::Write>(&self, f: &mut fmt::Formatter<W>) -> fmt::Result {
        match self {
            Failure::Usage(UsageFault::Clap(error)) => write!(f, "{error}"),
            Failure::Usage(UsageFault::Check) => f.write_str("dip_judge: Usage\n"),
            Failure::Usage(UsageFault::Memory) => f.write_str("dip_judge: Memory\n"),
            Failure::Map(fault) => write!(f, "dip_judge: {fault}\n"),
            Failure::Store(fault) => write!(f, "dip_judge: {fault}\n"),
            Failure::NoMemory => f.write_str("dip_judge: Memory\n"),
            Failure::Listen => f.write_str("dip_judge: Listen\n"),
            Failure::Run(fault) => write!(f, "dip_judge: {fault}\n"),
            Failure::Serving(fault) => write!(f, "dip_judge: {fault}\n"),
            Failure::NoGame => f.write_str("dip_judge: no such game\n"),
            Failure::Papers(fault) => write!(f, "dip_judge: {fault}\n"),
            Failure::Checking(fault) => write!(f, "dip_judge: {fault}\n"),
            Failure::Negative => Ok(()),
        }
    }
}

impl From<AllocError> for Failure {
    ghost from_gives = { λ _ f. f ≡ Usage no_words };

    fn from(_error: AllocError) -> Failure {
        Failure::Usage(UsageFault::Memory)
    }
}

/// The arguments can't be had: one is no text, or memory ran out.
impl From<io::Error> for Failure {
    ghost from_gives = { λ error f. f ≡ Usage (words_fault (error_kind error)) };

    fn from(error: io::Error) -> Failure {
        match error.kind() {
            io::ErrorKind::OutOfMemory => Failure::Usage(UsageFault::Memory),
            _ => Failure::Usage(UsageFault::Check),
        }
    }
}
