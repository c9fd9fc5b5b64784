//! The program over what the system hands it.
ghost use Rattle.std.specs.Prelude.{◌≡◌, ◌≤◌};
ghost use Rattle.dip_judge_system.specs.Failures as failures;

use crate::asked::run_as_asked;
use dip_judge_system::{Failure, System, status_of};
use sqlite::Unknown;
use std::{env, io};

/// Does what the words ask for, over standard input and output.
fn answer_the_system(rt: &HostRuntime) -> Result<(), Failure> {
    let alloc = rt.alloc();
    let words = env::args(rt)?.collect::<Vec<String>>(alloc)?;
    let texts = words
        .iter()
        .map(|word| word.as_str())
        .collect::<Vec<&str>>(alloc)?;
    let mut reader = rt.reader();
    let mut writer = io::writer(rt);
    let system = System::new(rt);
    run_as_asked(&system, Unknown, texts.as_slice(), &mut reader, &mut writer)
}

/// The exit status of a run; its failure is told on standard error.
fn exit_status(rt: &HostRuntime, outcome: &Result<(), Failure>) -> u8
    ensures status { result ≡ failures.exit_status outcome.now }
    ensures most { result ≤ 5 }
{
    if let Err(failure) = outcome {
        let _ = rt.eprint(failure);
    }
    status_of(outcome)
}

/// The whole program: does what its words ask for, tells a failure on standard error, and gives the exit status, from 0 to 5.
pub fn run_program(rt: &HostRuntime) -> u8
    ensures { result ≤ 5 }
{
    exit_status(rt, &answer_the_system(rt))
}
