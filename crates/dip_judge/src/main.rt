//! The judge: what it does for each command, over memory or a store, and `main`.
#![tactic(auto)]

mod asked;
mod checking;
mod files;
mod program;
mod stored;

use crate::program::run_program;
pub use asked::{do_as_asked, run_as_asked};
use std::process::ExitCode;
pub use stored::{answer_stored, make_desk, report_stored};

fn main(rt: HostRuntime) -> ExitCode {
    ExitCode::from(run_program(&rt))
}
