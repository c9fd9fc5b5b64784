//! The words of the command line: what they ask the program to do, or why they ask for nothing.
#![tactic(auto)]

mod args;
mod commands;
mod faults;
mod numbers;
mod options;
mod reading;
mod values;
mod version;

pub use args::Args;
pub use faults::UsageFault;
pub use reading::read_args;
pub use version::VERSION;
