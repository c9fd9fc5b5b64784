//! A keeper of the desk's state in memory.
#![tactic(auto)]

mod copying;
mod games;
mod memory;
mod opening;
mod recording;

pub use memory::MemoryKeeper;
