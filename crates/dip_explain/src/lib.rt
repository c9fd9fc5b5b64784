//! Why a phase came out as it did, in a player's words.
#![tactic(auto)]

mod movement;
mod phases;

pub use phases::explain_phase;
