//! The lines of explanations: of a decision of a movement, of retreats, and of a Winter.
#![tactic(auto)]

mod lines;
mod retreating;
mod winter;

pub use lines::push_decision;
pub use retreating::push_retreats;
pub use winter::push_winter;
