//! Movement: which moves succeed, which supports are given and which convoys stand, with the steps that explain it.
#![tactic(auto)]

mod circles;
mod laws;
mod resolving;
mod starting;
mod testing;
mod turns;
mod waking;
mod working;
mod worklist;

pub use dip_decide_rules::{Decision, Known, Resolution, Step, Tests};
pub use dip_decide_table::orders_as_meant;
pub use laws::{
    boards_are_situations, chains_are_found, corners_decide, equations_are_lawful,
    explained_is_lawful, knots_are_found, one_answer, orders_are_meant, steps_commute,
};
pub use resolving::resolve;
pub use testing::{forced_value, known_at_first};
