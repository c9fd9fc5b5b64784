//! What each phase makes of a board, and what is told of it: a movement, where units stand and what became of each order; retreats;
//! Winters; centres; and the phase that follows. Nothing here decides a movement.
#![tactic(auto)]

mod adjusting;
mod centres;
mod disorder;
mod laws;
mod lines;
mod moving;
mod orders;
mod outcomes;
mod phases;
mod report;
mod retreating;
mod standoffs;

pub use adjusting::{
    after_adjustment, disorder as units_in_disorder, units_built, units_given, waivers,
};
pub use centres::centre_lines;
pub use disorder::{distance_home, first_to_go};
pub use laws::{movements_are_told, movements_keep_units};
pub use lines::{CentreLine, Course, Fate, MovementLine, Outcome, RetreatLine, Waiver};
pub use moving::{moved_board, without_destroyed};
pub use outcomes::movement_lines;
pub use phases::follow;
pub use report::{Account, Adjustment, Movement, Report};
pub use retreating::{after_retreats, refuge, retreat_lines};
