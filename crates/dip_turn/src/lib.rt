//! Phases: a movement, retreats, builds and removals adjudicated, and what follows.
#![tactic(auto)]

mod laws;
mod playing;

pub use dip_orders::{allowance, retreats};
pub use dip_turn_phases::{
    Account, Adjustment, CentreLine, Course, Fate, Movement, MovementLine, Outcome, Report,
    RetreatLine, Waiver, distance_home, first_to_go, refuge,
};
pub use laws::{
    boards_stay_of_their_map, centres_change_in_fall, only_retreats_have_dislodged, phases_follow,
    phases_have_one_result, phases_keep_the_intent, retreats_are_open, units_are_kept,
    units_stand_apart, winners_own_more, winters_even_units,
};
pub use playing::advance;
