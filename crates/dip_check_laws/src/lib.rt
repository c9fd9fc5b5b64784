//! Laws of what is published and reported: `check` finds right what `report` prints, whatever letters the desk answered before it.
#![tactic(auto)]

mod laws;

pub use laws::{
    fresh_desks_have_no_wrong_game, games_stay_right, reports_are_right, reports_stay_right,
    right_movements_are_decided, runs_keep_games_right, what_is_published_is_right,
};
