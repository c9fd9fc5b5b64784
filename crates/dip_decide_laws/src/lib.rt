//! Laws of movement in a player's words: of units, provinces, powers, their orders as they are meant, and what came of them.
#![tactic(auto)]

mod laws;

pub use laws::{
    dislodged_by_others_alone, dislodged_fleets_carry_nobody, dislodged_give_no_support,
    enterers_are_strongest, explained_is_decided, losers_prevent_nobody, no_power_cuts_its_own,
    own_fleets_carry, pathless_changes_nothing, strongest_enter, units_without_moves_stay,
    unmatched_changes_nothing,
};
