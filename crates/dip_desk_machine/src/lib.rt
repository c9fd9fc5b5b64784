//! The desk machine: what each command of a player and of the master comes to in its game, what is decided of a letter by what its
//! author sees, and what that leaves. It knows no keeper.
#![tactic(auto)]

mod creating;
mod deciding;
mod digests;
mod drawing;
mod laws;
mod mastering;
mod noting;
mod numbers;
mod ordering;
mod pressing;
mod replacing;
mod ticking;
mod voting;

pub use deciding::seat_verdict;
pub use digests::digest_of;
pub use dip_desk_games::Verdict;
pub use laws::{
    answered_from_what_is_seen, draws_are_agreed, effects_are_shown, effects_fit,
    histories_are_one, lawful_states_stay_lawful, new_desks_are_lawful,
    published_movements_are_decided, settled_by_view, standing_orders_are_given,
    titles_tell_what_was_played,
};
pub use mastering::{
    decide_create, decide_notice, decide_power_command, decide_replace, decide_tick,
};
