//! Laws of the desk machine that no crate stands on: what the letters of others show a seat, and what letters leave.
#![tactic(auto)]

mod laws;

pub use laws::{
    games_keep_their_intent, letters_act_once, masters_replies_are_alike, orders_stand_as_given,
    replies_to_nobody, shown_by_others, third_seats_see_alike, votes_are_untold,
};
