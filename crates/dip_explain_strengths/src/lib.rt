//! Strengths in a player's words: a number, the units that it counts, and those that it leaves out.
#![tactic(auto)]

mod cases;
mod lists;
mod strengths;

pub use cases::Case;
pub use lists::{push_order, push_orders};
