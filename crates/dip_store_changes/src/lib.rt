//! The parts of a change, one after the other in a transaction: the rows that it writes of boards, orders, seats, ballots and items.
#![tactic(auto)]

mod authors;
mod ballots;
mod boards;
mod delivering;
mod games;
mod items;
mod orders;
mod parts;
mod seats;
mod texts;

pub use delivering::readers_are_seats;
pub use parts::make_parts;
