//! What a keeper remembers of games and seats, so that it needn't read their rows again. Of rows nothing is known here.
#![tactic(auto)]

mod boards;
mod idle;
mod owns;
mod seen;

pub use idle::IdleSeats;
pub use owns::{SeenOwns, own_in};
pub use seen::SeenGames;
