//! What becomes of a game, whoever asks: when its phase is due and what that leaves, the orders that are handed over to it, notices, draws agreed on, and what may be decided of a letter.
#![tactic(auto)]

mod among;
mod drawing;
mod noting;
mod ordering;
mod seat_orders;
mod ticking;
mod verdicts;

pub use among::is_among;
pub use drawing::{drawn_between, survives};
pub use noting::public_noted;
pub use ordering::{put_order, standing_orders};
pub use seat_orders::{orders_of, orders_of_power};
pub use ticking::{is_due, is_over, public_played};
pub use verdicts::{Verdict, refusal_verdict};
