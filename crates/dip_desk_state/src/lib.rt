//! What a desk keeps and what a change of it is: the records of a game, the faults of a keeper, the state of all games, and the most
//! that is counted of a game. Nothing is decided of a letter here.
#![tactic(auto)]

mod bounds;
mod changes;
mod faults;
mod records;
mod replies;
mod statuses;

pub use bounds::{MOST_ITEMS, MOST_PAPERS, MOST_SENT, bounds_are_named};
pub use changes::{Author, Change, Desk, Effect, NewSeat};
pub use faults::KeepFault;
pub use records::{
    Head, Item, Kept, Outcome, Own, Public, Reply, Standing, Status, Vote, Whole, copy_powers,
    copy_standings,
};
pub use replies::{reply_pieces, reply_text};
pub use statuses::{push_powers, push_status};
