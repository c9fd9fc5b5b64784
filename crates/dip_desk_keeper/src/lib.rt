//! What keeps the desk's state, however it is kept, and a game's papers written out in their order, over any keeper. Neither a store nor
//! a machine is named here.
#![tactic(auto)]

mod archive;
mod keeper;
mod paper_faults;

pub use archive::write_papers;
pub use dip_desk_state::{Author, Change, Desk, Effect, KeepFault, NewSeat};
pub use keeper::Keeper;
pub use paper_faults::PaperFault;
