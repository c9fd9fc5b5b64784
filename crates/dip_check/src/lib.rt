//! A game's papers, checked: each is made again from the paper before it and from what it prints, and compared byte for byte. It knows
//! no store, no secret, and not the judge that wrote them.
#![tactic(auto)]

mod checking;
mod games;
mod phases;

pub use checking::check_paper;
pub use games::check_papers;
pub use phases::phase_of;
