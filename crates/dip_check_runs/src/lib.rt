//! Runs over a game's papers, from any reader to any writer: they are checked, or one of them is explained. They need no store, no secret
//! and no desk, and hold one paper and one board in memory at a time.
#![tactic(auto)]

mod checking;
mod explaining;
mod input;
mod papers;
mod saying;
mod texts;

pub use checking::check_papers;
pub use explaining::explain_paper;
pub use input::MOST_PAPER;
