//! The papers of phases that were adjudicated: each is a function of the report and of the public part after it.
#![tactic(auto)]

mod laws;
mod lines;
mod papers;
mod telling;

pub use laws::{orders_are_told, papers_hold_no_steps};
pub use lines::{PaperLine, Told};
pub use papers::paper_text;
