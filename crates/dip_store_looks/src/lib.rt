//! What a desk is asked of its tables, read by a map.
#![tactic(auto)]

mod board;
mod columns;
mod desk;
mod inbox;
mod letters;
mod own;
mod papers;
mod public;
mod whole;

pub use desk::look_desk;
pub use inbox::look_items;
pub use own::{look_digest, look_own};
pub use papers::look_paper;
pub use public::look_public;
pub use whole::look_whole;
