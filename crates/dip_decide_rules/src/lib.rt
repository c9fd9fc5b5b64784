//! What a movement is decided from: decisions and their values, chains of fleets, and both corners of what is not yet known.
#![tactic(auto)]

mod chains;
mod corners;
mod decisions;
mod forcing;
mod mentioning;
pub mod placed;
mod values;

pub use corners::Corner;
pub use decisions::{Decision, Resolution, Step};
pub use dip_decide_table::{Room, copy_of, is_in};
pub use forcing::{Tests, forced_on, forced_value};
pub use mentioning::mentions;
pub use placed::Table;
pub use values::{Values, Values as Known, all_false, value_at};
