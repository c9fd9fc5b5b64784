//! The map that a text states, and the text of the standard map.
#![tactic(auto)]

mod standard;
mod stated;

pub use standard::STANDARD;
pub use stated::map_from_toml;
