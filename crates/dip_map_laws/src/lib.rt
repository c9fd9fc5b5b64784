//! Laws of maps and of their files, on which no crate stands. Its functions do nothing.
#![tactic(auto)]

mod laws;

pub use laws::{
    maps_are_parts_without_a_fault, maps_are_spelled_by_their_files, maps_are_told_by_their_files,
};
