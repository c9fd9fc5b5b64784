//! The map, checked and looked up; and the board of a game: what stands where, what was dislodged, who owns what, and
//! the phase.
#![tactic(auto)]

mod board_laws;
mod boards;
mod charts;
mod checks;
mod iterators;
mod questions;

pub use board_laws::openings_are_of_their_map;
pub use boards::{Board, Dislodged, Phase, Season};
pub use charts::Map;
pub use dip_names::{Kind, MapFault, Place, Power, Prov, Terrain, Unit};
pub use iterators::{Powers, Provs};
