//! What a map is made of: provinces and powers, where units go, the checks that its parts have to pass, and the distances to home centres.
#![tactic(auto)]

mod checks;
mod distances;
mod entries;
mod parts;
mod search;

pub use distances::Distances;
pub use entries::are_units_single;
pub use parts::{Parts, Province, Realm, Shore};
pub use search::{distance_at, least_distances};
