//! What all speak of: provinces, powers, places and units by their numbers, the forms of codes and names, and the faults of maps.
#![tactic(auto)]

mod faults;
mod forms;
mod names;

pub use faults::MapFault;
pub use forms::{is_coast_name, is_code, is_full_name, is_power_name};
pub use names::{Kind, Place, Power, Prov, Terrain, Unit};
