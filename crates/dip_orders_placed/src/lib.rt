//! Orders as a board has them: one in force for each unit that stands, where a dislodged unit may go, and how many units a power may build.
//! They are neither read nor printed here.
#![tactic(auto)]

mod allowances;
mod placed;
mod retreating;
mod standing;

pub use allowances::{allowance, builds_due, removals_due, vacant_homes};
pub use placed::{Order, Other, PlacedOrder};
pub use retreating::{is_open, next_places, retreats};
pub use standing::{Orders, is_same_unit};
