//! The orders of a movement as they are meant, made into a table: where units go, what they support and convoy, and which of that
//! matches.
#![tactic(auto)]

mod counts;
mod held;
mod keys;
mod lists;
mod matching;
mod meaning;
mod placed;
mod room;
mod table;

pub use held::ByKey;
pub use lists::{copy_of, is_in, write_over};
pub use matching::{backed_by, carried_of, is_convoyed_of, target_of};
pub use meaning::{orders_as_meant, table_on};
pub use placed::Table;
pub use room::Room;
