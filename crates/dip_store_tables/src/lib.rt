//! The tables of a desk as lists of records: what they say by a map, what a change makes of them, a board in rows of codes and names, and
//! columns read back. It knows no database.
#![tactic(auto)]

mod board_columns;
mod board_laws;
mod board_reading;
mod centres;
mod cuts;
mod items;
mod last_letters;
mod legible_laws;
mod legible_texts;
mod statuses;
mod table_laws;
mod units;
mod votes;
mod widths;
mod writable;
mod writable_effects;
mod writable_parts;
mod writable_texts;

pub use board_columns::{CentreColumns, UnitColumns};
pub use board_laws::boards_come_back;
pub use board_reading::read_board;
pub use items::{ItemColumns, read_item};
pub use last_letters::read_kept;
pub use legible_laws::{new_tables_are_legible, tables_stay_legible};
pub use legible_texts::has_texts;
pub use statuses::read_status;
pub use table_laws::{
    new_tables_are_new, old_tables_are_renewed, own_is_found, page_is_found, paper_is_found,
    press_is_delivered_one_by_one, public_is_found, state_is_changed, tables_stay_coded,
    tables_stay_counted, tables_stay_written,
};
pub use votes::{ballot_text, read_vote};
pub use widths::has_widths;
pub use writable::is_writable;
