//! The table of a movement, by the name under which definitions above know it.
pub use dip_decide_table::Table;
