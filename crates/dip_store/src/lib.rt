//! A keeper over an SQL store: the desk's ten tables in one database, each change one transaction, and a game's papers written out.
#![tactic(auto)]

mod archive;
mod authors;
mod faults;
mod keeper;
mod laws;
mod making;
mod opening;
mod papers;
mod shared;
mod whole;

pub use dip_store_schema::StoreFault;
pub use keeper::SqlKeeper;
