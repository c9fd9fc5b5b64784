//! What a command may do of the system, and how its failure is told: files opened, a port, the clock, the version written, exit statuses.
//! No keeper over a store is named here.
#![tactic(auto)]

mod failures;
mod system;
mod version;

pub use failures::{Failure, status_of};
pub use system::{Stored, System};
pub use version::write_version;
