//! What a request over HTTP asks for, and how an answer is written. No desk is asked here.
#![tactic(auto)]

mod fields;
mod front;
mod numbers;
mod plans;
mod refusals;
mod size;
mod state;
mod table;
mod target;
mod writing;

pub use front::{Asked, Front, MOST_FIELDS, MOST_HEAD, RequestFront, front_of};
pub use numbers::number_of;
pub use plans::{Plan, is_quiet, plan_of};
pub use refusals::HttpRefusal;
pub use size::{MOST_BODY, Size};
pub use state::state_text;
pub use table::Routes;
pub use writing::{Answer, Unwritten, write_answer};
