//! What is known, read and counted before a change is made.
#![tactic(auto)]

mod counts;
mod known;
mod papers;
mod readers;

pub use counts::{Counted, count};
pub use known::{AuthorRow, KnownAuthor, KnownBefore, is_unordered, row_known};
pub use readers::Reader;
