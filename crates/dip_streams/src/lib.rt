//! Readers and writers: a call that a signal interrupts is made again, texts are written whole or in
//! part, and bodies read whole.
#![tactic(auto)]

mod reading;
mod streams;

pub use reading::{ReadFault, read_body, read_more};
pub use streams::{MOST_TRIES, read_some, write_text, write_texts};
