//! Lines and words of a letter's text, and the numbers that its words write.
#![tactic(auto)]

mod lines;
mod words;

pub use lines::{after, line_of, word_of};
pub use words::{
    is_due, is_game, is_name, is_number, is_order_line, is_secret, is_small_number, is_text,
    value_of,
};
