//! Order lines: what each of them says before it is held against a board.
#![tactic(auto)]

mod forms;
mod laws;
mod parts;
mod reading;
mod words;

pub use forms::{Form, Mention, Spot};
pub use laws::forms_are_read;
pub use reading::form_of_line;
pub use words::{TokenList, tokens};
