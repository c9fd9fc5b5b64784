//! What a game's papers print: a text is read, made again from the paper before it and from what it prints, and compared byte for byte.
#![tactic(auto)]

mod announcing;
mod differences;
mod drawing;
mod faults;
mod given;
mod laws;
mod lines;
mod notices;
mod openings;
mod parts;
mod printed;
mod progress;
mod same;
mod ticks;
mod titles;
mod verdict;
mod words;

pub use differences::{fault_at, first_difference, other_line};
pub use drawing::check_draw;
pub use faults::CheckFault;
pub use given::are_given;
pub use laws::{
    movements_are_read_back, other_orders_are_read_back, papers_are_lines, papers_have_one_answer,
};
pub use notices::check_notice;
pub use openings::check_opening;
pub use printed::{Printed, orders_printed};
pub use progress::Progress;
pub use ticks::{LAST_TICK, tick_told};
pub use titles::{first_line, phase_title, title_of};
pub use verdict::{Fault, Papers, Verdict, Wanted};
