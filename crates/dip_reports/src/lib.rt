//! The printed texts of a game's records, and of what letters come to.
#![tactic(auto)]

mod answers;
mod board_lines;
mod game_line;
mod inbox;
mod laws;
mod notices;
mod opening_paper;
mod paper_parts;
mod refusals;
mod show;
mod votes;

pub use answers::{
    paper_line, press_line, push_fault, push_order, refusal_line, replaced_line, withdrawn_line,
};
pub use board_lines::push_board_lines;
pub use dip_desk_state::{
    Head, Item, Kept, Outcome, Own, Public, Reply, Standing, Status, Vote, Whole,
};
pub use game_line::{push_game_line, push_phase};
pub use inbox::inbox_text;
pub use laws::board_lines_are_in_order;
pub use notices::{draw_paper_text, notice_paper_text};
pub use opening_paper::opening_paper_text;
pub use refusals::Refusal;
pub use show::show_text;
pub use votes::vote_line;
