//! What is said of a paper.
use dip_desk_state::Public;

/// What a line should be.
#[derive(Drop)]
pub enum Wanted {
    /// Exactly this line.
    Line(String),
    /// An order of this unit that can be given on the board, and what became of it: the unit's power, its kind and its place.
    OrderOf(String),
    /// In Winter, an order that can be given beside those of its power above it, and stands after them by province.
    AnOrder,
    /// A line of an announcement, which has 1 to 80: `> ` and up to 200 bytes from the space to `~`.
    AText,
    /// The game line: of a game by a name that a letter may give it, or between powers that survive.
    AGameLine,
    /// The text should have ended.
    NoLine,
}

/// Where a text is wrong.
#[derive(Drop)]
pub struct Fault {
    /// The line, counted from 1.
    pub line: usize,
    /// What the line is: nothing where the text has ended.
    pub is: String,
    pub wanted: Wanted,
}

/// What is said of a text that is to come next in a game.
#[derive(Drop)]
pub enum Verdict {
    /// It may come next, and leaves the game so.
    Right(Public),
    /// It is wrong here: a line that is no order, or else the first line that differs from the paper of what the text prints.
    Wrong(Fault),
}

/// What is said of texts that are to be the papers of a game, in order.
#[derive(Drop)]
pub enum Papers {
    /// They are, and leave the game so.
    Right(Public),
    /// The paper of this number, counted from 1, is the first that is wrong, and it is so here.
    Wrong(usize, Fault),
    /// There is no paper.
    None,
}
