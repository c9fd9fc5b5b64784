//! A letter by its parts, and what comes next in an input.
use crate::{Lines, Names, Seats, Texts};
use std::error::Error;
use std::fmt;

/// A letter that follows the grammar. Its parts are cut out of its bytes, and nothing is copied.
#[derive(Clone, Copy)]
pub struct Letter<'a> {
    /// 1 to 16 of `a` to `z` and `0` to `9`, a letter first.
    pub game: &'a str,
    /// 1 to 16 of `a` to `z`: a power or the master.
    pub sender: &'a str,
    /// 8 to 64 bytes from `!` to `~`.
    pub secret: &'a str,
    /// Its sender's number for it, 1 to 999999999.
    pub number: u32,
    /// What it asks for: a power's command or the master's, whoever sends it.
    pub command: Command<'a>,
    /// The whole letter, from `LETTER` to the LF of `END`.
    pub bytes: &'a [u8],
}

/// What a letter asks for: each command is a power's or the master's.
#[derive(Clone, Copy)]
pub enum Command<'a> {
    /// A command for powers; from the master it is refused.
    Player(PlayerCommand<'a>),
    /// A command for the master; from a power it is refused.
    Master(MasterCommand<'a>),
}

/// What a power asks for.
#[derive(Clone, Copy)]
pub enum PlayerCommand<'a> {
    /// 1 to 64 order lines.
    Orders(Lines<'a>),
    /// All standing orders go.
    Withdraw,
    /// Press: its text goes into the inboxes of the powers that it names.
    Press(Press<'a>),
    /// Whether the power votes for a draw between all who survive, from now on.
    Vote(bool),
    /// A vote for a draw between these powers alone, from now on: 1 to 7 names.
    VoteFor(Names<'a>),
    /// The game is shown, with what the seat has of its own.
    Show,
    /// The items of its inbox from this number on, 1 to 999999; the first item has the number 1.
    Inbox(u32),
}

/// Press: a text for other powers.
#[derive(Clone, Copy)]
pub struct Press<'a> {
    /// Whether its readers aren't told who wrote it.
    pub grey: bool,
    /// 1 to 7 names; `all` alone is every power but the writer.
    pub addressees: Names<'a>,
    /// 1 to 80 lines of 0 to 200 bytes from a space to `~`.
    pub text: Texts<'a>,
}

/// What the master asks for.
#[derive(Clone, Copy)]
pub enum MasterCommand<'a> {
    /// A new game is opened, of the name that the letter has.
    Create(Opening<'a>),
    /// The time, 0 to 999999999999: the game's phase is adjudicated where it is due.
    Tick(u64),
    /// Another secret for the seat of a power.
    Replace(Seat<'a>),
    /// Something that a paper makes known, without a phase.
    Notify(Notice<'a>),
}

/// What the master makes known by a paper in which no phase is played.
#[derive(Clone, Copy)]
pub enum Notice<'a> {
    /// No tick adjudicates until the game is resumed.
    Pause,
    /// Ticks adjudicate again.
    Resume,
    /// The ticks from one due tick to the next from now on, 1 to 999999; the due tick that stands stays.
    Period(u32),
    /// An announcement of 1 to 80 lines of 0 to 200 bytes from a space to `~`.
    Announce(Texts<'a>),
    /// The game ends, and nobody has won.
    Close,
}

/// What CREATE says of the game that it opens.
#[derive(Clone, Copy)]
pub struct Opening<'a> {
    /// The tick from which the first phase is due, 0 to 999999999999.
    pub due: u64,
    /// The ticks between two phases, 1 to 999999.
    pub period: u32,
    /// Whether the game has grey press.
    pub grey: bool,
    /// What is said of INTENT: nothing means that it is off.
    pub intent: Option<bool>,
    /// 1 to 7 seats, each of a power with the secret that it is given.
    pub seats: Seats<'a>,
}

impl<'a> Opening<'a> {
    ghost use Rattle.std.specs.Prelude.{◌≡◌};
    ghost use Rattle.dip_letters.specs.Letters.{is_on};

    /// Whether the game has the option INTENT: its letter says YES of it.
    pub fn has_intent(&self) -> bool
        ensures { result ≡ is_on self.now.intent }
    {
        match self.intent {
            Some(answer) => answer,
            None => false,
        }
    }
}

/// A power and the secret by which its letters are known: of a new game, or a new one of REPLACE.
#[derive(Clone, Copy)]
pub struct Seat<'a> {
    /// 1 to 16 of `a` to `z`.
    pub power: &'a str,
    /// 8 to 64 bytes from `!` to `~`.
    pub secret: &'a str,
}

/// Why the bytes are no letter.
#[derive(Clone, Copy, Debug, PartialEq, Eq)]
pub enum LetterFault {
    /// They are no letter of the grammar.
    Malformed,
    /// No letter ends within 16,384 bytes, and more bytes follow.
    TooLong,
}

impl fmt::Display for LetterFault {
    ghost use Rattle.std.specs.Prelude.{Some};
    ghost use Rattle.dip_letters.specs.Faults.{fault_words};

    ghost output = { λ fault. Some (fault_words fault) };

    #[tactic(auto, unfolding(crate::specs::Faults::fault_words))]
    fn fmt<W: fmt::Write>(&self, f: &mut fmt::Formatter<W>) -> fmt::Result {
        match self {
            LetterFault::Malformed => f.write_str("no letter of the grammar"),
            LetterFault::TooLong => f.write_str("no end within 16,384 bytes"),
        }
    }
}

impl Error for LetterFault {}

/// What comes next in an input, and the bytes after it.
#[derive(Clone, Copy)]
pub enum Next<'a> {
    /// A letter that follows the grammar, and the bytes after it.
    Taken(Letter<'a>, &'a [u8]),
    /// No letter; the bytes are those after the next line `END`.
    Fault(LetterFault, &'a [u8]),
    /// Nothing but empty lines.
    End,
}
