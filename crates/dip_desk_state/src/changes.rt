//! Who writes letters, and what they change.
ghost use Rattle.std.specs.Prelude.{◌≡◌, IfOk};
ghost use Rattle.dip_desk_state.specs.ChangeRows as rows;

use crate::records::{Item, Kept, Public, Standing, Vote, last_copy};
use dip_names::Power;
use std::alloc::AllocError;
use std::rc::Rc;

/// The master's row.
#[derive(Drop)]
pub struct Desk {
    /// SHA-256 of `desk`, LF, `master`, LF and the master's secret.
    pub digest: [u8; 32],
    /// The master's last letter, if one is recorded.
    pub kept: Option<Kept>,
}

impl Desk {
    /// Copies the row; the lines of the last reply are shared.
    pub fn copy(&self) -> Result<Desk, AllocError>
        ensures { IfOk result (λ d. rows.desk d ≡ rows.desk self.now) }
    {
        Ok(Desk {
            digest: self.digest,
            kept: last_copy(&self.kept)?,
        })
    }
}

/// Who wrote a letter.
#[derive(Clone, Copy, PartialEq, Eq, Debug)]
pub enum Author {
    Nobody,
    TheMaster,
    Seat(Power),
}

/// A power of a new game and the digest of its seat.
#[derive(Clone, Copy)]
pub struct NewSeat {
    pub power: Power,
    pub digest: [u8; 32],
}

/// What a letter does to its game.
#[derive(Drop)]
pub enum Effect {
    /// It stays as it is: the letter was refused, asked a question, or asked for what stands
    /// already.
    Nothing,
    /// The author's standing orders are these.
    Pending(Vec<Standing>),
    /// From now on the author votes for this.
    Votes(Vote),
    /// Press for the inboxes of these powers. It lies in memory once, however many have it.
    Delivers {
        readers: Vec<Power>,
        item: Rc<Item>,
    },
    /// A game with this public part, first paper and seats.
    Opens {
        public: Public,
        paper: String,
        seats: Vec<NewSeat>,
    },
    /// A paper and the public part after it; where a phase was played, no order stands any more.
    Publishes {
        public: Public,
        paper: String,
        played: bool,
    },
    /// The seat of this power has this digest from now on, so that another secret opens it.
    Seats(NewSeat),
}

/// All that a letter changes if a known author sent it in turn: its author's row, and its game.
#[derive(Drop)]
pub struct Change {
    /// The game that the letter names, and the only one that changes.
    pub game: String,
    pub author: Author,
    /// What is kept of the letter, for its author.
    pub kept: Kept,
    pub effect: Effect,
}
