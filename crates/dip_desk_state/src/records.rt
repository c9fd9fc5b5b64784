//! The records that a desk keeps and answers.
ghost use Rattle.std.specs.Prelude.{◌≡◌, IfOk, option_map};
ghost use Rattle.dip_desk_state.specs.Rows as rows;

use dip_map::Board;
use dip_names::{Power, Prov};
use std::alloc::{AllocError, Global};
use std::rc::Rc;

/// Copies a list of powers; the only error is want of memory.
pub fn copy_powers(alloc: Global, powers: &[Power]) -> Result<Vec<Power>, AllocError>
    ensures { IfOk result (λ v. v.items ≡ powers.now) }
{
    let mut copy = Vec::with_capacity(alloc, powers.len())?;
    copy.extend_from_slice(powers)?;
    Ok(copy)
}

/// How a game stands.
#[derive(Drop)]
pub enum Status {
    /// It goes on, and each due tick adjudicates its phase.
    Running,
    /// No tick adjudicates its phase until the master lets it go on.
    Paused,
    /// The master's CLOSE ended it.
    Closed,
    /// Its last year is over, and nobody has won.
    Ended,
    /// This power has won: it owns more than half of all centres.
    Won(Power),
    /// Its survivors agreed on a draw: these powers share it.
    Drawn(Vec<Power>),
}

impl Status {
    /// Copies the status, with the list of those who share a draw.
    pub fn copy(&self, alloc: Global) -> Result<Status, AllocError>
        ensures { IfOk result (λ s. rows.status s ≡ rows.status self.now) }
    {
        match self {
            Status::Running => Ok(Status::Running),
            Status::Paused => Ok(Status::Paused),
            Status::Closed => Ok(Status::Closed),
            Status::Ended => Ok(Status::Ended),
            Status::Won(power) => Ok(Status::Won(*power)),
            Status::Drawn(powers) => Ok(Status::Drawn(copy_powers(alloc, powers.as_slice())?)),
        }
    }
}

/// What everybody may know of a game.
#[derive(Drop)]
pub struct Public {
    /// The game's name: 1 to 16 of `a` to `z` and `0` to `9`, a letter first.
    pub game: String,
    /// Where its units stand, who owns its centres, and its phase. Copies of this record share it.
    pub board: Rc<Board>,
    /// Whether it goes on, and else how it ended.
    pub status: Status,
    /// The tick from which on its phase may be adjudicated.
    pub due: u64,
    /// The ticks from one due tick to the next.
    pub period: u32,
    /// Whether it takes grey press.
    pub grey: bool,
    /// How many papers it has published.
    pub papers: u32,
}

impl Public {
    /// A copy of it under this name, which shares its board.
    pub fn copy_under(&self, alloc: Global, name: &str) -> Result<Public, AllocError>
        ensures { IfOk result
            (λ p. rows.public p ≡ record (rows.public self.now) { game = name.now }) }
    {
        Ok(Public {
            game: String::from_str(alloc, name)?,
            board: self.board.clone()?,
            status: self.status.copy(alloc)?,
            due: self.due,
            period: self.period,
            grey: self.grey,
            papers: self.papers,
        })
    }
}

/// The last letter of an author that was recorded, and its reply.
#[derive(Drop)]
pub struct Kept {
    /// The letter's number: a new letter of this author has to have a greater one.
    pub number: u32,
    /// SHA-256 of the letter's bytes.
    pub sum: [u8; 32],
    /// The lines of its reply between the head and `END`, each ended by LF. A copy of this record shares them.
    pub reply: Rc<String>,
}

impl Kept {
    /// A copy of it, which shares the lines of its reply.
    pub fn copy(&self) -> Result<Kept, AllocError>
        ensures { IfOk result (λ k. rows.kept k ≡ rows.kept self.now) }
    {
        Ok(Kept {
            number: self.number,
            sum: self.sum,
            reply: self.reply.clone()?,
        })
    }
}

/// A copy of an author's last letter, if there is one.
pub(crate) fn last_copy(kept: &Option<Kept>) -> Result<Option<Kept>, AllocError>
    ensures { IfOk result (λ k. option_map rows.kept k ≡ option_map rows.kept kept.now) }
{
    match kept {
        None => Ok(None),
        Some(kept) => Ok(Some(kept.copy()?)),
    }
}

/// An order that stands for the next phase, as its seat's row keeps it.
#[derive(Drop)]
pub struct Standing {
    /// The province of its unit: of a seat's orders each has another one.
    pub prov: Prov,
    /// The order as the judge prints it, which reads back as the same order.
    pub line: String,
}

impl Standing {
    /// Copies the order with its line.
    pub fn copy(&self) -> Result<Standing, AllocError>
        ensures { IfOk result (λ s. rows.standing s ≡ rows.standing self.now) }
    {
        Ok(Standing {
            prov: self.prov,
            line: self.line.clone()?,
        })
    }
}

/// Copies standing orders in their order.
pub fn copy_standings(alloc: Global, pending: &[Standing]) -> Result<Vec<Standing>, AllocError>
    ensures { IfOk result (λ v. rows.standings v.items ≡ rows.standings pending.now) }
{
    let mut copy = Vec::with_capacity(alloc, pending.len())?;
    for standing in pending {
        copy.push(standing.copy()?)?;
    }
    Ok(copy)
}

/// A seat's vote. A due tick draws the game where the votes of all survivors ask for the same draw.
#[derive(Drop)]
pub enum Vote {
    /// No draw, as every seat votes at first.
    No,
    /// A draw between all who survive at the tick.
    Yes,
    /// A draw between exactly these powers, in the map's order, each once.
    For(Vec<Power>),
}

impl Vote {
    /// Copies the vote with its list of powers.
    pub fn copy(&self, alloc: Global) -> Result<Vote, AllocError>
        ensures { IfOk result (λ v. rows.vote v ≡ rows.vote self.now) }
    {
        match self {
            Vote::No => Ok(Vote::No),
            Vote::Yes => Ok(Vote::Yes),
            Vote::For(powers) => Ok(Vote::For(copy_powers(alloc, powers.as_slice())?)),
        }
    }
}

/// Press as its reader is shown it.
#[derive(Drop)]
pub enum Item {
    /// With the name of its writer, and its addressees as they were named.
    White {
        writer: String,
        addressees: Vec<String>,
        text: Vec<String>,
    },
    /// With nobody's name, and whether all have it.
    Grey {
        to_all: bool,
        text: Vec<String>,
    },
}

/// What a seat may know beside the public part: its own part, but for the items of its inbox.
#[derive(Drop)]
pub struct Own {
    /// The power that the seat plays; no other seat of its game plays it.
    pub power: Power,
    /// SHA-256 of the game, the power and the seat's secret.
    pub digest: [u8; 32],
    /// Its vote. It isn't changed when a phase is played.
    pub vote: Vote,
    /// Its standing orders, by province.
    pub pending: Vec<Standing>,
    /// Its last letter, if it has sent one that is recorded.
    pub kept: Option<Kept>,
    /// How many press letters it has sent.
    pub sent: u32,
    /// How many items its inbox has.
    pub items: u32,
}

impl Own {
    /// Copies the own part; the lines of the last reply are shared.
    pub fn copy(&self, alloc: Global) -> Result<Own, AllocError>
        ensures { IfOk result (λ o. rows.own o ≡ rows.own self.now) }
    {
        Ok(Own {
            power: self.power,
            digest: self.digest,
            vote: self.vote.copy(alloc)?,
            pending: copy_standings(alloc, self.pending.as_slice())?,
            kept: last_copy(&self.kept)?,
            sent: self.sent,
            items: self.items,
        })
    }
}

/// A game with the own parts of all its seats, but for the items of their inboxes.
#[derive(Drop)]
pub struct Whole {
    pub public: Public,
    /// The seats, in the order in which CREATE named them.
    pub seats: Vec<Own>,
}

/// What became of a letter.
#[derive(Clone, Copy, PartialEq, Eq, Debug)]
pub enum Outcome {
    /// Nobody is known as its author.
    Unknown,
    /// Its number was used by another letter, or is below its author's last.
    OutOfTurn,
    /// It was done or refused, and this is kept; the same letter again has this outcome too.
    Done,
}

/// Whose letter a reply answers.
#[derive(Drop)]
pub struct Head {
    /// The game's name, as the letter has it.
    pub game: String,
    /// The power's name, or `master`.
    pub sender: String,
    /// The number that the sender gave the letter.
    pub number: u32,
}

/// What is answered to a letter, or to bytes that are no letter.
#[derive(Drop)]
pub struct Reply {
    /// What became of the letter.
    pub outcome: Outcome,
    /// Whose letter it answers; `None` where no author is known.
    pub head: Option<Head>,
    /// Its lines between the head and `END`, each ended by LF. What is kept of the letter shares them.
    pub text: Rc<String>,
}
