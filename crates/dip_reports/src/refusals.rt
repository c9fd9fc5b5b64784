//! Why a letter is refused.
use std::fmt;

/// Why a letter is refused, printed as its line of the reply.
#[derive(Clone, Copy, PartialEq, Eq, Debug)]
pub enum Refusal {
    /// The bytes are no letter, or names in it aren't those of the map's powers or don't stand as they may.
    Malformed,
    /// Nobody is the author, or the master's letter names no game.
    Unknown,
    /// The letter's number is below its author's last, which is this.
    Stale(u32),
    /// The letter's number is its author's last, this one, and that was another letter.
    NumberUsed(u32),
    /// The letter has more than 16,384 bytes.
    TooLong,
    /// The seat has sent as many press letters as it may in this game.
    QuotaUsed,
    /// The game takes no grey press.
    NoGrey,
    /// The game is over: it was won, ended, drawn or closed.
    GameOver,
    /// The command isn't for this sender.
    WrongSender,
    /// The time of TICK is below the game's due tick, or the game is paused.
    NotDue,
    /// A game of this name exists.
    NameTaken,
}

impl fmt::Display for Refusal {
    ghost use Rattle.std.specs.Prelude.{Some};
    ghost use Rattle.dip_reports.specs.Texts.{refusal_text};

    ghost output = { λ r. Some (refusal_text r) };

    #[tactic(auto, unfolding(crate::specs::Texts::refusal_text))]
    fn fmt<W: fmt::Write>(&self, f: &mut fmt::Formatter<W>) -> fmt::Result {
        match self {
            Refusal::Malformed => write!(f, "L1 malformed letter"),
            Refusal::Unknown => write!(f, "L2 unknown game, sender or secret"),
            Refusal::Stale(last) => write!(f, "L3 stale number, last is {last}"),
            Refusal::NumberUsed(number) => write!(f, "L4 number {number} used by another letter"),
            Refusal::TooLong => write!(f, "L5 letter over 16384 bytes"),
            Refusal::QuotaUsed => write!(f, "L6 press quota used"),
            Refusal::NoGrey => write!(f, "L7 no grey press here"),
            Refusal::GameOver => write!(f, "L8 game over"),
            Refusal::WrongSender => write!(f, "L9 command not for this sender"),
            Refusal::NotDue => write!(f, "L10 tick not due"),
            Refusal::NameTaken => write!(f, "L11 name taken"),
        }
    }
}
