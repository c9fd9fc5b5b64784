//! What is decided of a letter.
ghost use Rattle.std.specs.Prelude.{◌≡◌, IfOk};
ghost use Rattle.dip_desk_games.specs.Decided as c;
ghost use Rattle.dip_desk_games.specs.Verdicts.{verdict};

use dip_desk_state::Effect;
use dip_reports::{Refusal, refusal_line};
use std::alloc::{AllocError, Global};
use std::rc::Rc;

/// What is decided of a letter.
#[derive(Drop)]
pub enum Verdict {
    /// Its game, sender or secret isn't known.
    NotKnown,
    /// It is its author's last letter again: it gets these lines again, which are kept.
    Again(Rc<String>),
    /// Its number is an old one: it is refused by this line, and nothing is kept of it.
    OutOfTurn(String),
    /// It gets these lines, has this effect, and is kept.
    Taken(String, Effect),
}

/// The letter is refused, and that is kept.
pub fn refusal_verdict(alloc: Global, refusal: Refusal) -> Result<Verdict, AllocError>
    ensures { IfOk result (λ v. verdict v ≡ c.refusal_verdict refusal) }
{
    Ok(Verdict::Taken(refusal_line(alloc, refusal)?, Effect::Nothing))
}
