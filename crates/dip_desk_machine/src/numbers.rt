//! What an old number comes to.
ghost use Rattle.std.specs.Prelude.{◌≡◌, IfOk, option_map};
ghost use Rattle.dip_desk_games.specs.Verdicts.{verdict};
ghost use Rattle.dip_desk_machine.specs.Mail.{mail};
ghost use Rattle.dip_desk_machine.specs.Machine as m;
ghost use Rattle.dip_desk_state.specs.Rows as rows;

use dip_desk_games::Verdict;
use dip_desk_state::Kept;
use dip_letters::{Letter, sum};
use dip_reports::{Refusal, refusal_line};
use std::alloc::{AllocError, Global};

/// What a letter with its author's last number gets: where it is the same letter, the same reply.
fn repeat_verdict(alloc: Global, letter: &Letter<'_>, kept: &Kept) -> Result<Verdict, AllocError>
    ensures { IfOk result
        (λ v. verdict v ≡ m.repeat_verdict (mail letter.now) (rows.kept kept.now)) }
{
    let told = sum(letter.bytes);
    if told.as_slice() == kept.sum.as_slice() {
        Ok(Verdict::Again(kept.reply.clone()?))
    } else {
        let line = refusal_line(alloc, Refusal::NumberUsed(kept.number))?;
        Ok(Verdict::OutOfTurn(line))
    }
}

/// What an old number comes to; `None` where the number is new.
pub fn old_number(
    alloc: Global,
    letter: &Letter<'_>,
    kept: &Option<Kept>,
) -> Result<Option<Verdict>, AllocError>
    ensures { IfOk result
        (λ o. option_map verdict o ≡ m.old_number (mail letter.now)
        (option_map rows.kept kept.now)) }
{
    let Some(kept) = kept else {
        return Ok(None);
    };
    if letter.number < kept.number {
        let line = refusal_line(alloc, Refusal::Stale(kept.number))?;
        return Ok(Some(Verdict::OutOfTurn(line)));
    }
    if letter.number > kept.number {
        return Ok(None);
    }
    Ok(Some(repeat_verdict(alloc, letter, kept)?))
}
