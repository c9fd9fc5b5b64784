//! One letter at a time: look and decide, keep.
ghost use Rattle.std.specs.Prelude.{◌≡◌, IfOk, None, Some, map as each, string_bytes};
ghost use Rattle.dip_desk.specs.Fitting.{VerdictFits};
ghost use Rattle.dip_desk_keeper.specs.Keeping.{Steps};
ghost use Rattle.dip_desk_machine.specs.Mail.{IsMail, mail};
ghost use Rattle.std.specs.List.{AllByRecursion};
ghost use Rattle.dip_desk_machine.specs.Machine as m;
ghost use Rattle.dip_desk_state.specs.ChangeRows as desk_rows;
ghost use Rattle.dip_desk.specs.Running.{Runs};
ghost use Rattle.dip_desk_machine.specs.Verdicts.{verdict};
ghost use Rattle.dip_desk_state.specs.Rows as rows;
ghost use Rattle.dip_reports.specs.Texts.{refusal_line};

use crate::looking::decide;
use dip_desk_keeper::Keeper;
use dip_desk_machine::{
    Verdict, effects_fit, lawful_states_stay_lawful, published_movements_are_decided,
};
use dip_desk_state::{Author, Change, Effect, Head, KeepFault, Kept, Outcome, Reply};
use dip_letters::{Letter, LetterFault, sum};
use dip_map::Map;
use dip_reports::{Refusal, refusal_line};
use std::alloc::{AllocError, Global};
use std::rc::Rc;

/// Whose letter the reply answers.
fn head_of(alloc: Global, letter: &Letter<'_>) -> Result<Head, AllocError>
    ensures { IfOk result (λ h. rows.head h ≡ m.head_of (mail letter.now)) }
{
    Ok(Head {
        game: String::from_str(alloc, letter.game)?,
        sender: String::from_str(alloc, letter.sender)?,
        number: letter.number,
    })
}

/// The reply to a letter whose game, sender or secret isn't known.
fn unknown_reply(alloc: Global) -> Result<Reply, AllocError>
    ensures { IfOk result
        (λ r. rows.reply r ≡ record
        { outcome = Outcome.Unknown; head = None; text = refusal_line Refusal.Unknown }) }
{
    Ok(Reply {
        outcome: Outcome::Unknown,
        head: None,
        text: Rc::new(alloc, refusal_line(alloc, Refusal::Unknown)?)?,
    })
}

/// The reply to a letter that changes nothing.
fn reply_with(
    alloc: Global,
    letter: &Letter<'_>,
    outcome: Outcome,
    text: Rc<String>,
) -> Result<Reply, AllocError>
    ensures { IfOk result
        (λ r. rows.reply r ≡ record {
          outcome = outcome;
          head = Some (m.head_of (mail letter.now));
          text = string_bytes text.value;
        }) }
{
    Ok(Reply {
        outcome,
        head: Some(head_of(alloc, letter)?),
        text,
    })
}

/// What a letter that is taken changes.
fn change_of(
    alloc: Global,
    letter: &Letter<'_>,
    author: Author,
    text: String,
    effect: Effect,
) -> Result<Change, AllocError>
    ensures { IfOk result
        (λ c. desk_rows.change c ≡ record {
          game = letter.now.game.now;
          author = desk_rows.author author;
          kept = m.kept_of
              (mail letter.now) (string_bytes text);
          effect = desk_rows.effect effect;
        }) }
{
    Ok(Change {
        game: String::from_str(alloc, letter.game)?,
        author,
        kept: Kept {
            number: letter.number,
            sum: sum(letter.bytes),
            reply: Rc::new(alloc, text)?,
        },
        effect,
    })
}

/// The reply's lines, out of the change that kept them. No copy is made, which could want memory
/// after the letter is taken.
fn lines_kept(change: Change) -> Rc<String>
    ensures { result ≡ change.kept.reply }
{
    change.kept.reply
}

/// Keeps what was decided, and gives the reply. Nothing grows after the change.
fn settle<K: Keeper>(
    alloc: Global,
    keeper: &mut K,
    map: &Map,
    letter: &Letter<'_>,
    author: Author,
    decided: Verdict,
) -> Result<Reply, KeepFault>
    ensures { Steps map.now K.book keeper.old keeper.new (λ r. rows.reply r)
        (m.Settles (mail letter.now) (desk_rows.author author) (verdict decided))
        (λ s. VerdictFits map.now (mail letter.now) (desk_rows.author author) (verdict decided) s
        → ⊥) result }
{
    match decided {
        Verdict::NotKnown => Ok(unknown_reply(alloc)?),
        Verdict::Again(text) => Ok(reply_with(alloc, letter, Outcome::Done, text)?),
        Verdict::OutOfTurn(text) => {
            let text = Rc::new(alloc, text)?;
            Ok(reply_with(alloc, letter, Outcome::OutOfTurn, text)?)
        }
        Verdict::Taken(text, effect) => {
            let head = Some(head_of(alloc, letter)?);
            let change = change_of(alloc, letter, author, text, effect)?;
            match keeper.apply(map, &change) {
                Err(fault) => Err(fault),
                Ok(()) => Ok(Reply {
                    outcome: Outcome::Done,
                    head,
                    text: lines_kept(change),
                }),
            }
        }
    }
}

/// Takes one letter: one step of the desk machine.
pub fn take<K: Keeper>(
    alloc: Global,
    keeper: &mut K,
    map: &Map,
    letter: &Letter<'_>,
) -> Result<Reply, KeepFault>
    requires { IsMail (mail letter.now) }
    ensures { Steps map.now K.book keeper.old keeper.new (λ r. rows.reply r)
        (λ old r new. m.Step map.now old (mail letter.now) r new)
        (m.IsDamagedBy map.now (mail letter.now)) result }
{
    effects_fit(map);
    match decide(alloc, keeper, map, letter) {
        Err(fault) => Err(fault),
        Ok((author, decided)) => settle(alloc, keeper, map, letter, author, decided),
    }
}

/// Takes letters in turn, up to the first that a keeper gives no answer to; the letters before it stay taken.
///
/// # Errors
/// The replies to the letters before, and the keeper's fault.
pub fn run<K: Keeper>(
    alloc: Global,
    keeper: &mut K,
    map: &Map,
    letters: &[Letter<'_>],
) -> Result<Vec<Reply>, (Vec<Reply>, KeepFault)>
    requires { AllByRecursion IsMail (each (λ l. mail l) letters.now) }
    ensures { Runs map.now K.book keeper.old keeper.new (each (λ l. mail l) letters.now)
        (λ replies. each (λ r. rows.reply r) replies.items) result }
{
    lawful_states_stay_lawful(map);
    published_movements_are_decided();
    let mut replies = match Vec::with_capacity(alloc, letters.len()) {
        Ok(replies) => replies,
        Err(_) => return Err((Vec::new(alloc), KeepFault::Memory)),
    };
    for letter in letters {
        match take(alloc, keeper, map, letter) {
            Ok(reply) => replies.push_reserved(reply),
            Err(fault) => return Err((replies, fault)),
        }
    }
    Ok(replies)
}

/// The reply to bytes that are no letter.
pub fn fault_reply(alloc: Global, fault: LetterFault) -> Result<Reply, AllocError>
    ensures { IfOk result (λ r. rows.reply r ≡ m.fault_reply fault) }
{
    let refusal = match fault {
        LetterFault::Malformed => Refusal::Malformed,
        LetterFault::TooLong => Refusal::TooLong,
    };
    Ok(Reply {
        outcome: Outcome::Unknown,
        head: None,
        text: Rc::new(alloc, refusal_line(alloc, refusal)?)?,
    })
}
