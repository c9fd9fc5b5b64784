//! The commands of the master.
ghost use Rattle.std.specs.Prelude.{◌≡◌, option_map};
ghost use Rattle.dip_letters.specs.Reading.{announce_at, due_at, first_answer_at, intent_at, intent_word_at, master_at, new_period_at, notice_at, opening_at, period_at, replace_at, tick_at};
ghost use Rattle.dip_letters.specs.Notes.MasterRequest.{Notify};
ghost use Rattle.dip_letters.specs.Views.{master_request, notice_request};

use crate::bodies::{seat_words_of, seats_of};
use crate::commands::{answer_of, plain_of};
use crate::press::texts_of;
use crate::{MasterCommand, Notice, Opening};
use dip_letters_words::{after, is_due, is_small_number, value_of, word_of};

/// The master's command, by its line and the body after it.
#[tactic(auto, unfolding(crate::specs::Reading::master_at))]
pub fn master_of<'a>(line: &'a str, body: &'a str) -> Option<MasterCommand<'a>>
    ensures { option_map master_request result ≡ master_at line.entry.now body.entry.now }
{
    opening_of(line, body)
        .or(tick_of(line, body))
        .or(replace_of(line, body))
        .or(notify_of(line, body))
}

/// What CREATE asks for, by its line and the lines of its seats.
#[tactic(auto, unfolding(crate::specs::Reading::opening_at))]
fn opening_of<'a>(line: &'a str, body: &'a str) -> Option<MasterCommand<'a>>
    ensures { option_map master_request result ≡ opening_at line.entry.now body.entry.now }
{
    let fields = after("CREATE DUE ", line)?;
    let (due, fields) = due_of(fields)?;
    let fields = after("PERIOD ", fields)?;
    let (period, fields) = period_of(fields)?;
    let fields = after("GREY ", fields)?;
    let (grey, fields) = first_answer_of(fields)?;
    let intent = intent_of(fields)?;
    let seats = seats_of(body)?;
    Some(MasterCommand::Create(Opening {
        due,
        period,
        grey,
        intent,
        seats,
    }))
}

/// The tick before the first space, and what is after that space.
#[tactic(auto, unfolding(crate::specs::Reading::due_at), using(dip_letters_words::proofs::NumberLemmas::due_facts))]
fn due_of(text: &str) -> Option<(u64, &str)>
    ensures { option_map (λ p. (p.0, p.1.now)) result ≡ due_at text.now }
{
    let (value, rest) = word_of(text)?;
    if is_due(value) {
        Some((value_of(value), rest))
    } else {
        None
    }
}

/// The period before the first space, and what is after that space.
#[tactic(auto, unfolding(crate::specs::Reading::period_at), using(dip_letters_words::proofs::NumberLemmas::small_facts))]
fn period_of(text: &str) -> Option<(u32, &str)>
    ensures { option_map (λ p. (p.0, p.1.now)) result ≡ period_at text.now }
{
    let (value, rest) = word_of(text)?;
    if is_small_number(value) {
        Some((value_of(value) as u32, rest))
    } else {
        None
    }
}

/// The answer at the front, and what is after it.
#[tactic(auto, unfolding(crate::specs::Reading::first_answer_at))]
fn first_answer_of(text: &str) -> Option<(bool, &str)>
    ensures { option_map (λ p. (p.0, p.1.now)) result ≡ first_answer_at text.now }
{
    match after("YES", text) {
        Some(rest) => Some((true, rest)),
        None => {
            let rest = after("NO", text)?;
            Some((false, rest))
        }
    }
}

/// What is said of INTENT: an answer after its name, or nothing.
#[tactic(auto, unfolding(crate::specs::Reading::intent_at))]
fn intent_of(text: &str) -> Option<Option<bool>>
    ensures { result ≡ intent_at text.now }
{
    if text.is_empty() {
        Some(None)
    } else {
        intent_word_of(text)
    }
}

/// The answer after the name INTENT.
#[tactic(auto, unfolding(crate::specs::Reading::intent_word_at))]
fn intent_word_of(text: &str) -> Option<Option<bool>>
    ensures { result ≡ intent_word_at text.now }
{
    let word = after(" INTENT ", text)?;
    let answer = answer_of(word)?;
    Some(Some(answer))
}

/// The command TICK, where the line and the body after it are one.
#[tactic(auto, unfolding(crate::specs::Reading::tick_at), using(dip_letters_words::proofs::NumberLemmas::due_facts))]
fn tick_of<'a>(line: &'a str, body: &'a str) -> Option<MasterCommand<'a>>
    ensures { option_map master_request result ≡ tick_at line.entry.now body.entry.now }
{
    let word = after("TICK ", line)?;
    if is_due(word) && body.is_empty() {
        Some(MasterCommand::Tick(value_of(word)))
    } else {
        None
    }
}

/// Another secret for the seat of a power.
#[tactic(auto, unfolding(crate::specs::Reading::replace_at))]
fn replace_of<'a>(line: &'a str, body: &'a str) -> Option<MasterCommand<'a>>
    ensures { option_map master_request result ≡ replace_at line.entry.now body.entry.now }
{
    let words = after("REPLACE ", line)?;
    let seat = seat_words_of(words)?;
    if body.is_empty() {
        Some(MasterCommand::Replace(seat))
    } else {
        None
    }
}

/// What a paper is to make known.
fn notify_of<'a>(line: &'a str, body: &'a str) -> Option<MasterCommand<'a>>
    ensures { option_map master_request result
        ≡ option_map Notify (notice_at line.entry.now body.entry.now) }
{
    let notice = notice_of(line, body)?;
    Some(MasterCommand::Notify(notice))
}

/// What a paper is to make known without a phase, by its line and the body after it.
#[tactic(auto, unfolding(crate::specs::Reading::notice_at))]
fn notice_of<'a>(line: &'a str, body: &'a str) -> Option<Notice<'a>>
    ensures { option_map notice_request result ≡ notice_at line.entry.now body.entry.now }
{
    plain_of("PAUSE", Notice::Pause, line, body)
        .or(plain_of("RESUME", Notice::Resume, line, body))
        .or(new_period_of(line, body))
        .or(announce_of(line, body))
        .or(plain_of("CLOSE", Notice::Close, line, body))
}

/// The ticks between two phases from now on.
#[tactic(auto, unfolding(crate::specs::Reading::new_period_at), using(dip_letters_words::proofs::NumberLemmas::small_facts))]
fn new_period_of<'a>(line: &'a str, body: &'a str) -> Option<Notice<'a>>
    ensures { option_map notice_request result ≡ new_period_at line.entry.now body.entry.now }
{
    let word = after("PERIOD ", line)?;
    if is_small_number(word) && body.is_empty() {
        Some(Notice::Period(value_of(word) as u32))
    } else {
        None
    }
}

/// The notice ANNOUNCE, where the line and the body after it are one.
#[tactic(auto, unfolding(crate::specs::Reading::announce_at))]
fn announce_of<'a>(line: &'a str, body: &'a str) -> Option<Notice<'a>>
    ensures { option_map notice_request result ≡ announce_at line.entry.now body.entry.now }
{
    if line == "ANNOUNCE" {
        let text = texts_of(body)?;
        Some(Notice::Announce(text))
    } else {
        None
    }
}
