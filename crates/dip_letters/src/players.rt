//! The commands of powers.
ghost use Rattle.std.specs.Prelude.{◌≡◌, option_map};
ghost use Rattle.dip_letters.specs.Reading.{inbox_at, orders_at, player_at, press_at, vote_at, vote_for_at};
ghost use Rattle.dip_letters.specs.Views.{player_request};

use crate::bodies::order_lines_of;
use crate::commands::{answer_of, plain_of};
use crate::press::{names_of, texts_of};
use crate::{PlayerCommand, Press};
use dip_letters_words::{after, is_small_number, value_of};

/// A power's command, by its line and the body after it.
#[tactic(auto, unfolding(crate::specs::Reading::player_at))]
pub fn player_of<'a>(line: &'a str, body: &'a str) -> Option<PlayerCommand<'a>>
    ensures { option_map player_request result ≡ player_at line.entry.now body.entry.now }
{
    orders_of(line, body)
        .or(plain_of("WITHDRAW", PlayerCommand::Withdraw, line, body))
        .or(press_of(false, "PRESS WHITE TO ", line, body))
        .or(press_of(true, "PRESS GREY TO ", line, body))
        .or(vote_of(line, body))
        .or(vote_for_of(line, body))
        .or(plain_of("SHOW", PlayerCommand::Show, line, body))
        .or(inbox_of(line, body))
}

/// The command ORDERS, where the line and the body after it are one.
#[tactic(auto, unfolding(crate::specs::Reading::orders_at))]
fn orders_of<'a>(line: &'a str, body: &'a str) -> Option<PlayerCommand<'a>>
    ensures { option_map player_request result ≡ orders_at line.entry.now body.entry.now }
{
    if line == "ORDERS" {
        let lines = order_lines_of(body)?;
        Some(PlayerCommand::Orders(lines))
    } else {
        None
    }
}

/// Press of a colour, by what its addressees follow.
#[tactic(auto, unfolding(crate::specs::Reading::press_at))]
fn press_of<'a>(grey: bool, name: &str, line: &'a str, body: &'a str) -> Option<PlayerCommand<'a>>
    ensures { option_map player_request result
        ≡ press_at grey name.now line.entry.now body.entry.now }
{
    let names = after(name, line)?;
    let addressees = names_of(names)?;
    let text = texts_of(body)?;
    Some(PlayerCommand::Press(Press {
        grey,
        addressees,
        text,
    }))
}

/// The command VOTE, where the line and the body after it are one.
#[tactic(auto, unfolding(crate::specs::Reading::vote_at))]
fn vote_of<'a>(line: &'a str, body: &'a str) -> Option<PlayerCommand<'a>>
    ensures { option_map player_request result ≡ vote_at line.entry.now body.entry.now }
{
    let word = after("VOTE ", line)?;
    let draw = answer_of(word)?;
    if body.is_empty() {
        Some(PlayerCommand::Vote(draw))
    } else {
        None
    }
}

/// The command VOTE FOR, where the line and the body after it are one.
#[tactic(auto, unfolding(crate::specs::Reading::vote_for_at))]
fn vote_for_of<'a>(line: &'a str, body: &'a str) -> Option<PlayerCommand<'a>>
    ensures { option_map player_request result ≡ vote_for_at line.entry.now body.entry.now }
{
    let words = after("VOTE FOR ", line)?;
    let powers = names_of(words)?;
    if body.is_empty() {
        Some(PlayerCommand::VoteFor(powers))
    } else {
        None
    }
}

/// The command INBOX, where the line and the body after it are one.
#[tactic(auto, unfolding(crate::specs::Reading::inbox_at), using(dip_letters_words::proofs::NumberLemmas::small_facts))]
fn inbox_of<'a>(line: &'a str, body: &'a str) -> Option<PlayerCommand<'a>>
    ensures { option_map player_request result ≡ inbox_at line.entry.now body.entry.now }
{
    let word = after("INBOX ", line)?;
    if is_small_number(word) && body.is_empty() {
        Some(PlayerCommand::Inbox(value_of(word) as u32))
    } else {
        None
    }
}
