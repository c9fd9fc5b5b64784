//! The paper of a draw.
ghost use Rattle.std.specs.Prelude.{◌≡◌, ◌<◌, ◌++◌, ℕ, List, IfOk, length, map as each, nat_lt, string_bytes, false, true};
ghost use Rattle.std.specs.List.{list_all};
ghost use Rattle.dip_check_papers.specs.Checks.{IsJudgedNext, MayShare};
ghost use Rattle.dip_check_papers.specs.Games.{IsDraw, IsTick};
ghost use Rattle.dip_check_papers.specs.Parts.{words_in};
ghost use Rattle.dip_check_papers.specs.Shared.{draw_head, is_named, is_sharer, sharers};
ghost use Rattle.dip_desk_games.specs.Drawing as d;
ghost use Rattle.dip_desk_state.specs.Bounds.{most_papers};
ghost use Rattle.dip_desk_state.specs.Rows as rows;
ghost use Rattle.dip_map.specs.Boards.{IsOf, are_ascending};

use crate::differences::{comparison_verdict, fault_at};
use crate::parts::{game_line, lines_of, rest_after};
use crate::titles::line_of;
use crate::verdict::{Verdict, Wanted};
use crate::words::words_of;
use dip_desk_games::survives;
use dip_desk_state::{Public, Status};
use dip_map::{Board, Map};
use dip_names::Power;
use dip_reports::{draw_paper_text, push_phase};
use std::alloc::{AllocError, Global};

/// What the paper of a draw begins with: all before the names of those who share.
fn draw_head(alloc: Global, before: &Public) -> Result<String, AllocError>
    requires { before.now.papers < most_papers }
    ensures { IfOk result (λ t. string_bytes t ≡ draw_head (rows.public before.now)) }
{
    let number = before.papers + 1;
    let mut head = String::new(alloc);
    write!(head, "PAPER {number} draw\n")?;
    head.push_str("GAME ")?;
    head.push_str(before.game.as_str())?;
    head.push_str(" ")?;
    push_phase(before.board.phase(), &mut head)?;
    head.push_str(" drawn by")?;
    Ok(head)
}

/// The words after `drawn by` in a text's game line.
fn words_drawn<'a>(alloc: Global, text: &'a str) -> Result<Vec<&'a str>, AllocError> {
    let lines = lines_of(alloc, text)?;
    match game_line(lines.as_slice()).split_once(" drawn by ") {
        Some((_before, names)) => words_of(alloc, names),
        None => Ok(Vec::new(alloc)),
    }
}

/// The words of a draw's paper from the names of those who share on, or else those of its game line.
fn words_told<'a>(alloc: Global, before: &Public, text: &'a str) -> Result<Vec<&'a str>, AllocError>
    requires { before.now.papers < most_papers }
    ensures { (rest : List ℕ) → text.now ≡ draw_head (rows.public before.now) ++ rest
        → IfOk result (λ v. each (λ w. w.now) v.items ≡ words_in rest) }
{
    let head = draw_head(alloc, before)?;
    match rest_after(head.as_str(), text) {
        Some(rest) => words_of(alloc, rest),
        None => words_drawn(alloc, text),
    }
}

/// Whether a name is among these words, before the terms.
fn is_named(words: &[&str], name: &str) -> bool
    ensures { result ≡ is_named name.now (each (λ w. w.now) words.now) }
{
    for word in words {
        if *word == "DUE" {
            return false;
        }
        if *word == name {
            return true;
        }
    }
    false
}

/// Whether a power survives, and its name is among these words.
fn is_sharer(map: &Map, board: &Board, words: &[&str], power: Power) -> bool
    ensures { result ≡ is_sharer map.now board.now (each (λ w. w.now) words.now) power }
{
    is_named(words, map.power_name(power)) && survives(map, board, power)
}

/// The survivors whose names are among these words, by name.
fn sharers(
    alloc: Global,
    map: &Map,
    board: &Board,
    words: &[&str],
) -> Result<Vec<Power>, AllocError>
    ensures { IfOk result (λ v. v.items ≡ sharers map.now board.now (each (λ w. w.now) words.now)) }
{
    let mut powers = Vec::new(alloc);
    for power in map.each_power() {
        if is_sharer(map, board, words, power) {
            powers.push(power)?;
        }
    }
    Ok(powers)
}

/// Whether these are powers of the map.
fn are_of(map: &Map, powers: &[Power]) -> bool
    ensures { result ≡ list_all (λ p. nat_lt p (length map.now.realms)) powers.now }
{
    powers
        .iter()
        .all(|power| usize::from(power.index()) < map.power_count())
}

/// Whether the power comes before each of the others.
fn is_before_all(power: Power, others: &[Power]) -> bool
    ensures { result ≡ list_all (λ q. nat_lt power q) others.now }
{
    others.iter().all(|other| power < *other)
}

/// Whether each power comes before all that follow.
fn are_ascending(powers: &[Power]) -> bool
    ensures { result ≡ are_ascending powers.now }
{
    for (number, power) in powers.iter().enumerate() {
        if !is_before_all(*power, &powers[number + 1..]) {
            return false;
        }
    }
    true
}

/// Whether each of these powers has units or centres on the board, so that it can share a draw.
fn all_survive(map: &Map, board: &Board, powers: &[Power]) -> bool
    ensures { result ≡ list_all (d.survives map.now board.now) powers.now }
{
    powers.iter().all(|power| survives(map, board, *power))
}

/// Whether these powers may share a game: there is one, they are of the map, by name, each once, and all survive.
fn may_share(map: &Map, board: &Board, powers: &[Power]) -> bool
    ensures yes { result ≡ true → MayShare map.now board.now powers.now }
    ensures no { result ≡ false → MayShare map.now board.now powers.now → ⊥ }
{
    if powers.is_empty() {
        return false;
    }
    if !are_of(map, powers) {
        return false;
    }
    if !are_ascending(powers) {
        return false;
    }
    all_survive(map, board, powers)
}

/// The public part after a draw between these powers.
fn public_drawn(alloc: Global, before: &Public, powers: Vec<Power>) -> Result<Public, AllocError>
    requires { before.now.papers < most_papers }
    ensures { IfOk result (λ p. rows.public p
        ≡ d.public_drawn powers.items (rows.public before.now)) }
{
    Ok(Public {
        game: before.game.clone()?,
        board: before.board.clone()?,
        status: Status::Drawn(powers),
        due: before.due,
        period: before.period,
        grey: before.grey,
        papers: before.papers + 1,
    })
}

/// What is said of a text that is to be the paper of a draw, at this tick.
pub fn check_draw(
    alloc: Global,
    map: &Map,
    before: &Public,
    tick: u64,
    text: &str,
) -> Result<Verdict, AllocError>
    requires of_map { IsOf map.now before.now.board.value }
    requires room { before.now.papers < most_papers }
    requires ticks { IsTick (rows.public before.now) tick }
    ensures { IfOk result (λ v. IsJudgedNext map.now (rows.public before.now) text.now
        (IsDraw map.now (rows.public before.now) text.now) v) }
{
    map.facts();
    let words = words_told(alloc, before, text)?;
    let powers = sharers(alloc, map, &before.board, words.as_slice())?;
    if !may_share(map, &before.board, powers.as_slice()) {
        return Ok(Verdict::Wrong(fault_at(alloc, 2, line_of(text, 2), Wanted::AGameLine)?));
    }
    let after = public_drawn(alloc, before, powers)?;
    let wanted = draw_paper_text(alloc, map, &after)?;
    comparison_verdict(alloc, text, wanted.as_str(), after)
}
