//! The first paper of a game.
ghost use Rattle.std.specs.Prelude.{◌≡◌, ◌&&◌, ◌||◌, ◌≤◌, ℕ, IfOk, Some, [], codes, map as each, slice_get, true, unwrap_or};
ghost use Rattle.std.specs.List.{list_all};
ghost use Rattle.std.specs.Fmt.{decimal};
ghost use Rattle.dip_check_papers.specs.Checks.{IsJudgedFirst};
ghost use Rattle.dip_check_papers.specs.Parts.{game_line_in, lines_in, word_after, words_in};
ghost use Rattle.dip_desk_games.specs.Opening.{opening_public};
ghost use Rattle.dip_desk_state.specs.Rows as rows;
ghost use Rattle.dip_letters.specs.Words.{is_digit, is_game, is_lower};

use crate::differences::{comparison_verdict, fault_at};
use crate::ticks::LAST_TICK;
use crate::titles::line_of;
use crate::verdict::{Verdict, Wanted};
use crate::words::{game_words, number_after, says_yes};
use dip_desk_state::{Public, Status};
use dip_map::{Board, Map, openings_are_of_their_map};
use dip_reports::opening_paper_text;
use std::alloc::{AllocError, Global};
use std::rc::Rc;

/// The most ticks from one due tick to the next.
pub(crate) const LONGEST_PERIOD: u32 = 999_999;

/// Whether the byte is a small letter.
fn is_lower(byte: u8) -> bool
    ensures { result ≡ is_lower byte }
{
    b'a' <= byte && byte <= b'z'
}

/// Whether each byte is a small letter or a digit.
fn are_lower_or_digits(bytes: &[u8]) -> bool
    ensures { result ≡ list_all (λ b. is_lower b || is_digit b) bytes.now }
{
    bytes
        .iter()
        .all(|b| is_lower(*b) || (b'0' <= *b && *b <= b'9'))
}

/// Whether a text is a game's name: 1 to 16 of `a` to `z` and `0` to `9`, a letter first.
fn is_game(name: &str) -> bool
    ensures { result ≡ is_game name.now }
{
    let bytes = name.as_bytes();
    1 <= bytes.len() && bytes.len() <= 16 && is_lower(bytes[0]) && are_lower_or_digits(bytes)
}

/// The game that a game line names, or nothing.
fn game_named<'a>(words: &[&'a str]) -> &'a str
    ensures { result.now ≡ unwrap_or (slice_get (each (λ w. w.now) words.now) 1) [] }
{
    if 1 < words.len() { words[1] } else { "" }
}

/// The period that a game line prints, where a letter may ask for it, or else the least.
fn period_told(words: &[&str]) -> u32
    ensures least { 1 ≤ result }
    ensures most { result ≤ 999999 }
    ensures told { (n : ℕ) → 1 ≤ n → n ≤ 999999
        → word_after (codes "PERIOD") (each (λ w. w.now) words.now) ≡ Some (decimal n)
        → result ≡ n }
{
    match number_after(words, "PERIOD") {
        Some(told) => match u32::try_from(told) {
            Ok(period) if 1 <= period && period <= LONGEST_PERIOD => period,
            _ => 1,
        },
        None => 1,
    }
}

/// The due tick that a game line prints, where a letter may ask for it, or else the last.
fn due_told(words: &[&str]) -> u64
    ensures timely { result ≤ 999999999999 }
    ensures told { (n : ℕ) → n ≤ 999999999999
        → word_after (codes "DUE") (each (λ w. w.now) words.now) ≡ Some (decimal n) → result ≡ n }
{
    match number_after(words, "DUE") {
        Some(due) if due <= LAST_TICK => due,
        _ => LAST_TICK,
    }
}

/// The public part of a new game.
fn opening_public(
    alloc: Global,
    map: &Map,
    game: &str,
    due: u64,
    period: u32,
    grey: bool,
    intent: bool,
) -> Result<Public, AllocError>
    ensures { IfOk result (λ p. rows.public p
        ≡ opening_public map.now game.now due period grey intent) }
{
    Ok(Public {
        game: String::from_str(alloc, game)?,
        board: Rc::new(alloc, Board::opening(alloc, map)?.with_intent(intent))?,
        status: Status::Running,
        due,
        period,
        grey,
        papers: 1,
    })
}

/// What is said of a text that is to be the first paper of a game by this name, with these words in its game line.
fn check_terms(
    alloc: Global,
    map: &Map,
    game: &str,
    words: &[&str],
    text: &str,
) -> Result<Verdict, AllocError>
    requires named { is_game game.now ≡ true }
    requires words { each (λ w. w.now) words.now ≡ words_in (game_line_in (lines_in text.now)) }
    requires game { game.now ≡ unwrap_or (slice_get (each (λ w. w.now) words.now) 1) [] }
    ensures { IfOk result (λ v. IsJudgedFirst map.now text.now v) }
{
    map.facts();
    openings_are_of_their_map();
    let due = due_told(words);
    let period = period_told(words);
    let grey = says_yes(words, "GREY");
    let intent = says_yes(words, "INTENT");
    let after = opening_public(alloc, map, game, due, period, grey, intent)?;
    let wanted = opening_paper_text(alloc, map, &after)?;
    comparison_verdict(alloc, text, wanted.as_str(), after)
}

/// What is said of a text that is to be the first paper of a game. It is wrong only where no letter can open a game by a paper with
/// that text, and each paper by which one can differs from it in the line told or before it.
///
/// # Errors
/// Want of memory alone.
pub fn check_opening(alloc: Global, map: &Map, text: &str) -> Result<Verdict, AllocError>
    ensures { IfOk result (λ v. IsJudgedFirst map.now text.now v) }
{
    let words = game_words(alloc, text)?;
    let game = game_named(words.as_slice());
    if !is_game(game) {
        return Ok(Verdict::Wrong(fault_at(alloc, 2, line_of(text, 2), Wanted::AGameLine)?));
    }
    check_terms(alloc, map, game, words.as_slice(), text)
}
