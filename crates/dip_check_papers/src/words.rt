//! The game line of a paper, word by word: `GAME`, the game, the phase, how it stands, and its terms, each after its name.
ghost use Rattle.std.specs.Prelude.{◌≡◌, ◌<◌, ◌^◌, ℕ, IfOk, Some, map as each, option_map};
ghost use Rattle.std.specs.Fmt.{decimal};
ghost use Rattle.dip_check_papers.specs.Parts.{game_line_in, is_yes, lines_in, word_after, words_in};

use crate::parts::{game_line, lines_of};
use std::alloc::{AllocError, Global};

/// The words of a line: what stands between its spaces.
pub(crate) fn words_of<'a>(alloc: Global, line: &'a str) -> Result<Vec<&'a str>, AllocError>
    ensures { IfOk result (λ v. each (λ w. w.now) v.items ≡ words_in line.now) }
{
    line.split(' ').collect(alloc)
}

/// The words of a text's game line.
pub(crate) fn game_words<'a>(alloc: Global, text: &'a str) -> Result<Vec<&'a str>, AllocError>
    ensures { IfOk result (λ v. each (λ w. w.now) v.items
        ≡ words_in (game_line_in (lines_in text.now))) }
{
    let lines = lines_of(alloc, text)?;
    words_of(alloc, game_line(lines.as_slice()))
}

/// The word after the first `name` among these words, if there is one.
fn word_after<'a>(words: &[&'a str], name: &str) -> Option<&'a str>
    ensures { option_map (λ w. w.now) result
        ≡ word_after name.now (each (λ w. w.now) words.now) }
{
    for (number, word) in words.iter().enumerate() {
        if *word == name {
            return words.get(number + 1).copied();
        }
    }
    None
}

/// The number after the first `name` among these words, in decimal digits; none where that is no
/// number below 2^64.
pub(crate) fn number_after(words: &[&str], name: &str) -> Option<u64>
    ensures { (n : ℕ) → n < 2 ^ 64
        → word_after name.now (each (λ w. w.now) words.now) ≡ Some (decimal n) → result ≡ Some n }
{
    match word_after(words, name) {
        Some(word) => word.parse::<u64>().ok(),
        None => None,
    }
}

/// Whether YES comes after a word.
pub(crate) fn says_yes(words: &[&str], name: &str) -> bool
    ensures { result ≡ is_yes (word_after name.now (each (λ w. w.now) words.now)) }
{
    match word_after(words, name) {
        Some(word) => word == "YES",
        None => false,
    }
}
