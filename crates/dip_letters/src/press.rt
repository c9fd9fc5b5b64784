//! Names of powers, as in the addressees of press, and the lines of a text: press or an announcement.
ghost use Rattle.std.specs.Prelude.{◌≡◌, option_map};
ghost use Rattle.std.specs.Iterator.{YieldsFirstRef, item_count};
ghost use Rattle.dip_letters_words.specs.Lines.{first_word_at};
ghost use Rattle.dip_letters.specs.Reading.{is_some, lines_fit, names_at, text_at, texts_at, words_fit};
ghost use Rattle.dip_letters.specs.Views.{names_in, texts_in};
ghost use Rattle.dip_letters_words.specs.Words.{is_name};

use dip_letters_words::{after, is_name, is_text, line_of, word_of};

/// Names, as of the addressees of press or of the powers that a draw is wanted between, from the first one on.
#[derive(Clone, Copy, Drop)]
pub struct Names<'a> {
    text: &'a str,
}

/// The lines of press or of an announcement, from the first one on, each without its mark `> `.
#[derive(Clone, Copy, Drop)]
pub struct Texts<'a> {
    text: &'a str,
}

impl<'a> Iterator for Names<'a> {
    type Item = &'a str;

    ghost next_gives = { YieldsFirstRef names_in };

    ghost remaining = { item_count names_in };

    fn next(&mut self) -> Option<&'a str> {
        let (name, rest) = first_word(self.text)?;
        self.text = rest;
        Some(name)
    }
}

impl<'a> Iterator for Texts<'a> {
    type Item = &'a str;

    ghost next_gives = { YieldsFirstRef texts_in };

    ghost remaining = { item_count texts_in };

    fn next(&mut self) -> Option<&'a str> {
        let (line, rest) = line_of(self.text)?;
        let text = text_of(line)?;
        self.text = rest;
        Some(text)
    }
}

/// The first word and what is after its space.
fn first_word(text: &str) -> Option<(&str, &str)>
    ensures { option_map (λ p. (p.0.now, p.1.now)) result ≡ first_word_at text.now }
{
    if text.is_empty() {
        return None;
    }
    match word_of(text) {
        Some((word, rest)) => Some((word, rest)),
        None => Some((text, "")),
    }
}

/// What a line of a text says after its mark.
#[tactic(auto, unfolding(crate::specs::Reading::text_at))]
fn text_of<'a>(line: &'a str) -> Option<&'a str>
    ensures { option_map (λ t. t.now) result ≡ text_at line.entry.now }
{
    let text = after("> ", line)?;
    if is_text(text) { Some(text) } else { None }
}

/// The names of a text: 1 to 7, a space between each two of them.
#[tactic(auto, unfolding(crate::specs::Reading::names_at, crate::specs::Views::names_in))]
pub fn names_of(text: &str) -> Option<Names<'_>>
    ensures { option_map names_in result ≡ names_at text.now }
{
    if names_fit(text) {
        Some(Names { text })
    } else {
        None
    }
}

/// Whether the text is a name and at most 6 others.
fn names_fit(text: &str) -> bool
    ensures { result ≡ words_fit is_name 6 text.now }
{
    let mut at = text;
    let mut left: u8 = 6;
    while let Some((name, rest)) = word_of(at) {
        if left == 0 || !is_name(name) {
            return false;
        }
        left -= 1;
        at = rest;
    }
    is_name(at)
}

/// The text that a body is: 1 to 80 lines that begin with `> `, and no other lines.
#[tactic(auto, unfolding(crate::specs::Reading::texts_at, crate::specs::Views::texts_in))]
pub fn texts_of(body: &str) -> Option<Texts<'_>>
    ensures { option_map texts_in result ≡ texts_at body.now }
{
    if !body.is_empty() && texts_fit(body) {
        Some(Texts { text: body })
    } else {
        None
    }
}

/// Whether the text is at most 80 lines of a text.
fn texts_fit(body: &str) -> bool
    ensures { result ≡ lines_fit (λ l. is_some (text_at l)) 80 body.now }
{
    let mut at = body;
    let mut left: u8 = 80;
    while let Some((line, rest)) = line_of(at) {
        if left == 0 || !is_text_line(line) {
            return false;
        }
        left -= 1;
        at = rest;
    }
    at.is_empty()
}

/// Whether the line is one of a text: it begins with its mark.
fn is_text_line(line: &str) -> bool
    ensures { result ≡ is_some (text_at line.now) }
{
    text_of(line).is_some()
}
