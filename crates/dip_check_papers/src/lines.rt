//! Lines of a text, and its parts at a byte.
ghost use Rattle.std.specs.Prelude.{◌≡◌, IfOk, map as each, option_map};
ghost use Rattle.dip_letters.specs.Lines.{cut_at, line_at, split_lines, word_at};
ghost use Rattle.dip_letters.specs.Reading.{after_name};

use std::alloc::{AllocError, Global};

/// The first line and what is after its LF.
pub(crate) fn line_of(text: &str) -> Option<(&str, &str)>
    ensures { option_map (λ p. (p.0.now, p.1.now)) result ≡ line_at text.now }
{
    text.split_once('\n')
}

/// The first word and what is after its space.
pub(crate) fn word_of(text: &str) -> Option<(&str, &str)>
    ensures { option_map (λ p. (p.0.now, p.1.now)) result ≡ word_at text.now }
{
    text.split_once(' ')
}

/// What is before the first colon, and what is after it.
pub(crate) fn at_colon(text: &str) -> Option<(&str, &str)>
    ensures { option_map (λ p. (p.0.now, p.1.now)) result ≡ cut_at 58 text.now }
{
    text.split_once(':')
}

/// What follows a name at the front of a text.
pub(crate) fn after<'a>(name: &str, text: &'a str) -> Option<&'a str>
    ensures { option_map (λ s. s.now) result ≡ after_name name.now text.entry.now }
{
    text.strip_prefix(name)
}

/// The lines of a text, each without its LF; what is after the last LF is none.
pub(crate) fn lines_of<'a>(alloc: Global, text: &'a str) -> Result<Vec<&'a str>, AllocError>
    ensures { IfOk result (λ v. each (λ l. l.now) v.items ≡ split_lines text.entry.now) }
{
    let mut lines: Vec<&str> = Vec::new(alloc);
    let mut at = text;
    while let Some((line, rest)) = line_of(at) {
        lines.push(line)?;
        at = rest;
    }
    Ok(lines)
}
