//! The lines of a text that is to be a paper.
ghost use Rattle.std.specs.Prelude.{◌≡◌, ◌++◌, IfOk, OnOk, codes, map as each, option_map, option_to_list};
ghost use Rattle.dip_check_papers.specs.Parts.{game_line_in, is_game_line, lines_in, told_in};
ghost use Rattle.dip_letters.specs.Reading.{after_name};

use std::alloc::{AllocError, Global};

/// The lines of a text: what stands between its ends of lines.
pub(crate) fn lines_of<'a>(alloc: Global, text: &'a str) -> Result<Vec<&'a str>, AllocError>
    ensures { IfOk result (λ v. each (λ l. l.now) v.items ≡ lines_in text.now) }
{
    text.split('\n').collect(alloc)
}

/// Whether a line begins as a game line does.
fn is_game_line(line: &str) -> bool
    ensures { result ≡ is_game_line line.now }
{
    line.starts_with("GAME ")
}

/// The game line: the first of these lines that begins so, or nothing where there is none.
pub(crate) fn game_line<'a>(lines: &[&'a str]) -> &'a str
    ensures { result.now ≡ game_line_in (each (λ l. l.now) lines.now) }
{
    for line in lines {
        if is_game_line(line) {
            return line;
        }
    }
    ""
}

/// What follows a name at the front of a text.
pub(crate) fn rest_after<'a>(name: &str, text: &'a str) -> Option<&'a str>
    ensures { option_map (λ s. s.now) result ≡ after_name name.now text.entry.now }
{
    text.strip_prefix(name)
}

/// Appends what a line says after its mark, where it has one.
fn push_told<'a>(line: &'a str, told: &mut Vec<&'a str>) -> Result<(), AllocError>
    ensures { OnOk result (each (λ l. l.now) told.new.items
        ≡ each (λ l. l.now) told.old.items ++ option_to_list (after_name (codes "> ") line.now)) }
{
    if let Some(rest) = rest_after("> ", line) {
        told.push(rest)?;
    }
    Ok(())
}

/// What the lines before the game line say after their marks; one that has no mark is left out.
pub(crate) fn lines_told<'a>(alloc: Global, lines: &[&'a str]) -> Result<Vec<&'a str>, AllocError>
    ensures { IfOk result (λ v. each (λ l. l.now) v.items
        ≡ told_in (each (λ l. l.now) lines.now)) }
{
    let mut told: Vec<&str> = Vec::new(alloc);
    for line in lines {
        if is_game_line(line) {
            return Ok(told);
        }
        push_told(line, &mut told)?;
    }
    Ok(told)
}
