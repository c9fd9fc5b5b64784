//! The first line of a paper, and a line by its number.
ghost use Rattle.std.specs.Prelude.{◌≡◌, ◌+◌, ◌++◌, IfOk, codes, string_bytes};
ghost use Rattle.std.specs.Fmt.{decimal};
ghost use Rattle.dip_check_papers.specs.Printed.{first_line_of, title_words};

use crate::printed::first_and_rest;
use dip_desk_state::Public;
use dip_reports::push_phase;
use std::alloc::{AllocError, Global};

/// The line of a number, counted from 1; nothing where the text has fewer.
pub(crate) fn line_of(text: &str, number: usize) -> &str {
    text.split('\n').nth(number.saturating_sub(1)).unwrap_or("")
}

/// What is before a text's first LF; all of it where no line ends.
pub fn first_line(text: &str) -> &str
    ensures { result.now ≡ (first_line_of text.now).0 }
{
    first_and_rest(text).0
}

/// The first line of the paper that comes next, of a kind that isn't a phase.
pub fn title_of(alloc: Global, before: &Public, kind: &str) -> Result<String, AllocError>
    ensures { IfOk result (λ t. string_bytes t ≡ codes "PAPER " ++ decimal (before.now.papers + 1)
        ++ codes " " ++ kind.now) }
{
    let number = u64::from(before.papers) + 1;
    let mut title = String::new(alloc);
    write!(title, "PAPER {number} {kind}")?;
    Ok(title)
}

/// The first line of the paper that comes next, where it tells of the game's phase.
pub fn phase_title(alloc: Global, before: &Public) -> Result<String, AllocError>
    ensures { IfOk result (λ t. string_bytes t
        ≡ title_words (before.now.papers + 1) before.now.board.value.phase) }
{
    let mut title = title_of(alloc, before, "")?;
    push_phase(before.board.phase(), &mut title)?;
    Ok(title)
}
