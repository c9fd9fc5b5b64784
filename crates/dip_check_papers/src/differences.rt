//! Where a text differs from the one that is wanted.
ghost use Rattle.std.specs.Prelude.{◌≡◌, IfOk, map as each};
ghost use Rattle.dip_check_papers.specs.Checks.{IsCompared};
ghost use Rattle.dip_check_papers.specs.Differing.{alike, first_other};
ghost use Rattle.dip_desk_state.specs.Rows as rows;

use crate::parts::lines_of;
use crate::verdict::{Fault, Verdict, Wanted};
use dip_desk_state::Public;
use std::alloc::{AllocError, Global};

/// A line, counted from 1, that should be another one.
pub fn other_line(alloc: Global, line: usize, is: &str, wanted: &str) -> Result<Fault, AllocError>
    ensures { IfOk result (λ f. f.line ≡ line) }
{
    let wanted = Wanted::Line(String::from_str(alloc, wanted)?);
    fault_at(alloc, line, is, wanted)
}

/// What a line, counted from 1, should be.
pub fn fault_at(alloc: Global, line: usize, is: &str, wanted: Wanted) -> Result<Fault, AllocError>
    ensures { IfOk result (λ f. f.line ≡ line) }
{
    let is = String::from_str(alloc, is)?;
    Ok(Fault { line, is, wanted })
}

/// How many lines two texts have alike at the front.
fn lines_alike(lines: &[&str], others: &[&str]) -> usize
    ensures { result ≡ alike (each (λ l. l.now) lines.now) (each (λ l. l.now) others.now) }
{
    for (number, line) in lines.iter().enumerate() {
        if others.len() <= number {
            return number;
        }
        if *line != others[number] {
            return number;
        }
    }
    lines.len()
}

/// The first line in which two texts differ: the one after those that are alike.
pub fn first_difference(alloc: Global, text: &str, wanted: &str) -> Result<Fault, AllocError>
    ensures { IfOk result (λ f. f.line ≡ first_other text.now wanted.now) }
{
    let lines = lines_of(alloc, text)?;
    let others = lines_of(alloc, wanted)?;
    let number = lines_alike(lines.as_slice(), others.as_slice());
    let is = lines.get(number).copied().unwrap_or("");
    match others.get(number) {
        Some(other) => other_line(alloc, number + 1, is, other),
        None => fault_at(alloc, number + 1, is, Wanted::NoLine),
    }
}

/// Right where the text is the wanted one, which leaves the game so.
pub(crate) fn comparison_verdict(
    alloc: Global,
    text: &str,
    wanted: &str,
    after: Public,
) -> Result<Verdict, AllocError>
    ensures { IfOk result (λ v. IsCompared text.now wanted.now (rows.public after) v) }
{
    if text == wanted {
        return Ok(Verdict::Right(after));
    }
    Ok(Verdict::Wrong(first_difference(alloc, text, wanted)?))
}
