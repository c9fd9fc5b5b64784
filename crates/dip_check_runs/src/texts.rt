//! What is told of papers.
ghost use Rattle.std.specs.Prelude.{◌≡◌, ◌++◌, IfOk, codes, string_bytes, take};
ghost use Rattle.std.specs.Fmt.{decimal};
ghost use Rattle.dip_check_runs.specs.Texts as t;

use crate::input::MOST_PAPER;
use crate::papers::{line_after, title_in};
use crate::saying::Said;
use dip_check_papers::{Fault, Wanted};
use std::alloc::{AllocError, Global};

/// What a line should be, in words.
fn wanted_words(alloc: Global, wanted: &Wanted) -> Result<String, AllocError>
    ensures { IfOk result (λ text. string_bytes text ≡ t.wanted_words wanted.now) }
{
    match wanted {
        Wanted::Line(line) => line.clone(),
        Wanted::OrderOf(unit) => Ok(format!(in alloc;
            "an order of {unit} that can be given there, and what became of it"
        )?),
        Wanted::AnOrder => String::from_str(
            alloc,
            "an order that can be given there, and what became of it",
        ),
        Wanted::AText => String::from_str(
            alloc,
            "a line of an announcement: > and a space, and up to 200 printable characters",
        ),
        Wanted::AGameLine => String::from_str(alloc, "a game line"),
        Wanted::NoLine => String::from_str(alloc, "nothing: the paper should end before it"),
    }
}

/// What is told after the title of a wrong paper.
#[tactic(auto, unfolding(crate::specs::Texts::wrong_text))]
fn wrong_text(alloc: Global, line: usize, is: &str, should: &str) -> Result<String, AllocError>
    ensures { IfOk result
        (λ text. string_bytes text ≡ t.wrong_text line is.now should.now) }
{
    format!(in alloc;
        " wrong: line {line}\nis: {is}\nshould be: {should}\npapers after it weren't checked\n"
    )
}

/// What is told after the title of a paper that is wrong there.
fn fault_text(alloc: Global, fault: &Fault) -> Result<String, AllocError>
    ensures { IfOk result (λ text. string_bytes text ≡ t.wrong_text fault.now.line
        (string_bytes fault.now.is) (t.wanted_words fault.now.wanted)) }
{
    let words = wanted_words(alloc, &fault.wanted)?;
    wrong_text(alloc, fault.line, fault.is.as_str(), words.as_str())
}

/// What is told after the title of a paper, by what is said of it.
fn verdict_text(alloc: Global, said: &Said) -> Result<String, AllocError>
    ensures { IfOk result (λ text. string_bytes text ≡ t.verdict_text said.now) }
{
    match said {
        Said::Right(_new) => String::from_str(alloc, " right\n"),
        Said::Wrong(fault) => fault_text(alloc, fault),
        Said::NoText(line) => wrong_text(alloc, *line, "bytes that are no UTF-8", "text"),
    }
}

/// The title of a paper, and a text after it.
fn text_under_title(alloc: Global, paper: &[u8], text: &str) -> Result<Vec<u8>, AllocError>
    ensures { IfOk result (λ told. told.items ≡ t.title_in paper.now ++ text.now) }
{
    let mut told = Vec::new(alloc);
    told.extend_from_slice(title_in(paper))?;
    told.extend_from_slice(text.as_bytes())?;
    Ok(told)
}

/// The line or lines that the program prints of a paper: its title, and what is said of it.
pub(crate) fn said_text(alloc: Global, paper: &[u8], said: &Said) -> Result<Vec<u8>, AllocError>
    ensures { IfOk result (λ told. told.items ≡ t.said_text paper.now said.now) }
{
    let text = verdict_text(alloc, said)?;
    text_under_title(alloc, paper, text.as_str())
}

/// What is told after the title of a paper of which this line goes past the most bytes.
fn past_text(alloc: Global, line: usize) -> Result<String, AllocError>
    ensures { IfOk result (λ text. string_bytes text ≡ codes " is too long: line "
        ++ (decimal line ++ codes " goes past 1048576 bytes\n")) }
{
    format!(in alloc; " is too long: line {line} goes past 1048576 bytes\n")
}

/// The bytes of a paper, up to the most that it may have.
fn within_most(paper: &[u8]) -> &[u8]
    ensures { result.now ≡ take 1048576 paper.now }
{
    if paper.len() <= MOST_PAPER {
        return paper;
    }
    &paper[..MOST_PAPER]
}

/// What is told of a paper that is longer than may be.
#[tactic(auto, unfolding(crate::specs::Texts::too_long_text))]
pub(crate) fn too_long_text(alloc: Global, paper: &[u8]) -> Result<Vec<u8>, AllocError>
    ensures { IfOk result (λ told. told.items ≡ t.too_long_text paper.now) }
{
    let text = past_text(alloc, line_after(within_most(paper)))?;
    text_under_title(alloc, paper, text.as_str())
}

/// What is told of a paper that plays no phase.
pub(crate) fn no_phase_text(alloc: Global, paper: &[u8]) -> Result<Vec<u8>, AllocError>
    ensures { IfOk result (λ told. told.items ≡ t.no_phase_text paper.now) }
{
    text_under_title(
        alloc,
        paper,
        " plays no phase, so there is nothing to explain\n",
    )
}

/// What is told of a game of so many papers.
#[tactic(auto, unfolding(crate::specs::Texts::count_text))]
pub(crate) fn count_text(alloc: Global, papers: u32) -> Result<String, AllocError>
    ensures { IfOk result (λ text. string_bytes text ≡ t.count_text papers) }
{
    if papers == 1 {
        format!(in alloc; "{papers} paper right\n")
    } else {
        format!(in alloc; "{papers} papers right\n")
    }
}

/// What is told where the input has so many papers, and not the one of this number.
#[tactic(auto, unfolding(crate::specs::Texts::missing_text))]
pub(crate) fn missing_text(alloc: Global, number: u32, papers: u32) -> Result<String, AllocError>
    ensures { IfOk result (λ text. string_bytes text ≡ t.missing_text number papers) }
{
    format!(in alloc; "no paper {number}: the input has {papers}\n")
}
