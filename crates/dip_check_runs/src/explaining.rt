//! A paper that is explained: those before it are played, and then its phase's steps are told.
ghost use Rattle.std.specs.Prelude.{◌≡◌, Ok, Some, IfErr, IfOk, IfSome, false, string_bytes};
ghost use Rattle.dip_check_runs.specs.Runs.{EndsBegun, HasBoard, IsExplained, IsExplanation, IsFound, IsFoundNext, IsReadingFault, IsSaid, count_played};
ghost use Rattle.dip_check_runs.specs.Texts as t;
ghost use Rattle.dip_map.specs.Boards.{IsOf};

use crate::checking::tell;
use crate::input::{next_front, nothing_ahead, skip_rest};
use crate::papers::after_empty_lines;
use crate::saying::{Said, count_played, say, text_of};
use crate::texts::{missing_text, no_phase_text, said_text};
use dip_check::phase_of;
use dip_check_papers::CheckFault;
use dip_desk_state::Public;
use dip_explain::explain_phase;
use dip_map::Map;
use std::alloc::{AllocError, Global};
use std::io::{Read, Write};

/// What is to be told of a paper.
#[derive(Drop)]
pub(crate) struct Found {
    text: Vec<u8>,
    /// Whether the text is the paper's explanation; else it says why there is none.
    explained: bool,
}

/// The explanation of a paper that comes next in a game that stands so; nothing where it plays no phase.
fn explanation_of(
    alloc: Global,
    map: &Map,
    before: &Public,
    paper: &[u8],
) -> Result<Option<String>, AllocError>
    requires { IsOf map.now before.now.board.value }
    ensures { IfOk result (λ found. IfSome found
        (λ text. IsExplanation map.now (Some before.now) paper.now (string_bytes text))) }
{
    match text_of(paper) {
        Err(_line) => Ok(None),
        Ok(text) => match phase_of(alloc, map, before, text)? {
            None => Ok(None),
            Some(report) => {
                let text = explain_phase(alloc, map, &before.board, &report)?;
                Ok(Some(text))
            }
        },
    }
}

/// What is to be told of a paper that comes next and has no explanation.
fn found_unexplained(
    alloc: Global,
    map: &Map,
    game: &Option<Public>,
    paper: &[u8],
) -> Result<Found, AllocError>
    requires { HasBoard map.now game.now }
    ensures { IfOk result (IsFoundNext map.now game.now paper.now) }
{
    let said = say(alloc, map, game, paper)?;
    let text = match &said {
        Said::Right(_new) => no_phase_text(alloc, paper)?,
        _ => said_text(alloc, paper, &said)?,
    };
    Ok(Found {
        text,
        explained: false,
    })
}

/// What is to be told of the paper that comes next and is to be explained.
fn found_next(
    alloc: Global,
    map: &Map,
    game: &Option<Public>,
    paper: &[u8],
) -> Result<Found, AllocError>
    requires { HasBoard map.now game.now }
    ensures { IfOk result (IsFoundNext map.now game.now paper.now) }
{
    if let Some(before) = game {
        if let Some(text) = explanation_of(alloc, map, before, paper)? {
            return Ok(Found {
                text: text.into_bytes(),
                explained: true,
            });
        }
    }
    found_unexplained(alloc, map, game, paper)
}

/// What is to be told where the input ends before the paper of the number.
fn found_missing(alloc: Global, number: u32, game: &Option<Public>) -> Result<Found, AllocError>
    ensures { IfOk result (λ f. (f.explained ≡ false)
        × (f.text.items ≡ t.missing_text number (count_played game.now))) }
{
    let text = missing_text(alloc, number, count_played(game))?;
    Ok(Found {
        text: text.into_bytes(),
        explained: false,
    })
}

/// What is to be told of a paper that is wrong.
fn found_wrong(alloc: Global, paper: &[u8], said: &Said) -> Result<Found, AllocError>
    ensures { IfOk result (λ f. (f.explained ≡ false)
        × (f.text.items ≡ t.said_text paper.now said.now)) }
{
    let text = said_text(alloc, paper, said)?;
    Ok(Found {
        text,
        explained: false,
    })
}

/// What was found, or that memory ran out.
fn or_memory(found: Result<Found, AllocError>) -> Result<Found, CheckFault>
    ensures ok { IfOk result (λ f. found ≡ Ok f) }
    ensures err { IfErr result (λ f. f ≡ CheckFault.Memory) }
{
    match found {
        Ok(found) => Ok(found),
        Err(_) => Err(CheckFault::Memory),
    }
}

/// What is said of the bytes that come after the papers that were played, or that memory ran out.
fn say_or_fault(
    alloc: Global,
    map: &Map,
    game: &Option<Public>,
    paper: &[u8],
) -> Result<Said, CheckFault>
    requires { HasBoard map.now game.now }
    ensures said { IfOk result (IsSaid map.now game.now paper.now) }
    ensures fault { IfErr result (λ f. f ≡ CheckFault.Memory) }
{
    match say(alloc, map, game, paper) {
        Ok(said) => Ok(said),
        Err(_) => Err(CheckFault::Memory),
    }
}

/// Reads papers up to the one of the number, or the first that is wrong, and finds what is to be told.
fn find<R: Read>(alloc: Global, reader: &mut R, map: &Map, number: u32) -> Result<Found, CheckFault>
    ensures found { IfOk result (λ f. IsFound map.now number (R.remaining reader.old)
        (R.remaining reader.new) f.text.items f.explained) }
    ensures fault { IfErr result IsReadingFault }
{
    let mut ahead = nothing_ahead(alloc);
    let mut game: Option<Public> = None;
    'papers: loop {
        let front = next_front(reader, &mut ahead)?;
        let paper = after_empty_lines(front.as_slice());
        if paper.is_empty() {
            return or_memory(found_missing(alloc, number, &game));
        }
        if count_played(&game) as u64 + 1 == number as u64 {
            skip_rest(reader, &ahead);
            return or_memory(found_next(alloc, map, &game, paper));
        }
        match say_or_fault(alloc, map, &game, paper)? {
            Said::Right(new) => game = Some(new),
            said => {
                skip_rest(reader, &ahead);
                return or_memory(found_wrong(alloc, paper, &said));
            }
        }
    }
}

/// Reads papers up to the one of a number, counted from 1, and tells why its phase came out as it did. Whether it does: else it tells which
/// paper is wrong, that there is no such paper, or that it plays no phase. One paper and one board are in memory at a time. What comes
/// after the paper is read and isn't looked at.
///
/// # Errors
/// `Read`, `TooLong`, `Write` or `Memory`.
pub fn explain_paper<R: Read, W: Write>(
    alloc: Global,
    reader: &mut R,
    writer: &mut W,
    map: &Map,
    number: u32,
) -> Result<bool, CheckFault>
    ensures explained { IfOk result (IsExplained map.now number (R.remaining reader.old)
        (R.remaining reader.new) (W.contents writer.old) (W.contents writer.new)) }
    ensures ends { IfErr result (EndsBegun map.now number (R.remaining reader.old)
        (R.remaining reader.new) (W.contents writer.old) (W.contents writer.new)) }
{
    let found = find(alloc, reader, map, number)?;
    tell(writer, found.text.as_slice())?;
    Ok(found.explained)
}
