//! Papers that are checked: each is made again from the one before it, up to the first wrong one.
ghost use Rattle.std.specs.Prelude.{◌≡◌, ℕ, IfErr, IfOk, OnErr, OnOk, is_some, string_bytes, take};
ghost use Rattle.std.specs.Io.KnownBytes.{Appends};
ghost use Rattle.dip_check_runs.specs.Runs.{EndsEarly, HasBoard, IsChecked, IsReadingFault, IsSaid, StopsReading, StopsTelling, TellsIfGame, TellsOf, TellsTooLong, end_text};
ghost use Rattle.dip_check_runs.specs.Texts as t;

use crate::input::{Ahead, next_front, nothing_ahead, skip_rest};
use crate::papers::after_empty_lines;
use crate::saying::{Said, say};
use crate::texts::{count_text, said_text, too_long_text};
use dip_check_papers::{CheckFault, Progress, papers_are_lines, papers_have_one_answer};
use dip_desk_state::Public;
use dip_map::Map;
use dip_streams::write_text;
use std::alloc::{AllocError, Global};
use std::io::{Read, Write};

/// Writes a text, or a beginning of it.
pub(crate) fn tell<W: Write>(writer: &mut W, text: &[u8]) -> Result<(), CheckFault>
    ensures ok { OnOk result (Appends (W.contents writer.old) (W.contents writer.new) text.now) }
    ensures err { OnErr result
        ((size : ℕ)
        × Appends (W.contents writer.old) (W.contents writer.new) (take size text.now)) }
    ensures fault { IfErr result (λ f. f ≡ CheckFault.Write) }
{
    match write_text(writer, text) {
        Ok(()) => Ok(()),
        Err(_) => Err(CheckFault::Write),
    }
}

/// What is told in the end of the papers that were played.
fn end_text(alloc: Global, game: &Option<Public>) -> Result<String, AllocError>
    ensures { IfOk result (λ text. string_bytes text ≡ end_text game.now) }
{
    match game {
        None => String::from_str(alloc, "no paper: the input is empty\n"),
        Some(public) => count_text(alloc, public.papers),
    }
}

/// Says of the bytes that come after the papers that were played what they are, and tells it.
fn judge_next<W: Write>(
    alloc: Global,
    writer: &mut W,
    map: &Map,
    game: &Option<Public>,
    paper: &[u8],
) -> Result<Said, CheckFault>
    requires { HasBoard map.now game.now }
    ensures said { IfOk result (IsSaid map.now game.now paper.now) }
    ensures told { IfOk result (λ said. Appends (W.contents writer.old) (W.contents writer.new)
        (t.said_text paper.now said)) }
    ensures stopped { IfErr result (StopsTelling (TellsOf map.now game.now paper.now)
        (W.contents writer.old) (W.contents writer.new)) }
{
    match say(alloc, map, game, paper) {
        Err(_) => Err(CheckFault::Memory),
        Ok(said) => match said_text(alloc, paper, &said) {
            Err(_) => Err(CheckFault::Memory),
            Ok(text) => {
                tell(writer, text.as_slice())?;
                Ok(said)
            }
        },
    }
}

/// Tells in the end what the papers that were played are.
fn tell_end<W: Write>(
    alloc: Global,
    writer: &mut W,
    map: &Map,
    game: &Option<Public>,
) -> Result<bool, CheckFault>
    ensures right { IfOk result (λ right. right ≡ is_some game.now) }
    ensures told { OnOk result
        (Appends (W.contents writer.old) (W.contents writer.new) (end_text game.now)) }
    ensures stopped { IfErr result (StopsTelling (λ text. text ≡ end_text game.now)
        (W.contents writer.old) (W.contents writer.new)) }
{
    match end_text(alloc, game) {
        Err(_) => Err(CheckFault::Memory),
        Ok(text) => {
            tell(writer, text.as_bytes())?;
            Ok(game.is_some())
        }
    }
}

/// Tells of a paper that is longer than may be, where that is why the reading stops. The fault with which the check ends.
fn tell_stop<W: Write>(
    alloc: Global,
    writer: &mut W,
    ahead: &Ahead,
    fault: CheckFault,
) -> CheckFault
    requires { IsReadingFault fault }
    ensures { StopsReading fault (TellsTooLong ahead.now.bytes.items) (W.contents writer.old)
        (W.contents writer.new) result }
{
    match fault {
        CheckFault::TooLong => {
            match too_long_text(alloc, after_empty_lines(ahead.bytes.as_slice())) {
                Err(_) => CheckFault::Memory,
                Ok(text) => match tell(writer, text.as_slice()) {
                    Err(fault) => fault,
                    Ok(()) => CheckFault::TooLong,
                },
            }
        }
        _ => fault,
    }
}

/// Reads papers, and tells of each whether the rules give it next in the game, up to the first that is wrong. Whether all are right: just
/// where the input is the papers of a game of the map, from its opening on, with nothing but empty lines around them. One paper and one
/// board are in memory at a time. What comes after a wrong paper is read and isn't looked at. `progress` hears the count after each paper
/// that is right.
///
/// # Errors
/// `Read`; `TooLong` where a paper has more than `MOST_PAPER` bytes, of which it tells the line; `Write` or `Memory`.
pub fn check_papers<R: Read, W: Write, P: Progress>(
    alloc: Global,
    reader: &mut R,
    writer: &mut W,
    progress: &P,
    map: &Map,
) -> Result<bool, CheckFault>
    ensures checked { IfOk result (IsChecked map.now (R.remaining reader.old)
        (R.remaining reader.new) (W.contents writer.old) (W.contents writer.new)) }
    ensures exact { IfOk result (TellsIfGame map.now (R.remaining reader.old)) }
    ensures ends { IfErr result (EndsEarly map.now (R.remaining reader.old)
        (W.contents writer.old) (W.contents writer.new)) }
{
    papers_are_lines(map);
    papers_have_one_answer(map);
    let mut ahead = nothing_ahead(alloc);
    let mut game: Option<Public> = None;
    'papers: loop {
        let front = match next_front(reader, &mut ahead) {
            Ok(front) => front,
            Err(fault) => return Err(tell_stop(alloc, writer, &ahead, fault)),
        };
        let paper = after_empty_lines(front.as_slice());
        if paper.is_empty() {
            return tell_end(alloc, writer, map, &game);
        }
        match judge_next(alloc, writer, map, &game, paper)? {
            Said::Right(new) => {
                progress.hear(new.papers);
                game = Some(new);
            }
            _ => {
                skip_rest(reader, &ahead);
                return Ok(false);
            }
        }
    }
}
