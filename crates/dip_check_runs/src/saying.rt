//! What is said of bytes that are to come next in a game.
ghost use Rattle.std.specs.Prelude.{◌≡◌, IfOk, OnErr};
ghost use Rattle.std.specs.Str.{IsUtf8};
ghost use Rattle.dip_check_runs.specs.Runs.{HasBoard, IsSaid, IsSaidFirst, IsSaidNext, count_played};
ghost use Rattle.dip_desk_state.specs.Rows as rows;
ghost use Rattle.dip_map.specs.Boards.{IsOf};

use crate::papers::line_after;
use dip_check::check_paper;
use dip_check_papers::{Fault, Verdict, check_opening};
use dip_desk_state::Public;
use dip_map::Map;
use std::alloc::{AllocError, Global};
use std::str;

/// The judgement on bytes that should be a game's next paper.
#[derive(Drop)]
pub(crate) enum Said {
    /// They may come next, and leave the game so.
    Right(Public),
    /// They are a text that can't come next, and this is what is wrong in it.
    Wrong(Fault),
    /// They are no text: in this line, counted from 1, they are no UTF-8.
    NoText(usize),
}

/// The bytes as a text, or the line in which they are none.
pub(crate) fn text_of(bytes: &[u8]) -> Result<&str, usize>
    ensures text { IfOk result (λ t. t.now ≡ bytes.now) }
    ensures none { OnErr result (¬ IsUtf8 bytes.now) }
{
    match str::from_utf8(bytes) {
        Ok(text) => Ok(text),
        Err(error) => Err(line_after(bytes.get(..error.valid_up_to()).unwrap_or(bytes))),
    }
}

/// Judges bytes that should be the next paper of a game that stands so.
fn say_next(alloc: Global, map: &Map, before: &Public, bytes: &[u8]) -> Result<Said, AllocError>
    requires { IsOf map.now before.now.board.value }
    ensures { IfOk result (IsSaidNext map.now (rows.public before.now) bytes.now) }
{
    match text_of(bytes) {
        Err(line) => Ok(Said::NoText(line)),
        Ok(text) => match check_paper(alloc, map, before, text)? {
            Verdict::Right(new) => Ok(Said::Right(new)),
            Verdict::Wrong(fault) => Ok(Said::Wrong(fault)),
        },
    }
}

/// Judges bytes that should be a game's first paper, that of its opening.
fn say_first(alloc: Global, map: &Map, bytes: &[u8]) -> Result<Said, AllocError>
    ensures { IfOk result (IsSaidFirst map.now bytes.now) }
{
    match text_of(bytes) {
        Err(line) => Ok(Said::NoText(line)),
        Ok(text) => match check_opening(alloc, map, text)? {
            Verdict::Right(new) => Ok(Said::Right(new)),
            Verdict::Wrong(fault) => Ok(Said::Wrong(fault)),
        },
    }
}

/// What is said of the bytes that come after the papers that were played.
///
/// # Errors
/// Want of memory alone.
pub(crate) fn say(
    alloc: Global,
    map: &Map,
    game: &Option<Public>,
    bytes: &[u8],
) -> Result<Said, AllocError>
    requires { HasBoard map.now game.now }
    ensures { IfOk result (IsSaid map.now game.now bytes.now) }
{
    match game {
        None => say_first(alloc, map, bytes),
        Some(before) => say_next(alloc, map, before, bytes),
    }
}

/// How many papers were played.
pub(crate) fn count_played(game: &Option<Public>) -> u32
    ensures { result ≡ count_played game.now }
{
    match game {
        None => 0,
        Some(public) => public.papers,
    }
}
