//! A text that is to come next in a game.
ghost use Rattle.std.specs.Prelude.{◌≡◌, ◌<◌, ◌+◌, ◌⊎◌, IfOk, true};
ghost use Rattle.dip_check_papers.specs.Checks.{IsJudgedNext, IsJudgedPaper, IsToldWrong};
ghost use Rattle.dip_check_papers.specs.Games.{IsDraw, IsNotice};
ghost use Rattle.dip_check_papers.specs.Printed.{first_line_of, title_words};
ghost use Rattle.dip_desk_games.specs.Ticking.{is_due};
ghost use Rattle.dip_desk_state.specs.Bounds.{most_papers};
ghost use Rattle.dip_desk_state.specs.Rows as rows;
ghost use Rattle.dip_map.specs.Boards.{IsOf};

use crate::phases::check_phase;
use dip_check_papers::{
    LAST_TICK, Verdict, Wanted, check_draw, check_notice, fault_at, first_line, other_line,
    phase_title, title_of,
};
use dip_desk_games::is_due;
use dip_desk_state::{MOST_PAPERS, Public};
use dip_map::Map;
use std::alloc::{AllocError, Global};

/// Whether a text begins with the title of the game's phase, as each paper of the phase does.
fn has_phase_title(alloc: Global, before: &Public, text: &str) -> Result<bool, AllocError>
    ensures title { IfOk result (λ r. r ≡ true → (first_line_of text.now).0
        ≡ title_words (before.now.papers + 1) before.now.board.value.phase) }
    ensures titled { IfOk result (λ r. (first_line_of text.now).0
        ≡ title_words (before.now.papers + 1) before.now.board.value.phase → r ≡ true) }
{
    let wanted = phase_title(alloc, before)?;
    Ok(first_line(text) == wanted.as_str())
}

/// What is said of a text that has no notice's title, and is to come next in a game that goes on and may be due: it is a draw's paper, or
/// wrong.
fn check_on_time(
    alloc: Global,
    map: &Map,
    before: &Public,
    text: &str,
) -> Result<Verdict, AllocError>
    requires of_map { IsOf map.now before.now.board.value }
    requires room { before.now.papers < most_papers }
    requires due { is_due 999999999999 (rows.public before.now) ≡ true }
    ensures { IfOk result (λ v. IsJudgedNext map.now (rows.public before.now) text.now
        (IsDraw map.now (rows.public before.now) text.now) v) }
{
    let title = first_line(text);
    if title == title_of(alloc, before, "draw")?.as_str() {
        return check_draw(alloc, map, before, LAST_TICK, text);
    }
    let wanted = phase_title(alloc, before)?;
    Ok(Verdict::Wrong(other_line(alloc, 1, title, wanted.as_str())?))
}

/// What is said of a text that is to come next in a game, and is no paper of the game's phase: by its title it is a notice or a draw, and
/// it is wrong only where it is the paper of neither.
fn check_other(alloc: Global, map: &Map, before: &Public, text: &str) -> Result<Verdict, AllocError>
    requires of_map { IsOf map.now before.now.board.value }
    requires room { before.now.papers < most_papers }
    ensures { IfOk result (λ v. IsJudgedNext map.now (rows.public before.now) text.now
        (λ new. IsNotice map.now (rows.public before.now) text.now new
        ⊎ IsDraw map.now (rows.public before.now) text.now new) v) }
{
    let title = first_line(text);
    let wanted = title_of(alloc, before, "notice")?;
    if title == wanted.as_str() {
        return check_notice(alloc, map, before, text);
    }
    if is_due(LAST_TICK, before) {
        return check_on_time(alloc, map, before, text);
    }
    Ok(Verdict::Wrong(other_line(alloc, 1, title, wanted.as_str())?))
}

/// What is said of a text that is to come next in a game that stands so: by its title it is a notice, a draw or a phase.
///
/// It is right just where it is a paper that the rules give: of a phase that some orders that can be given leave, at a tick from the due
/// one on; of a draw between survivors; or of a notice that a letter may ask for. Where there is such a paper with that text, it is right.
/// Of a wrong text with the phase's title, in a game that may be due, each paper that the orders which it prints may have, at whatever
/// tick, differs from it in the line told or before it.
///
/// # Errors
/// Want of memory alone.
pub fn check_paper(
    alloc: Global,
    map: &Map,
    before: &Public,
    text: &str,
) -> Result<Verdict, AllocError>
    requires of_map { IsOf map.now before.now.board.value }
    ensures judged { IfOk result (λ v. IsJudgedPaper map.now (rows.public before.now) text.now v) }
    ensures told { IfOk result (λ v. before.now.papers < most_papers
        → is_due 999999999999 (rows.public before.now) ≡ true → (first_line_of text.now).0
        ≡ title_words (before.now.papers + 1) before.now.board.value.phase
        → IsToldWrong map.now (rows.public before.now) text.now v) }
{
    if MOST_PAPERS <= before.papers {
        let title = first_line(text);
        return Ok(Verdict::Wrong(fault_at(alloc, 1, title, Wanted::NoLine)?));
    }
    if !has_phase_title(alloc, before, text)? {
        return check_other(alloc, map, before, text);
    }
    if !is_due(LAST_TICK, before) {
        return check_other(alloc, map, before, text);
    }
    check_phase(alloc, map, before, text)
}
