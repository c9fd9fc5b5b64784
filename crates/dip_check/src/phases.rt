//! The paper of a phase: its orders are read and played again, and its paper is made and compared.
ghost use Rattle.std.specs.Prelude.{◌≡◌, ◌≤◌, ◌<◌, IfNone, IfOk, IfSome, string_bytes, true};
ghost use Rattle.dip_check_papers.specs.Checks.{IsJudgedNext, IsToldWrong, paper_at};
ghost use Rattle.dip_check.specs.Phases.{IsComparedPhase, IsJudged, IsJudgedBy};
ghost use Rattle.dip_check_papers.specs.Games.{IsPhase, IsPhaseOf};
ghost use Rattle.dip_desk_games.specs.ByPlace.{are_by_place};
ghost use Rattle.dip_desk_games.specs.Ticking as played;
ghost use Rattle.dip_desk_games.specs.Ticking.{is_due};
ghost use Rattle.dip_desk_state.specs.Bounds.{most_papers};
ghost use Rattle.dip_desk_state.specs.Records as records;
ghost use Rattle.dip_desk_state.specs.Rows as rows;
ghost use Rattle.dip_map.specs.Boards.{IsOf};
ghost use Rattle.dip_orders.specs.Given.{AreGiven};

use dip_check_papers::{
    Fault, LAST_TICK, Printed, Verdict, Wanted, are_given, fault_at, first_difference,
    orders_printed, tick_told,
};
use dip_desk_games::{is_due, public_played};
use dip_desk_state::{MOST_PAPERS, Public};
use dip_map::{Board, Map};
use dip_orders::{PlacedOrder, lawful_orders_are_read, orders_are_lawful, orders_are_read_again};
use dip_turn::{Report, advance, boards_stay_of_their_map, phases_have_one_result};
use dip_turn_papers::paper_text;
use std::alloc::{AllocError, Global};

/// A second copy of a public part; both share the board.
fn copy_of(alloc: Global, public: &Public) -> Result<Public, AllocError>
    ensures { IfOk result (λ p. rows.public p ≡ rows.public public.now) }
{
    Ok(Public {
        game: public.game.clone()?,
        board: public.board.clone()?,
        status: public.status.copy(alloc)?,
        due: public.due,
        period: public.period,
        grey: public.grey,
        papers: public.papers,
    })
}

/// What is said of a text that is to be the paper of a phase.
#[derive(Drop)]
pub(crate) enum Judged {
    /// It is: this is what became of the phase, and the game stands so.
    Right(Report, Public),
    /// It isn't: the text is wrong in this line.
    Wrong(Fault),
}

/// What is said of a text that is to be this paper of a phase.
fn compared_phase(
    alloc: Global,
    text: &str,
    wanted: &str,
    report: Report,
    after: Public,
) -> Result<Judged, AllocError>
    ensures { IfOk result (λ j. IsComparedPhase text.now wanted.now report after j) }
{
    if text == wanted {
        return Ok(Judged::Right(report, after));
    }
    Ok(Judged::Wrong(first_difference(alloc, text, wanted)?))
}

/// The public part after a phase that was played at this tick and came to this board, and its paper.
fn played_at(
    alloc: Global,
    map: &Map,
    before: &Public,
    tick: u64,
    board: Board,
    report: &Report,
) -> Result<(Public, String), AllocError>
    requires timely { tick ≤ 999999999999 }
    requires room { before.now.papers < most_papers }
    ensures after { IfOk result (λ r. rows.public r.0
        ≡ played.public_played tick (rows.public before.now) board report.now.course) }
    ensures paper { IfOk result (λ r. string_bytes r.1
        ≡ paper_at map.now (rows.public before.now) tick board report.now) }
{
    let public = copy_of(alloc, before)?;
    let after = public_played(alloc, tick, public, board, report.course)?;
    let paper = paper_text(alloc, map, report, &after)?;
    Ok((after, paper))
}

/// What is said of a text that is to be the paper of these orders. It is compared with their paper at the tick that it tells where their
/// papers tell theirs, so that no other one is like it further.
fn judged_played(
    alloc: Global,
    map: &Map,
    before: &Public,
    orders: &[PlacedOrder],
    text: &str,
) -> Result<Judged, AllocError>
    requires of_map { IsOf map.now before.now.board.value }
    requires room { before.now.papers < most_papers }
    requires due { is_due 999999999999 (rows.public before.now) ≡ true }
    requires given { AreGiven map.now before.now.board.value orders.now }
    requires placed { are_by_place orders.now ≡ true }
    ensures { IfOk result (λ j. IsJudgedBy map.now (rows.public before.now) orders.now text.now j) }
{
    map.facts();
    boards_stay_of_their_map();
    phases_have_one_result();
    let board = before.board.copy(alloc)?;
    match advance(alloc, map, board, orders) {
        Err((_, error)) => Err(error),
        Ok((board, report)) => {
            let again = board.copy(alloc)?;
            let (_first, earliest) = played_at(alloc, map, before, before.due, again, &report)?;
            let tick = tick_told(before, earliest.as_str(), text);
            let (after, wanted) = played_at(alloc, map, before, tick, board, &report)?;
            compared_phase(alloc, text, wanted.as_str(), report, after)
        }
    }
}

/// What is said of a text that is to be the paper of the game's phase.
fn judged_phase(alloc: Global, map: &Map, before: &Public, text: &str) -> Result<Judged, AllocError>
    requires of_map { IsOf map.now before.now.board.value }
    requires room { before.now.papers < most_papers }
    requires due { is_due 999999999999 (rows.public before.now) ≡ true }
    ensures { IfOk result (λ j. IsJudged map.now (rows.public before.now) text.now j) }
{
    map.facts();
    orders_are_read_again();
    orders_are_lawful();
    lawful_orders_are_read();
    match orders_printed(alloc, map, &before.board, text)? {
        Printed::NoOrder(fault) => Ok(Judged::Wrong(fault)),
        Printed::Orders(orders) => {
            if are_given(alloc, map, &before.board, orders.as_slice())? {
                judged_played(alloc, map, before, orders.as_slice(), text)
            } else {
                Ok(Judged::Wrong(fault_at(alloc, 2, "", Wanted::AnOrder)?))
            }
        }
    }
}

/// What is said of a text that is to be the paper of the game's phase: it is right only where it is one, and wrong only where none has
/// that text. Where it prints orders that can be given, each of their papers differs from it in the line told or before it.
pub(crate) fn check_phase(
    alloc: Global,
    map: &Map,
    before: &Public,
    text: &str,
) -> Result<Verdict, AllocError>
    requires of_map { IsOf map.now before.now.board.value }
    requires room { before.now.papers < most_papers }
    requires due { is_due 999999999999 (rows.public before.now) ≡ true }
    ensures judged { IfOk result (λ v. IsJudgedNext map.now (rows.public before.now) text.now
        (IsPhase map.now (rows.public before.now) text.now) v) }
    ensures told { IfOk result (λ v. IsToldWrong map.now (rows.public before.now) text.now v) }
{
    match judged_phase(alloc, map, before, text)? {
        Judged::Right(_report, after) => Ok(Verdict::Right(after)),
        Judged::Wrong(fault) => Ok(Verdict::Wrong(fault)),
    }
}

/// The report of a phase whose paper may come next in a game that stands so: what became of its orders, with the steps that explain it.
/// Nothing where the text isn't the paper of the game's phase.
///
/// # Errors
/// Want of memory alone.
pub fn phase_of(
    alloc: Global,
    map: &Map,
    before: &Public,
    text: &str,
) -> Result<Option<Report>, AllocError>
    requires of_map { IsOf map.now before.now.board.value }
    ensures found { IfOk result (λ found. IfSome found (λ report. (new : records.Public)
        × IsPhaseOf map.now (rows.public before.now) text.now report new)) }
    ensures none { IfOk result (λ found. IfNone found ((new : records.Public)
        → before.now.papers < most_papers
        → IsPhase map.now (rows.public before.now) text.now new → ⊥)) }
{
    if MOST_PAPERS <= before.papers || !is_due(LAST_TICK, before) {
        return Ok(None);
    }
    match judged_phase(alloc, map, before, text)? {
        Judged::Right(report, _after) => Ok(Some(report)),
        Judged::Wrong(_fault) => Ok(None),
    }
}
