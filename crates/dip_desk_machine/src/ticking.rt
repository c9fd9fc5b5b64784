//! What TICK comes to: the phase of a game that is due is adjudicated with the orders that stand, and its paper published.
ghost use Rattle.std.specs.Prelude.{◌≡◌, ◌≤◌, ◌<◌, IfOk, IsErrOf};
ghost use Rattle.dip_map.specs.Boards.{IsOf};
ghost use Rattle.dip_desk_games.specs.Drawing.{drawn_between};
ghost use Rattle.dip_desk_state.specs.Bounds.{most_papers};
ghost use Rattle.dip_desk_state.specs.Faults.{faults_after};
ghost use Rattle.dip_desk_machine.specs.MasterCommands as c;
ghost use Rattle.dip_desk_games.specs.Ticking as t;
ghost use Rattle.dip_desk_games.specs.Verdicts.{verdict};
ghost use Rattle.dip_desk_state.specs.Rows as rows;

use crate::drawing::draw_verdict;
use dip_desk_games::{
    Verdict, drawn_between, is_due, is_over, orders_of, public_played, refusal_verdict,
};
use dip_desk_state::{Effect, KeepFault, MOST_PAPERS, Public, Whole};
use dip_map::Map;
use dip_reports::{Refusal, paper_line};
use dip_turn::{Report, advance};
use dip_turn_papers::paper_text;
use std::alloc::{AllocError, Global};

/// A phase that was adjudicated: its paper is published.
fn paper_verdict(
    alloc: Global,
    map: &Map,
    report: &Report,
    public: Public,
) -> Result<Verdict, AllocError>
    ensures { IfOk result
        (λ v. verdict v ≡ c.paper_verdict map.now report.now (rows.public public)) }
{
    let line = paper_line(alloc, public.papers)?;
    let paper = paper_text(alloc, map, report, &public)?;
    Ok(Verdict::Taken(
        line,
        Effect::Publishes {
            public,
            paper,
            played: true,
        },
    ))
}

/// The phase of a game is adjudicated with the orders that stand; `Damaged` where it can't be.
fn phase_verdict(alloc: Global, map: &Map, tick: u64, whole: Whole) -> Result<Verdict, KeepFault>
    requires timely { tick ≤ 999999999999 }
    requires room { whole.public.papers < most_papers }
    requires board { IsOf map.now whole.public.board.value }
    ensures value { IfOk result (λ v. c.IsPublished map.now tick (rows.whole whole) (verdict v)) }
    ensures disk { faults_after result 0 ≡ 0 }
    ensures sane { IsErrOf result KeepFault.Damaged
        → t.IsPlayable map.now (rows.whole whole) → ⊥ }
{
    let Whole { public, seats } = whole;
    let before = public.board.copy(alloc)?;
    let orders = orders_of(alloc, map, &before, seats.as_slice())?;
    match advance(alloc, map, before, orders.as_slice()) {
        Err(_) => Err(KeepFault::Memory),
        Ok((board, report)) => {
            let after = public_played(alloc, tick, public, board, report.course)?;
            Ok(paper_verdict(alloc, map, &report, after)?)
        }
    }
}

/// What a due tick comes to: a draw where all survivors ask for the same, or else the phase is adjudicated; `Damaged` where it can't be.
fn on_time(alloc: Global, map: &Map, tick: u64, whole: Whole) -> Result<Verdict, KeepFault>
    requires timely { tick ≤ 999999999999 }
    ensures value { IfOk result
        (λ v. c.OnTime map.now tick (rows.whole whole) (drawn_between map.now (rows.whole whole))
        (verdict v)) }
    ensures disk { faults_after result 0 ≡ 0 }
    ensures sane { IsErrOf result KeepFault.Damaged
        → t.IsPlayable map.now (rows.whole whole) → ⊥ }
{
    let public = &whole.public;
    if !public.board.is_of(map) || MOST_PAPERS <= public.papers {
        return Err(KeepFault::Damaged);
    }
    match drawn_between(alloc, map, &whole)? {
        Some(powers) => {
            let Whole { public, .. } = whole;
            Ok(draw_verdict(alloc, map, public, powers)?)
        }
        None => phase_verdict(alloc, map, tick, whole),
    }
}

/// What TICK comes to in a game: nothing is played in one that is over, nor before its time.
pub fn tick_verdict(alloc: Global, map: &Map, tick: u64, whole: Whole) -> Result<Verdict, KeepFault>
    requires timely { tick ≤ 999999999999 }
    ensures value { IfOk result (λ v. c.Ticks map.now tick (rows.whole whole)
        (t.is_over (rows.status whole.public.status)) (t.is_due tick (rows.public whole.public))
        (verdict v)) }
    ensures disk { faults_after result 0 ≡ 0 }
    ensures sane { IsErrOf result KeepFault.Damaged
        → t.IsPlayable map.now (rows.whole whole) → ⊥ }
{
    if is_over(&whole.public.status) {
        return Ok(refusal_verdict(alloc, Refusal::GameOver)?);
    }
    if !is_due(tick, &whole.public) {
        return Ok(refusal_verdict(alloc, Refusal::NotDue)?);
    }
    on_time(alloc, map, tick, whole)
}
