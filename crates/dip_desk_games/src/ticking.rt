//! When a game's phase is due, and how the game stands after it.
ghost use Rattle.std.specs.Prelude.{◌≡◌, ◌≤◌, ◌<◌, IfOk};
ghost use Rattle.dip_desk_games.specs.Ticking as t;
ghost use Rattle.dip_desk_state.specs.Bounds.{most_papers};
ghost use Rattle.dip_desk_state.specs.Rows as rows;

use dip_desk_state::{Public, Status};
use dip_map::Board;
use dip_turn_phases::Course;
use std::alloc::{AllocError, Global};
use std::rc::Rc;

/// Whether a game is over: nothing is adjudicated any more, and no orders are taken.
pub fn is_over(status: &Status) -> bool
    ensures { result ≡ t.is_over (rows.status status.now) }
{
    match status {
        Status::Running | Status::Paused => false,
        Status::Closed | Status::Ended | Status::Won(_) | Status::Drawn(_) => true,
    }
}

/// Whether the game is running.
fn is_running(status: &Status) -> bool
    ensures { result ≡ t.is_running (rows.status status.now) }
{
    match status {
        Status::Running => true,
        Status::Paused | Status::Closed | Status::Ended | Status::Won(_) | Status::Drawn(_) =>
            false,
    }
}

/// Whether a game's phase may be adjudicated at this tick.
pub fn is_due(tick: u64, public: &Public) -> bool
    ensures { result ≡ t.is_due tick (rows.public public.now) }
{
    is_running(&public.status) && public.due <= tick
}

/// How a game stands after a phase.
fn status_after(course: Course) -> Status
    ensures { rows.status result ≡ t.status_after course }
{
    match course {
        Course::GoesOn => Status::Running,
        Course::Won(power) => Status::Won(power),
        Course::Ended => Status::Ended,
    }
}

/// The tick from which on the phase after this one is due; a game that is over keeps the old one.
fn due_after(tick: u64, due: u64, period: u32, course: Course) -> u64
    requires { tick ≤ 999999999999 }
    ensures { result ≡ t.due_after tick due period course }
{
    match course {
        Course::GoesOn => tick + u64::from(period),
        Course::Won(_) | Course::Ended => due,
    }
}

/// The public part of a game after a phase that came to this board.
pub fn public_played(
    alloc: Global,
    tick: u64,
    public: Public,
    board: Board,
    course: Course,
) -> Result<Public, AllocError>
    requires timely { tick ≤ 999999999999 }
    requires room { public.papers < most_papers }
    ensures { IfOk result (λ p. rows.public p ≡ t.public_played tick (rows.public public) board
        course) }
{
    Ok(Public {
        board: Rc::new(alloc, board)?,
        status: status_after(course),
        due: due_after(tick, public.due, public.period, course),
        papers: public.papers + 1,
        ..public
    })
}
