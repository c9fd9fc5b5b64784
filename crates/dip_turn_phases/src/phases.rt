//! The next phase, and whether the game goes on.
ghost use Rattle.std.specs.Prelude.{◌≡◌, ◌==◌, ◌<◌, ◌&&◌, not, IfOk, length};
ghost use Rattle.std.specs.List.{list_any};
ghost use Rattle.dip_turn_phases.specs.Centres as c;
ghost use Rattle.dip_turn_phases.specs.Phases as p;

use crate::centres::{winner, with_owners};
use crate::lines::Course;
use dip_map::{Board, Map, Phase, Season};
use dip_names::Power;
use dip_orders::{builds_due, removals_due};
use std::alloc::{AllocError, Global};

/// The last year of a game: after its last phase the game ends, if nobody has won.
const LAST_YEAR: u16 = 2900;

/// Whether a power has to build or remove.
fn is_uneven(map: &Map, board: &Board, power: Power) -> bool
    ensures { result ≡ p.is_uneven map.now board.now power }
{
    !(builds_due(map, board, power) == 0 && removals_due(board, power) == 0)
}

/// Whether some power has to build or to remove.
fn needs_adjustment(map: &Map, board: &Board) -> bool
    ensures { result ≡ p.needs_adjustment map.now board.now }
{
    for power in map.each_power() {
        if is_uneven(map, board, power) {
            return true;
        }
    }
    false
}

/// The board with everything as it stands, in another phase.
fn in_phase(alloc: Global, board: &Board, year: u16, season: Season) -> Result<Board, AllocError>
    ensures { IfOk result (λ b. b ≡ p.in_phase board.now year season) }
{
    let units = board.units().to_vec(alloc)?;
    let dislodged = board.dislodged().to_vec(alloc)?;
    let standoff = board.standoff().to_vec(alloc)?;
    let owners = board.owners().to_vec(alloc)?;
    Ok(Board::of(
        units,
        dislodged,
        standoff,
        owners,
        Phase { year, season },
        board.intent(),
    ))
}

/// The board in another season of the year.
fn goes_on(alloc: Global, board: &Board, season: Season) -> Result<(Board, Course), AllocError>
    ensures { IfOk result (λ r. p.sequel r.0 r.1 ≡ p.goes_on board.now season) }
{
    let year = board.phase().year;
    let next = in_phase(alloc, board, year, season)?;
    Ok((next, Course::GoesOn))
}

/// What follows the last phase of a year: the next year's Spring; or the game's end, which keeps
/// its phase.
fn new_year(alloc: Global, board: Board) -> Result<(Board, Course), AllocError>
    ensures { IfOk result (λ r. p.sequel r.0 r.1 ≡ p.new_year board) }
{
    let year = board.phase().year;
    if LAST_YEAR <= year {
        return Ok((board, Course::Ended));
    }
    let next = in_phase(alloc, &board, year + 1, Season::SpringMoves)?;
    Ok((next, Course::GoesOn))
}

/// What follows once the centres changed hands: a game that is won keeps its phase, and Winter is
/// skipped where nobody builds or removes.
fn after_count(alloc: Global, map: &Map, board: Board) -> Result<(Board, Course), AllocError>
    ensures { IfOk result
        (λ r. p.sequel r.0 r.1 ≡ p.after_count map.now board (c.winner map.now board)) }
{
    if let Some(power) = winner(map, &board) {
        return Ok((board, Course::Won(power)));
    }
    if needs_adjustment(map, &board) {
        goes_on(alloc, &board, Season::Winter)
    } else {
        new_year(alloc, board)
    }
}

/// What follows Fall and its retreats: the centres change hands.
fn year_end(alloc: Global, map: &Map, board: &Board) -> Result<(Board, Course), AllocError>
    requires owners { length board.now.owners ≡ length map.now.provinces }
    ensures { IfOk result (λ r. p.sequel r.0 r.1 ≡ p.year_end map.now board.now) }
{
    let next = with_owners(alloc, map, board)?;
    after_count(alloc, map, next)
}

/// Whether a unit is dislodged.
fn has_dislodged(board: &Board) -> bool
    ensures { result ≡ p.has_dislodged board.now }
{
    0 < board.dislodged().len()
}

/// What follows a phase, on the board that it left.
pub fn follow(
    alloc: Global,
    map: &Map,
    season: Season,
    board: Board,
) -> Result<(Board, Course), AllocError>
    requires owners { length board.owners ≡ length map.now.provinces }
    ensures { IfOk result (λ r. p.sequel r.0 r.1 ≡ p.follow map.now season board) }
{
    match season {
        Season::SpringMoves => {
            if has_dislodged(&board) {
                goes_on(alloc, &board, Season::SpringRetreats)
            } else {
                goes_on(alloc, &board, Season::FallMoves)
            }
        }
        Season::SpringRetreats => goes_on(alloc, &board, Season::FallMoves),
        Season::FallMoves => {
            if has_dislodged(&board) {
                goes_on(alloc, &board, Season::FallRetreats)
            } else {
                year_end(alloc, map, &board)
            }
        }
        Season::FallRetreats => year_end(alloc, map, &board),
        Season::Winter => new_year(alloc, board),
    }
}
