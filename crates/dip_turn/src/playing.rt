//! A phase, adjudicated.
ghost use Rattle.std.specs.Prelude.{◌≡◌, IfOk, IfErr, length};
ghost use Rattle.dip_map.specs.Boards.{IsOf};
ghost use Rattle.dip_turn_phases.specs.Phases as p;
ghost use Rattle.dip_turn.specs.Reports.{IsMoved, IsAdjusted, LeavesMoved, LeavesRetreated, LeavesAdjusted, Leaves, IsPlayed};

use dip_decide::{orders_as_meant, resolve};
use dip_map::{Board, Map, Season};
use dip_orders::{Orders, PlacedOrder, each_unit_has_one_order};
use dip_turn_phases::{
    Account, Adjustment, Movement, Report, after_adjustment, after_retreats, centre_lines, follow,
    moved_board, movement_lines, retreat_lines, units_built, units_given, units_in_disorder,
    waivers, without_destroyed,
};
use std::alloc::{AllocError, Global};

/// The board that a movement leaves, and what is told of it.
fn move_units(
    alloc: Global,
    map: &Map,
    board: &Board,
    pending: &[PlacedOrder],
) -> Result<(Board, Movement), AllocError>
    requires of_map { IsOf map.now board.now }
    ensures { IfOk result (λ r. IsMoved map.now board.now pending.now r.0 r.1) }
{
    let orders = Orders::standing(alloc, board, pending)?;
    each_unit_has_one_order();
    let resolution = resolve(alloc, map, board, &orders)?;
    let meant = orders_as_meant(alloc, map, board, orders.as_slice())?;
    let moved = moved_board(alloc, map, board, &resolution, meant.as_slice())?;
    let lines = movement_lines(
        alloc,
        map,
        &moved,
        &resolution,
        meant.as_slice(),
        orders.as_slice(),
    )?;
    let left = without_destroyed(alloc, map, &moved)?;
    Ok((
        left,
        Movement {
            orders,
            resolution,
            lines,
        },
    ))
}

/// The board that builds and removals leave, and what is told of them.
fn adjust_units(
    alloc: Global,
    map: &Map,
    board: &Board,
    pending: &[PlacedOrder],
) -> Result<(Board, Adjustment), AllocError>
    ensures { IfOk result (λ r. IsAdjusted map.now board.now pending.now r.0 r.1) }
{
    let left = after_adjustment(alloc, map, board, pending)?;
    let builds = units_built(alloc, pending)?;
    let removals = units_given(alloc, board, pending)?;
    let disorder = units_in_disorder(alloc, map, board, pending)?;
    let waivers = waivers(alloc, map, board, pending)?;
    Ok((
        left,
        Adjustment {
            builds,
            removals,
            disorder,
            waivers,
        },
    ))
}

/// Plays a movement: the board that it leaves, and what is told of it.
fn play_movement(
    alloc: Global,
    map: &Map,
    board: &Board,
    pending: &[PlacedOrder],
) -> Result<(Board, Account), AllocError>
    requires of_map { IsOf map.now board.now }
    ensures { IfOk result (λ r. LeavesMoved map.now board.now pending.now r.0 r.1) }
{
    let (left, movement) = move_units(alloc, map, board, pending)?;
    Ok((left, Account::Movement(movement)))
}

/// Plays retreats: the board that they leave, and what is told of them.
fn play_retreats(
    alloc: Global,
    board: &Board,
    pending: &[PlacedOrder],
) -> Result<(Board, Account), AllocError>
    ensures { IfOk result (λ r. LeavesRetreated board.now pending.now r.0 r.1) }
{
    let left = after_retreats(alloc, board, pending)?;
    let lines = retreat_lines(alloc, board, pending)?;
    Ok((left, Account::Retreats(lines)))
}

/// Plays a Winter: the board that it leaves, and what is told of it.
fn play_adjustment(
    alloc: Global,
    map: &Map,
    board: &Board,
    pending: &[PlacedOrder],
) -> Result<(Board, Account), AllocError>
    ensures { IfOk result (λ r. LeavesAdjusted map.now board.now pending.now r.0 r.1) }
{
    let (left, adjustment) = adjust_units(alloc, map, board, pending)?;
    Ok((left, Account::Adjustment(adjustment)))
}

/// The board that its phase leaves, and what is told of it.
fn left_by(
    alloc: Global,
    map: &Map,
    board: &Board,
    pending: &[PlacedOrder],
) -> Result<(Board, Account), AllocError>
    requires of_map { IsOf map.now board.now }
    ensures { IfOk result
        (λ r. Leaves map.now board.now.phase.season board.now pending.now r.0 r.1) }
{
    match board.phase().season {
        Season::SpringMoves | Season::FallMoves => play_movement(alloc, map, board, pending),
        Season::SpringRetreats | Season::FallRetreats => play_retreats(alloc, board, pending),
        Season::Winter => play_adjustment(alloc, map, board, pending),
    }
}

/// Plays the phase of the board by these orders: the next board, and its report.
fn play(
    alloc: Global,
    map: &Map,
    board: &Board,
    pending: &[PlacedOrder],
) -> Result<(Board, Report), AllocError>
    requires of_map { IsOf map.now board.now }
    ensures { IfOk result (λ r. IsPlayed map.now board.now pending.now r.0 r.1) }
{
    let (left, account) = left_by(alloc, map, board, pending)?;
    let (next, course) = follow(alloc, map, board.phase().season, left)?;
    let centres = centre_lines(alloc, map, board, &next)?;
    Ok((
        next,
        Report {
            phase: board.phase(),
            account,
            centres,
            course,
        },
    ))
}

/// Adjudicates the board's phase with the orders that stand, and gives the board after it and what is told of it.
///
/// In a movement each unit has the first order in force that is its own, else it holds; among the retreats a dislodged unit has
/// the first order to retreat or disband that is its own, else it disbands; in Winter the builds and removals among the orders
/// are made. A game that is won or has ended keeps its last phase.
///
/// # Errors
/// Want of memory alone, and the board as it was.
pub fn advance(
    alloc: Global,
    map: &Map,
    board: Board,
    pending: &[PlacedOrder],
) -> Result<(Board, Report), (Board, AllocError)>
    requires of_map { IsOf map.now board }
    ensures played { IfOk result (λ r. IsPlayed map.now board pending.now r.0 r.1) }
    ensures err { IfErr result (λ e. e.0 ≡ board) }
{
    match play(alloc, map, &board, pending) {
        Ok(next) => Ok(next),
        Err(error) => Err((board, error)),
    }
}
