//! The explanation of a phase.
ghost use Rattle.std.specs.Prelude.{◌≡◌, ◌++◌, IfOk, OnOk, string_bytes};
ghost use Rattle.dip_map.specs.Boards.{IsOf};
ghost use Rattle.dip_explain.specs.Phases.{HasOrders, lines_of, phase_explained};

use crate::movement::explain_movement;
use dip_explain_lines::{push_retreats, push_winter};
use dip_map::{Board, Map};
use dip_turn::{Account, Report};
use std::alloc::{AllocError, Global};

/// Appends the lines that explain what is told of a phase.
fn push_lines(
    alloc: Global,
    map: &Map,
    board: &Board,
    report: &Report,
    out: &mut String,
) -> Result<(), AllocError>
    requires of_map { IsOf map.now board.now }
    requires orders { HasOrders board.now report.now.account }
    ensures { OnOk result (string_bytes out.new ≡ string_bytes out.old ++ lines_of map.now board.now
        report.now.account) }
{
    match &report.account {
        Account::Movement(told) => {
            explain_movement(alloc, map, board, &told.orders, &told.resolution, out)
        }
        Account::Retreats(lines) => push_retreats(alloc, map, board, lines.as_slice(), out),
        Account::Adjustment(told) => push_winter(alloc, map, board, told, out),
    }
}

/// Why the phase of a board came out as its report tells. For a movement there is a line for each step that decides it, which rests on those
/// above it; for retreats one for each dislodged unit, with its neighbouring places and what closed them; for a Winter one for each build,
/// removal and waiver, with the numbers that it rests on.
///
/// # Errors
/// Want of memory alone.
pub fn explain_phase(
    alloc: Global,
    map: &Map,
    board: &Board,
    report: &Report,
) -> Result<String, AllocError>
    requires of_map { IsOf map.now board.now }
    requires orders { HasOrders board.now report.now.account }
    ensures { IfOk result (λ t. string_bytes t ≡ phase_explained map.now board.now report.now) }
{
    let mut out = String::new(alloc);
    push_lines(alloc, map, board, report, &mut out)?;
    if out.as_bytes().is_empty() {
        return String::from_str(alloc, "nothing was to be decided\n");
    }
    Ok(out)
}
