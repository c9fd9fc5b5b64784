//! What the lines of a paper tell, taken from a report.
ghost use Rattle.std.specs.Prelude.{◌≡◌, ◌++◌, IfOk, OnOk, map as each};
ghost use Rattle.dip_turn_papers.specs.Papers.{adjusted_lines, disorder_lines, moved_lines, retreated_lines, unit_line};

use crate::lines::{PaperLine, Told};
use dip_names::Unit;
use dip_orders::{Order, PlacedOrder};
use dip_turn_phases::{Adjustment, MovementLine, RetreatLine};
use std::alloc::{AllocError, Global};

/// A paper's lines for the orders of a movement, in their order.
pub(crate) fn moved_lines(
    alloc: Global,
    lines: &[MovementLine],
) -> Result<Vec<PaperLine>, AllocError>
    ensures { IfOk result (λ v. v.items ≡ moved_lines lines.now) }
{
    let mut made = Vec::with_capacity(alloc, lines.len())?;
    for line in lines {
        made.push(PaperLine {
            placed: line.placed,
            told: Told::Moved(line.outcome, line.fate),
        })?;
    }
    Ok(made)
}

/// A paper's lines for the dislodged units, in their order: each retreated or disbanded.
pub(crate) fn retreated_lines(
    alloc: Global,
    lines: &[RetreatLine],
) -> Result<Vec<PaperLine>, AllocError>
    ensures { IfOk result (λ v. v.items ≡ retreated_lines lines.now) }
{
    let mut made = Vec::with_capacity(alloc, lines.len())?;
    for line in lines {
        made.push(PaperLine {
            placed: line.placed,
            told: if line.is_made {
                Told::Retreats
            } else {
                Told::Disbands
            },
        })?;
    }
    Ok(made)
}

/// Appends a line for each of these units, with this order.
fn add_units(
    lines: &mut Vec<PaperLine>,
    units: &[Unit],
    order: &Order,
    told: Told,
) -> Result<(), AllocError>
    ensures { OnOk result
        (lines.new.items ≡ lines.old.items ++ each (unit_line order.now told) units.now) }
{
    for unit in units {
        lines.push(PaperLine {
            placed: PlacedOrder {
                unit: *unit,
                order: *order,
            },
            told,
        })?;
    }
    Ok(())
}

/// The lines of builds and of removals that were given.
pub(crate) fn adjusted_lines(alloc: Global, told: &Adjustment) -> Result<Vec<PaperLine>, AllocError>
    ensures { IfOk result (λ v. v.items ≡ adjusted_lines told.now) }
{
    let mut lines = Vec::new(alloc);
    add_units(
        &mut lines,
        told.builds.as_slice(),
        &Order::Build,
        Told::Built,
    )?;
    add_units(
        &mut lines,
        told.removals.as_slice(),
        &Order::Remove,
        Told::Removed,
    )?;
    Ok(lines)
}

/// A paper's lines for the units that were removed since their power owed removals and gave none.
pub(crate) fn disorder_lines(alloc: Global, told: &Adjustment) -> Result<Vec<PaperLine>, AllocError>
    ensures { IfOk result (λ v. v.items ≡ disorder_lines told.now) }
{
    let mut lines = Vec::new(alloc);
    let units = told.disorder.as_slice();
    add_units(&mut lines, units, &Order::Remove, Told::RemovedInDisorder)?;
    Ok(lines)
}
