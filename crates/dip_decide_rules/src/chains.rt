//! Convoys: whether fleets that are not dislodged lead from a unit to its destination.
ghost use Rattle.std.specs.Prelude.{◌∷◌, [], IfOk, OnOk};
ghost use Rattle.dip_decide_rules.specs.Given.{situation_of};
ghost use Rattle.dip_decide_rules.specs.Movement.{is_listed};
ghost use Rattle.dip_decide_rules.specs.Chains.{IsSought, IsSpread};

use dip_decide_table::{Table, is_in};
use dip_names::Prov;
use std::alloc::AllocError;

/// Adds a fleet, if it is next to a province and wasn't reached before.
fn spread_to(
    table: &Table,
    reached: &mut Vec<Prov>,
    from: Prov,
    fleet: Prov,
) -> Result<(), AllocError>
    ensures { OnOk result
        (IsSpread (situation_of table.now).next (fleet ∷ []) from reached.old.items
        reached.new.items) }
{
    if table.is_next(from, fleet) && !is_in(reached.as_slice(), fleet) {
        reached.push(fleet)?;
    }
    Ok(())
}

/// Adds the fleets next to a province that weren't reached before.
fn spread(
    table: &Table,
    fleets: &[Prov],
    reached: &mut Vec<Prov>,
    from: Prov,
) -> Result<(), AllocError>
    ensures { OnOk result
        (IsSpread (situation_of table.now).next fleets.now from reached.old.items
        reached.new.items) }
{
    for fleet in fleets {
        spread_to(table, reached, from, *fleet)?;
    }
    Ok(())
}

/// Whether a chain of these fleets joins two provinces. Each fleet is visited once.
pub fn joins(
    reached: &mut Vec<Prov>,
    table: &Table,
    fleets: &[Prov],
    from: Prov,
    to: Prov,
) -> Result<bool, AllocError>
    ensures { IfOk result (IsSought (is_listed fleets.now) (situation_of table.now).next to from) }
{
    reached.clear();
    spread(table, fleets, reached, from)?;
    let mut visited = 0;
    while visited < reached.len() {
        let fleet = reached[visited];
        if table.is_next(fleet, to) {
            return Ok(true);
        }
        spread(table, fleets, reached, fleet)?;
        visited += 1;
    }
    Ok(false)
}
