//! Whom a value wakes: the decisions that mention it come on the worklist, found by where units go and by whom they help.
ghost use Rattle.std.specs.Prelude.{◌≡◌, ◌∷◌, [], OnOk};
ghost use Rattle.dip_decide_rules.specs.Given.{situation_of, known_of};
ghost use Rattle.dip_decide_rules.specs.Movement.{IsSituation};
ghost use Rattle.dip_decide_rules.specs.Steps.{moves_of, decisions, IsStarted};
ghost use Rattle.dip_decide.specs.Waking.{moves_into, moves_to, path_of, at_target, past_path, past_support};
ghost use Rattle.dip_decide.specs.Working.{IsPut, IsTaken};

use crate::worklist::Worklist;
use dip_decide_rules::{Decision, Table, Values, mentions};
use dip_names::Prov;
use std::alloc::AllocError;

/// Lists a decision, if it is open, mentions the other and isn't listed.
fn put_one(
    table: &Table,
    values: &Values,
    work: &mut Worklist,
    e: &Decision,
    d: &Decision,
) -> Result<(), AllocError>
    requires situation { IsSituation (situation_of table.now) }
    requires started { IsStarted (situation_of table.now) (known_of values.now) }
    ensures { OnOk result
        (IsTaken (situation_of table.now) (known_of values.now) e.now (d.now ∷ []) work.old
        work.new) }
{
    if values.look(d).is_none() && !work.has(d) && mentions(table, d, e) {
        work.push(d)?;
    }
    Ok(())
}

/// Lists those of these units' moves that are open and mention a decision.
fn put_each(
    table: &Table,
    values: &Values,
    work: &mut Worklist,
    e: &Decision,
    units: &[Prov],
) -> Result<(), AllocError>
    requires situation { IsSituation (situation_of table.now) }
    requires started { IsStarted (situation_of table.now) (known_of values.now) }
    ensures { OnOk result
        (IsTaken (situation_of table.now) (known_of values.now) e.now (moves_of units.now)
        work.old work.new) }
{
    for unit in units {
        put_one(table, values, work, e, &Decision::Move(*unit))?;
    }
    Ok(())
}

/// Lists those of the moves into a province that are open and mention a decision.
fn put_into(
    table: &Table,
    values: &Values,
    work: &mut Worklist,
    e: &Decision,
    q: Prov,
) -> Result<(), AllocError>
    requires situation { IsSituation (situation_of table.now) }
    requires started { IsStarted (situation_of table.now) (known_of values.now) }
    ensures { OnOk result
        (IsTaken (situation_of table.now) (known_of values.now) e.now (moves_into table.now q)
        work.old work.new) }
{
    put_each(table, values, work, e, table.movers_to(q))?;
    Ok(())
}

/// Lists those of the moves to where a unit goes that are open and mention a decision: none, if it
/// goes nowhere.
fn put_to(
    table: &Table,
    values: &Values,
    work: &mut Worklist,
    e: &Decision,
    target: Option<Prov>,
) -> Result<(), AllocError>
    requires situation { IsSituation (situation_of table.now) }
    requires started { IsStarted (situation_of table.now) (known_of values.now) }
    ensures { OnOk result
        (IsTaken (situation_of table.now) (known_of values.now) e.now (moves_to table.now target)
        work.old work.new) }
{
    match target {
        Some(q) => {
            put_into(table, values, work, e, q)?;
            Ok(())
        }
        None => Ok(()),
    }
}

/// Lists the path of the army that a fleet convoys, if it convoys one, and if that path is open and
/// mentions a decision.
fn put_path(
    table: &Table,
    values: &Values,
    work: &mut Worklist,
    e: &Decision,
    army: Option<Prov>,
) -> Result<(), AllocError>
    requires situation { IsSituation (situation_of table.now) }
    requires started { IsStarted (situation_of table.now) (known_of values.now) }
    ensures { OnOk result
        (IsTaken (situation_of table.now) (known_of values.now) e.now (path_of army) work.old
        work.new) }
{
    match army {
        Some(p) => {
            put_one(table, values, work, e, &Decision::Path(p))?;
            Ok(())
        }
        None => Ok(()),
    }
}

/// Of a unit to whose province a move goes, lists its support and the path of the army that it
/// convoys, where they are open and mention a decision.
fn put_at(
    table: &Table,
    values: &Values,
    work: &mut Worklist,
    e: &Decision,
    target: Option<Prov>,
) -> Result<(), AllocError>
    requires situation { IsSituation (situation_of table.now) }
    requires started { IsStarted (situation_of table.now) (known_of values.now) }
    ensures { OnOk result
        (IsTaken (situation_of table.now) (known_of values.now) e.now (at_target table.now target)
        work.old work.new) }
{
    match target {
        Some(h) => {
            put_one(table, values, work, e, &Decision::Support(h))?;
            put_path(table, values, work, e, table.carries(h))?;
            Ok(())
        }
        None => Ok(()),
    }
}

/// Where a move by convoy goes, lists the moves to there and the support by the unit there, where
/// they are open and mention a decision.
fn put_past(
    table: &Table,
    values: &Values,
    work: &mut Worklist,
    e: &Decision,
    target: Option<Prov>,
) -> Result<(), AllocError>
    requires situation { IsSituation (situation_of table.now) }
    requires started { IsStarted (situation_of table.now) (known_of values.now) }
    ensures { OnOk result
        (IsTaken (situation_of table.now) (known_of values.now) e.now (past_path table.now target)
        work.old work.new) }
{
    match target {
        Some(q) => {
            put_into(table, values, work, e, q)?;
            put_one(table, values, work, e, &Decision::Support(q))?;
            Ok(())
        }
        None => Ok(()),
    }
}

/// Lists the moves to a unit that is supported, and those to where it goes, that are open and
/// mention a decision.
fn put_past_support(
    table: &Table,
    values: &Values,
    work: &mut Worklist,
    e: &Decision,
    backed: Option<Prov>,
) -> Result<(), AllocError>
    requires situation { IsSituation (situation_of table.now) }
    requires started { IsStarted (situation_of table.now) (known_of values.now) }
    ensures { OnOk result
        (IsTaken (situation_of table.now) (known_of values.now) e.now
        (past_support table.now backed) work.old work.new) }
{
    match backed {
        Some(w) => {
            put_into(table, values, work, e, w)?;
            put_to(table, values, work, e, table.target(w))?;
            Ok(())
        }
        None => Ok(()),
    }
}

/// Lists the open decisions that mention one.
pub(crate) fn put(
    table: &Table,
    values: &Values,
    work: &mut Worklist,
    e: &Decision,
) -> Result<(), AllocError>
    requires situation { IsSituation (situation_of table.now) }
    requires started { IsStarted (situation_of table.now) (known_of values.now) }
    ensures { OnOk result
        (IsPut (situation_of table.now) (known_of values.now) e.now
        (decisions table.now.places.items) work.old work.new) }
{
    match e {
        Decision::Move(x) => {
            put_into(table, values, work, e, *x)?;
            put_at(table, values, work, e, table.target(*x))?;
            Ok(())
        }
        Decision::Path(w) => {
            put_past(table, values, work, e, table.target(*w))?;
            Ok(())
        }
        Decision::Support(h) => {
            put_past_support(table, values, work, e, table.backed(*h))?;
            Ok(())
        }
    }
}
