//! The worklist: a decision is tested at first, and again when one that its equation mentions got its value.
ghost use Rattle.std.specs.Prelude.{◌≡◌, ◌<◌, ◌+◌, ◌^◌, ◌∷◌, ◌++◌, [], IfOk, OnOk, length};
ghost use Rattle.dip_decide_rules.specs.Given.{situation_of, known_of};
ghost use Rattle.dip_decide_rules.specs.Movement.{IsSituation};
ghost use Rattle.dip_decide_rules.specs.Results.{decided_in, mentioners, mentions_in};
ghost use Rattle.dip_decide_rules.specs.Steps.{steps_of, moves_of, paths_of, supports_of, decisions, is_unknown, IsStarted};
ghost use Rattle.dip_decide.specs.Working.{weight, Counts, HasOpen, IsListed, IsWork, IsWorked};

use crate::waking::put;
use crate::worklist::Worklist;
use dip_decide_rules::{Decision, Room, Step, Table, Tests, Values, forced_value};
use dip_names::Prov;
use std::alloc::{AllocError, Global};

/// Lists a decision, if it is open.
fn list_one(values: &Values, work: &mut Worklist, d: Decision) -> Result<(), AllocError>
    ensures { OnOk result
        (HasOpen (known_of values.now) (d ∷ []) work.old work.new) }
{
    work.push_if(&d, values.look(&d).is_none())?;
    Ok(())
}

/// Lists the moves of these units that are open.
fn list_moves(values: &Values, work: &mut Worklist, units: &[Prov]) -> Result<(), AllocError>
    ensures { OnOk result
        (HasOpen (known_of values.now) (moves_of units.now) work.old work.new) }
{
    for unit in units {
        list_one(values, work, Decision::Move(*unit))?;
    }
    Ok(())
}

/// Lists the supports of these units that are open.
fn list_supports(values: &Values, work: &mut Worklist, units: &[Prov]) -> Result<(), AllocError>
    ensures { OnOk result
        (HasOpen (known_of values.now) (supports_of units.now) work.old work.new) }
{
    for unit in units {
        list_one(values, work, Decision::Support(*unit))?;
    }
    Ok(())
}

/// Lists the paths of these units that are open.
fn list_paths(values: &Values, work: &mut Worklist, units: &[Prov]) -> Result<(), AllocError>
    ensures { OnOk result
        (HasOpen (known_of values.now) (paths_of units.now) work.old work.new) }
{
    for unit in units {
        list_one(values, work, Decision::Path(*unit))?;
    }
    Ok(())
}

/// What is open, of all units. Since the last one listed is tested first, paths come first and moves last: the equation of a move
/// mentions the most.
pub(crate) fn work_at_start(
    alloc: Global,
    table: &Table,
    values: &Values,
) -> Result<Worklist, AllocError>
    ensures { IfOk result
        (HasOpen (known_of values.now) (decisions table.now.places.items) []) }
{
    let mut work = Worklist::with_capacity(alloc, table.places.len().saturating_mul(3))?;
    list_moves(values, &mut work, table.places.as_slice())?;
    list_supports(values, &mut work, table.places.as_slice())?;
    list_paths(values, &mut work, table.places.as_slice())?;
    Ok(work)
}

/// Lists the open decisions that mention one of these moves.
pub(crate) fn put_moves(
    table: &Table,
    values: &Values,
    work: &mut Worklist,
    units: &[Prov],
) -> Result<(), AllocError>
    requires situation { IsSituation (situation_of table.now) }
    requires started { IsStarted (situation_of table.now) (known_of values.now) }
    ensures { OnOk result
        (IsListed (situation_of table.now) (known_of values.now) (moves_of units.now) work.old
        work.new) }
{
    for unit in units {
        put(table, values, work, &Decision::Move(*unit))?;
    }
    Ok(())
}

/// Lists the open decisions that mention the path of one of these moves.
pub(crate) fn put_paths(
    table: &Table,
    values: &Values,
    work: &mut Worklist,
    units: &[Prov],
) -> Result<(), AllocError>
    requires situation { IsSituation (situation_of table.now) }
    requires started { IsStarted (situation_of table.now) (known_of values.now) }
    ensures { OnOk result
        (IsListed (situation_of table.now) (known_of values.now) (paths_of units.now) work.old
        work.new) }
{
    for unit in units {
        put(table, values, work, &Decision::Path(*unit))?;
    }
    Ok(())
}

/// Tests a decision that was taken from the list, if it is open.
fn work_on(
    room: &mut Room,
    table: &Table,
    values: &mut Values,
    work: &mut Worklist,
    tests: &mut Tests,
    steps: &mut Vec<Step>,
    d: &Decision,
) -> Result<(), AllocError>
    requires situation { IsSituation (situation_of table.now) }
    requires started { IsStarted (situation_of table.now) (known_of values.old) }
    requires work { IsWork (situation_of table.now) (known_of values.old)
        (work.old ++ d.now ∷ []) tests.old }
    requires bound { decided_in (situation_of table.now) + mentions_in (situation_of table.now)
        < 2 ^ 64 }
    ensures worked { OnOk result
        (IsWorked (situation_of table.now) (steps_of steps.old.items) (known_of values.old)
        (steps_of steps.new.items) (known_of values.new) work.new tests.new) }
    ensures counted { OnOk result
        (Counts (steps_of steps.old.items) tests.old (steps_of steps.new.items) tests.new) }
    ensures less { OnOk result
        (length work.new + weight (mentioners (situation_of table.now)) (known_of values.new)
        (decisions table.now.places.items) < length (work.old ++ d.now ∷ [])
        + weight (mentioners (situation_of table.now)) (known_of values.old)
        (decisions table.now.places.items)) }
{
    if values.look(d).is_some() {
        return Ok(());
    }
    match forced_value(room, &*table, &*values, &*d, tests)? {
        None => Ok(()),
        Some(value) => {
            steps.push(Step::Forced(*d))?;
            values.give(d, value);
            put(table, values, work, d)?;
            Ok(())
        }
    }
}

/// Tests what is on the list until nothing is.
pub(crate) fn work_off(
    room: &mut Room,
    table: &Table,
    values: &mut Values,
    work: &mut Worklist,
    tests: &mut Tests,
    steps: &mut Vec<Step>,
) -> Result<(), AllocError>
    requires situation { IsSituation (situation_of table.now) }
    requires started { IsStarted (situation_of table.now) (known_of values.old) }
    requires work { IsWork (situation_of table.now) (known_of values.old) work.old tests.old }
    requires bound { decided_in (situation_of table.now) + mentions_in (situation_of table.now)
        < 2 ^ 64 }
    ensures worked { OnOk result
        (IsWorked (situation_of table.now) (steps_of steps.old.items) (known_of values.old)
        (steps_of steps.new.items) (known_of values.new) [] tests.new) }
    ensures counted { OnOk result
        (Counts (steps_of steps.old.items) tests.old (steps_of steps.new.items) tests.new) }
    ensures empty { OnOk result (work.new ≡ []) }
{
    while let Some(d) = work.pop() {
        work_on(room, table, values, work, tests, steps, &d)?;
    }
    Ok(())
}
