//! Steps one after the other: what is forced, then a circle, then the knot, until all is decided.
ghost use Rattle.std.specs.Prelude.{◌≡◌, ◌≤◌, ◌<◌, ◌+◌, ◌^◌, [], IfOk, OnOk, true};
ghost use Rattle.dip_decide_rules.specs.Deciding.{IsCircle, IsKnot};
ghost use Rattle.dip_decide_rules.specs.Given.{situation_of, known_of};
ghost use Rattle.dip_decide_rules.specs.Movement.{at_first, rule, mentions, IsSituation};
ghost use Rattle.dip_decide_rules.specs.Results.{decided_in, forced_in, mentions_in};
ghost use Rattle.dip_decide_rules.specs.Rings.{IsNonEmpty};
ghost use Rattle.dip_decide_rules.specs.Steps.{moves_of, paths_of, steps_of, NoneForced, IsStarted, IsTurn, IsComplete};
ghost use Rattle.dip_decide.specs.Working.{Counts, IsWork, StaysWork};

use crate::circles::{open_paths, ring_in};
use crate::working::{put_moves, put_paths, work_at_start, work_off};
use crate::worklist::Worklist;
use dip_decide_rules::{Room, Step, Table, Tests, Values};
use dip_names::Prov;
use std::alloc::{AllocError, Global};

/// All moves of a circle succeed.
fn take_circle(
    table: &Table,
    values: &mut Values,
    work: &mut Worklist,
    steps: &mut Vec<Step>,
    units: Vec<Prov>,
) -> Result<(), AllocError>
    requires situation { IsSituation (situation_of table.now) }
    requires started { IsStarted (situation_of table.now) (known_of values.old) }
    requires empty { work.old ≡ [] }
    requires some { IsNonEmpty units.items }
    requires circle { IsCircle (rule (situation_of table.now)) (known_of values.old)
        (moves_of units.items) }
    ensures turned { OnOk result
        (IsTurn (situation_of table.now) true (steps_of steps.old.items) (known_of values.old)
        (steps_of steps.new.items) (known_of values.new)) }
    ensures work { OnOk result
        (StaysWork (situation_of table.now) (known_of values.old) [] (known_of values.new)
        work.new) }
    ensures unforced { OnOk result
        (forced_in (steps_of steps.new.items) ≡ forced_in (steps_of steps.old.items)) }
{
    values.give_moves(units.as_slice());
    put_moves(table, values, work, units.as_slice())?;
    steps.push(Step::Circle(units))?;
    Ok(())
}

/// Takes the step of a knot: these units' paths are false from now on, and what mentions them is
/// listed.
fn take_knot(
    table: &Table,
    values: &mut Values,
    work: &mut Worklist,
    steps: &mut Vec<Step>,
    units: Vec<Prov>,
) -> Result<(), AllocError>
    requires situation { IsSituation (situation_of table.now) }
    requires started { IsStarted (situation_of table.now) (known_of values.old) }
    requires empty { work.old ≡ [] }
    requires some { IsNonEmpty units.items }
    requires knot { IsKnot (rule (situation_of table.now)) (mentions (situation_of table.now))
        (known_of values.old) (paths_of units.items) }
    ensures turned { OnOk result
        (IsTurn (situation_of table.now) true (steps_of steps.old.items) (known_of values.old)
        (steps_of steps.new.items) (known_of values.new)) }
    ensures work { OnOk result
        (StaysWork (situation_of table.now) (known_of values.old) [] (known_of values.new)
        work.new) }
    ensures unforced { OnOk result
        (forced_in (steps_of steps.new.items) ≡ forced_in (steps_of steps.old.items)) }
{
    values.break_paths(units.as_slice());
    put_paths(table, values, work, units.as_slice())?;
    steps.push(Step::Knot(units))?;
    Ok(())
}

/// Where nothing is forced: a circle, or the knot if there is none. Tells whether there was either.
fn turn_unforced(
    alloc: Global,
    room: &mut Room,
    table: &Table,
    values: &mut Values,
    work: &mut Worklist,
    steps: &mut Vec<Step>,
) -> Result<bool, AllocError>
    requires situation { IsSituation (situation_of table.now) }
    requires started { IsStarted (situation_of table.now) (known_of values.old) }
    requires empty { work.old ≡ [] }
    requires unforced { NoneForced (situation_of table.now) (known_of values.old) }
    ensures turned { IfOk result
        (λ any. IsTurn (situation_of table.now) any (steps_of steps.old.items) (known_of values.old)
        (steps_of steps.new.items) (known_of values.new)) }
    ensures work { OnOk result
        (StaysWork (situation_of table.now) (known_of values.old) [] (known_of values.new)
        work.new) }
    ensures unforced { OnOk result
        (forced_in (steps_of steps.new.items) ≡ forced_in (steps_of steps.old.items)) }
{
    if let Some(ring) = ring_in(alloc, &mut room.trail, table, values)? {
        take_circle(table, values, work, steps, ring)?;
        return Ok(true);
    }
    let knot = open_paths(alloc, table, values)?;
    if knot.as_slice().is_empty() {
        return Ok(false);
    }
    take_knot(table, values, work, steps, knot)?;
    Ok(true)
}

/// What is forced, and then a circle; where there is none, the knot. Tells whether there was either.
fn turn(
    alloc: Global,
    room: &mut Room,
    table: &Table,
    values: &mut Values,
    work: &mut Worklist,
    tests: &mut Tests,
    steps: &mut Vec<Step>,
) -> Result<bool, AllocError>
    requires situation { IsSituation (situation_of table.now) }
    requires started { IsStarted (situation_of table.now) (known_of values.old) }
    requires work { IsWork (situation_of table.now) (known_of values.old) work.old tests.old }
    requires bound { decided_in (situation_of table.now) + mentions_in (situation_of table.now)
        < 2 ^ 64 }
    ensures turned { IfOk result
        (λ any. IsTurn (situation_of table.now) any (steps_of steps.old.items) (known_of values.old)
        (steps_of steps.new.items) (known_of values.new)) }
    ensures work { OnOk result
        (IsWork (situation_of table.now) (known_of values.new) work.new tests.new) }
    ensures counted { OnOk result
        (Counts (steps_of steps.old.items) tests.old (steps_of steps.new.items) tests.new) }
{
    work_off(room, table, values, work, tests, steps)?;
    turn_unforced(alloc, room, table, values, work, steps)
}

/// The steps that lead to the values of all decisions; each test is counted.
pub(crate) fn explain(
    alloc: Global,
    table: &Table,
    values: &mut Values,
    tests: &mut Tests,
) -> Result<Vec<Step>, AllocError>
    requires situation { IsSituation (situation_of table.now) }
    requires first { known_of values.old ≡ at_first (situation_of table.now) }
    requires untested { tests.old ≡ 0 }
    requires bound { decided_in (situation_of table.now) + mentions_in (situation_of table.now)
        < 2 ^ 64 }
    ensures explained { IfOk result
        (λ steps. IsComplete (situation_of table.now) (steps_of steps.items)
        (known_of values.new)) }
    ensures counted { IfOk result (λ steps. forced_in (steps_of steps.items) ≤ tests.new) }
    ensures tested { OnOk result
        (tests.new ≤ decided_in (situation_of table.now) + mentions_in (situation_of table.now)) }
{
    let mut room = Room::with_capacity(alloc, table.places.len())?;
    let mut work = work_at_start(alloc, table, values)?;
    let mut steps = Vec::with_capacity(alloc, work.len())?;
    let mut goes_on = true;
    'turns: while goes_on {
        goes_on = turn(
            alloc, &mut room, table, values, &mut work, tests, &mut steps,
        )?;
    }
    Ok(steps)
}
