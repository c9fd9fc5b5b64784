//! A movement as a whole: from the orders to the resolution.
ghost use Rattle.std.specs.Prelude.{◌≡◌, ◌≤◌, ◌+◌, IfOk, length, filter, Some, true, false};
ghost use Rattle.std.specs.List.{list_any, slice_set};
ghost use Rattle.dip_map.specs.Charts.{provs};
ghost use Rattle.dip_map.specs.Boards.{IsOf};
ghost use Rattle.dip_orders_placed.specs.Standing.{units_of};
ghost use Rattle.dip_decide_rules.specs.declared.decisions.Decision.{Decision as ADecision};
ghost use Rattle.dip_decide_rules.specs.Deciding.{is_broken};
ghost use Rattle.dip_decide_rules.specs.Given.{known_of};
ghost use Rattle.dip_decide_rules.specs.Meaning.{situation_on};
ghost use Rattle.dip_decide_rules.specs.Movement.{Satisfies};
ghost use Rattle.dip_decide_rules.specs.Results.{values_in, broken_in, AreExplained, IsOnly, AreInOrder, decided_in, forced_in, mentions_in, is_true, trues, breaks, is_knot, IsListing};
ghost use Rattle.dip_decide_rules.specs.Steps.{steps_of};
ghost use Rattle.dip_decide_rules.specs.Marks.{with_all, with_broken};

use crate::starting::values_at_start;
use crate::turns::explain;
use dip_decide_rules::{Resolution, Step, Tests, Values, all_false, value_at};
use dip_decide_table::table_on;
use dip_map::{Board, Map};
use dip_names::Prov;
use dip_orders_placed::Orders;
use std::alloc::{AllocError, Global};

/// Whether the value is known and true.
fn is_true(value: Option<bool>) -> bool
    ensures { result ≡ is_true value }
{
    match value {
        Some(value) => value,
        None => false,
    }
}

/// The provinces of a column with true, by code: each is written after those so far, and counts or is written over, so that there is no
/// branch that a processor can't foretell.
fn trues(alloc: Global, map: &Map, column: &[Option<bool>]) -> Result<Vec<Prov>, AllocError>
    ensures { IfOk result (λ v. v.items ≡ trues column.now map.now) }
{
    let mut found = vec![in alloc; Prov::new(0); map.province_count()]?;
    let mut many = 0usize;
    for prov in map.each_province() {
        found[many] = prov;
        many += usize::from(is_true(value_at(column, prov)));
    }
    found.truncate(many);
    Ok(found)
}

/// Puts true at a province.
fn mark(marks: &mut Vec<Option<bool>>, p: Prov)
    ensures { marks.new.items ≡ slice_set marks.old.items p (Some true) }
{
    if let Some(place) = marks.get_mut(usize::from(p.index())) {
        *place = Some(true);
    }
}

/// Puts true at each of these provinces.
fn mark_all(marks: &mut Vec<Option<bool>>, units: &[Prov])
    ensures { marks.new.items ≡ with_all units.now marks.old.items }
{
    for p in units {
        mark(marks, *p);
    }
}

/// Puts true where a step breaks the path of a unit.
fn mark_step(marks: &mut Vec<Option<bool>>, step: &Step)
    ensures { marks.new.items ≡ with_broken step.now marks.old.items }
{
    match step {
        Step::Knot(units) => mark_all(marks, units.as_slice()),
        Step::Forced(_) | Step::Circle(_) => {}
    }
}

/// The units whose paths the steps break, by code: those of each knot are marked, and then looked for.
fn broken_in(alloc: Global, map: &Map, steps: &[Step]) -> Result<Vec<Prov>, AllocError>
    ensures { IfOk result
        (λ v. v.items ≡ filter (λ p. list_any (λ s. breaks s p) steps.now) (provs map.now)) }
{
    let mut marks = all_false(alloc, map.province_count())?;
    for step in steps {
        mark_step(&mut marks, step);
    }
    trues(alloc, map, marks.as_slice())
}

/// Whether the step is a knot.
fn is_knot(step: &Step) -> bool
    ensures { result ≡ is_knot step.now }
{
    match step {
        Step::Knot(_) => true,
        Step::Forced(_) | Step::Circle(_) => false,
    }
}

/// Whether a knot is among the steps.
fn has_knot(steps: &[Step]) -> bool
    ensures { result ≡ list_any is_knot steps.now }
{
    steps.iter().any(|step| is_knot(step))
}

/// The units whose paths the steps break, by code: none where no step is a knot.
fn broken_by(alloc: Global, map: &Map, steps: &[Step]) -> Result<Vec<Prov>, AllocError>
    ensures { IfOk result
        (λ v. v.items ≡ filter (λ p. list_any (λ s. breaks s p) steps.now) (provs map.now)) }
{
    if !has_knot(steps) {
        return Ok(Vec::new(alloc));
    }
    broken_in(alloc, map, steps)
}

/// The lists of what was decided, with the steps.
fn resolution_of(
    alloc: Global,
    map: &Map,
    values: &Values,
    steps: Vec<Step>,
    tests: Tests,
) -> Result<Resolution, AllocError>
    ensures { IfOk result (λ r. IsListing steps.items (known_of values.now) tests map.now r) }
{
    let moves = trues(alloc, map, values.moves.as_slice())?;
    let paths = trues(alloc, map, values.paths.as_slice())?;
    let supports = trues(alloc, map, values.supports.as_slice())?;
    let broken = broken_by(alloc, map, steps.as_slice())?;
    Ok(Resolution {
        moves,
        paths,
        supports,
        broken,
        steps,
        tests,
    })
}

/// What comes of the orders of a movement: one for each unit of the board, as they are meant on it (`orders_as_meant`).
///
/// The values satisfy the decision equations, and the steps explain them: each decision was forced by those before it, or was
/// settled with a circle or with a knot, which is taken only where nothing is forced and there is no circle. Whatever steps explain
/// the same orders come to these values and break these paths. There are at most
/// as many steps as decisions. At least the forced ones were tested; each decision is tested at first, and again at most once for
/// each that its equation mentions and that got its value before. The only error is want of memory.
pub fn resolve(
    alloc: Global,
    map: &Map,
    board: &Board,
    orders: &Orders,
) -> Result<Resolution, AllocError>
    requires is_of { IsOf map.now board.now }
    requires orders { units_of orders.now ≡ board.now.units }
    ensures equations { IfOk result
        (λ r. Satisfies (situation_on map.now board.now orders.now) (broken_in r) (values_in r)) }
    ensures explained { IfOk result
        (λ r. AreExplained (situation_on map.now board.now orders.now) (steps_of r.steps.items)
        (values_in r)) }
    ensures only { IfOk result (IsOnly (situation_on map.now board.now orders.now)) }
    ensures broken { IfOk result
        (λ r. (d : ADecision) → broken_in r d ≡ is_broken (steps_of r.steps.items) d) }
    ensures few { IfOk result
        (λ r. length r.steps.items ≤ decided_in (situation_on map.now board.now orders.now)) }
    ensures ordered { IfOk result AreInOrder }
    ensures counted { IfOk result (λ r. forced_in (steps_of r.steps.items) ≤ r.tests) }
    ensures tested { IfOk result
        (λ r. r.tests ≤ decided_in (situation_on map.now board.now orders.now)
        + mentions_in (situation_on map.now board.now orders.now)) }
{
    map.facts();
    orders.facts();
    let _ = board.units();
    let table = table_on(alloc, map, board, orders.as_slice())?;
    let mut values = values_at_start(alloc, &table)?;
    let mut tests = Tests::new();
    let steps = explain(alloc, &table, &mut values, &mut tests)?;
    resolution_of(alloc, map, &values, steps, tests)
}
