//! The values at the start: what is no decision is known to be false.
ghost use Rattle.std.specs.Prelude.{◌≡◌, Some, false, replicate, IfOk};
ghost use Rattle.std.specs.List.{slice_set};
ghost use Rattle.dip_decide_rules.specs.Given.{at_start, situation_of, known_of};
ghost use Rattle.dip_decide_rules.specs.declared.decisions.Decision.TheVariants.{Move, Path, Support};
ghost use Rattle.dip_decide_rules.specs.Movement.{at_first, is_decided};

use dip_decide_rules::{Table, Values, all_false};
use dip_names::Prov;
use std::alloc::{AllocError, Global};

/// What is known at first: nothing of what is to be decided, and of all else that it is false.
fn at_start(is_decided: bool) -> Option<bool>
    ensures { result ≡ at_start is_decided }
{
    if is_decided { None } else { Some(false) }
}

/// Values for so many provinces, in which there is nothing to decide.
fn nothing_to_decide(alloc: Global, count: usize) -> Result<Values, AllocError>
    ensures moves { IfOk result (λ v. v.moves.items ≡ replicate count (Some false)) }
    ensures paths { IfOk result (λ v. v.paths.items ≡ replicate count (Some false)) }
    ensures supports { IfOk result (λ v. v.supports.items ≡ replicate count (Some false)) }
{
    let moves = all_false(alloc, count)?;
    let paths = all_false(alloc, count)?;
    let supports = all_false(alloc, count)?;
    Ok(Values {
        moves,
        paths,
        supports,
    })
}

/// Puts what is known at first at a province.
fn put_at_start(column: &mut Vec<Option<bool>>, p: Prov, is_decided: bool)
    ensures { column.new.items ≡ slice_set column.old.items p (at_start is_decided) }
{
    if let Some(place) = column.get_mut(usize::from(p.index())) {
        *place = at_start(is_decided);
    }
}

/// Puts what is known at first of the decisions about the unit in a province.
fn put_unit(values: &mut Values, table: &Table, p: Prov)
    ensures moves { values.new.moves.items
        ≡ slice_set values.old.moves.items p
        (at_start (is_decided (situation_of table.now) (Move p))) }
    ensures paths { values.new.paths.items
        ≡ slice_set values.old.paths.items p
        (at_start (is_decided (situation_of table.now) (Path p))) }
    ensures supports { values.new.supports.items
        ≡ slice_set values.old.supports.items p
        (at_start (is_decided (situation_of table.now) (Support p))) }
{
    put_at_start(&mut values.moves, p, table.has_move(p));
    put_at_start(&mut values.paths, p, table.is_convoyed(p));
    put_at_start(&mut values.supports, p, table.is_support(p));
}

/// The values before the first step.
pub(crate) fn values_at_start(alloc: Global, table: &Table) -> Result<Values, AllocError>
    ensures { IfOk result (λ v. known_of v ≡ at_first (situation_of table.now)) }
{
    let mut values = nothing_to_decide(alloc, table.rows.as_slice().len())?;
    for p in &table.places {
        put_unit(&mut values, table, *p);
    }
    Ok(values)
}
