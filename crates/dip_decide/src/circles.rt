//! Circles of moves, and the paths of a knot.
ghost use Rattle.std.specs.Prelude.{◌≡◌, None, IfOk};
ghost use Rattle.std.specs.List.{list_any};
ghost use Rattle.dip_decide_rules.specs.declared.decisions.Decision.TheVariants.{Move, Path};
ghost use Rattle.dip_decide_rules.specs.Given.{situation_of, known_of};
ghost use Rattle.dip_decide_rules.specs.Movement.{IsSituation};
ghost use Rattle.dip_decide_rules.specs.Rings.{waits_for, from_on, RingOr, RingAt, CircleOr};
ghost use Rattle.dip_decide_rules.specs.Steps.{is_unknown, IsStarted, open_paths};

use dip_decide_rules::{Decision, Table, Values, copy_of, is_in};
use dip_names::Prov;
use std::alloc::{AllocError, Global};

/// Whether the decision has no value yet.
fn is_open(values: &Values, d: &Decision) -> bool
    ensures { result ≡ is_unknown (known_of values.now d.now) }
{
    values.look(d).is_none()
}

/// The unit at the destination of another, where its move is open.
fn waits_for(table: &Table, values: &Values, p: Prov) -> Option<Prov>
    ensures { result ≡ waits_for (situation_of table.now) (known_of values.now) p }
{
    match table.target(p) {
        Some(q) => if is_open(values, &Decision::Move(q)) {
            Some(q)
        } else {
            None
        },
        None => None,
    }
}

/// The part of a trail from a province on.
fn from_on(alloc: Global, trail: &[Prov], p: Prov) -> Result<Vec<Prov>, AllocError>
    ensures { IfOk result (λ v. v.items ≡ from_on p trail.now) }
{
    for (index, place) in trail.iter().enumerate() {
        if *place == p {
            return copy_of(alloc, &trail[index..]);
        }
    }
    Ok(Vec::new(alloc))
}

/// The ring into which one comes from an open move, each time to the one that it waits for.
fn ring_from(
    alloc: Global,
    trail: &mut Vec<Prov>,
    table: &Table,
    values: &Values,
    start: Prov,
) -> Result<Option<Vec<Prov>>, AllocError>
    requires situation { IsSituation (situation_of table.now) }
    requires started { IsStarted (situation_of table.now) (known_of values.now) }
    requires unknown { known_of values.now (Move start) ≡ None }
    ensures { IfOk result (RingOr (situation_of table.now) (known_of values.now) start) }
{
    trail.clear();
    let mut here = start;
    'walk: while !is_in(trail.as_slice(), here) {
        trail.push(here)?;
        match waits_for(table, values, here) {
            Some(next) => here = next,
            None => return Ok(None),
        }
    }
    let ring = from_on(alloc, trail.as_slice(), here)?;
    Ok(Some(ring))
}

/// The ring into which one comes from a unit, if its move is open.
fn ring_at(
    alloc: Global,
    trail: &mut Vec<Prov>,
    table: &Table,
    values: &Values,
    p: Prov,
) -> Result<Option<Vec<Prov>>, AllocError>
    requires situation { IsSituation (situation_of table.now) }
    requires started { IsStarted (situation_of table.now) (known_of values.now) }
    ensures { IfOk result (RingAt (situation_of table.now) (known_of values.now) p) }
{
    if !is_open(values, &Decision::Move(p)) {
        return Ok(None);
    }
    ring_from(alloc, trail, table, values, p)
}

/// A ring of open moves, if there is one.
pub(crate) fn ring_in(
    alloc: Global,
    trail: &mut Vec<Prov>,
    table: &Table,
    values: &Values,
) -> Result<Option<Vec<Prov>>, AllocError>
    requires situation { IsSituation (situation_of table.now) }
    requires started { IsStarted (situation_of table.now) (known_of values.now) }
    ensures { IfOk result
        (CircleOr (situation_of table.now) (known_of values.now) table.now.places.items) }
{
    for place in &table.places {
        if let Some(ring) = ring_at(alloc, trail, table, values, *place)? {
            return Ok(Some(ring));
        }
    }
    Ok(None)
}

/// Whether a unit's path is open.
fn has_open_path(table: &Table, values: &Values) -> bool
    ensures { result ≡ list_any (λ p. is_unknown (known_of values.now (Path p)))
        table.now.places.items }
{
    table
        .places
        .iter()
        .any(|p| is_open(values, &Decision::Path(*p)))
}

/// The units of which it is open whether their move by convoy has a path, in the table's order.
/// Where there are none, no list is copied.
pub(crate) fn open_paths(
    alloc: Global,
    table: &Table,
    values: &Values,
) -> Result<Vec<Prov>, AllocError>
    ensures { IfOk result (λ v. v.items ≡ open_paths (known_of values.now) table.now.places.items) }
{
    if !has_open_path(table, values) {
        return Ok(Vec::new(alloc));
    }
    let mut paths = copy_of(alloc, table.places.as_slice())?;
    paths.retain(|p| is_open(values, &Decision::Path(*p)));
    Ok(paths)
}
