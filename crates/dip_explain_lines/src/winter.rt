//! The explanation of a Winter.
ghost use Rattle.std.specs.Prelude.{◌≡◌, ◌++◌, IfOk, OnOk, filter, flat_map, string_bytes};
ghost use Rattle.dip_turn.specs.Adjusting.{is_among, units_of_power};
ghost use Rattle.dip_turn.specs.Disorder.{without};
ghost use Rattle.dip_explain_lines.specs.Winter as w;

use dip_map::{Board, Map};
use dip_names::{Power, Prov, Unit};
use dip_orders::{builds_due, print_unit, removals_due, vacant_homes};
use dip_turn::{Adjustment, Waiver, distance_home, first_to_go};
use std::alloc::{AllocError, Global};

/// Appends how many units a power may build.
fn push_builds(map: &Map, board: &Board, power: Power, out: &mut String) -> Result<(), AllocError>
    ensures { OnOk result (string_bytes out.new ≡ string_bytes out.old ++ w.builds_text map.now
        board.now power) }
{
    let name = map.power_name(power);
    let due = builds_due(map, board, power);
    let centres = board.centres_owned(power);
    let units = board.units_counted(power);
    let free = vacant_homes(map, board, power);
    write!(
        out,
        "{name} may build {due} (centres {centres}, units {units}, free home centres {free})"
    )
}

/// Appends how many units a power has to remove.
fn push_removals(map: &Map, board: &Board, power: Power, out: &mut String) -> Result<(), AllocError>
    ensures { OnOk result (string_bytes out.new ≡ string_bytes out.old ++ w.removals_text map.now
        board.now power) }
{
    let name = map.power_name(power);
    let due = removals_due(board, power);
    let centres = board.centres_owned(power);
    let units = board.units_counted(power);
    write!(
        out,
        "{name} has to remove {due} (centres {centres}, units {units})"
    )
}

/// Appends the line of a unit that is built.
fn push_build(map: &Map, board: &Board, unit: &Unit, out: &mut String) -> Result<(), AllocError>
    ensures { OnOk result (string_bytes out.new ≡ string_bytes out.old ++ w.build_text map.now
        board.now unit.now) }
{
    print_unit(map, unit, out)?;
    out.push_str(" is built: ")?;
    push_builds(map, board, unit.power, out)?;
    out.push_str("; ")?;
    out.push_str(map.code(unit.place.prov))?;
    out.push_str(" is a free home centre of its own\n")
}

/// Appends the line of builds that are waived.
fn push_waiver(
    map: &Map,
    board: &Board,
    waiver: &Waiver,
    out: &mut String,
) -> Result<(), AllocError>
    ensures { OnOk result (string_bytes out.new ≡ string_bytes out.old ++ w.waiver_text map.now
        board.now waiver.now) }
{
    let builds = waiver.builds;
    out.push_str(map.power_name(waiver.power))?;
    write!(out, " waives {builds}: ")?;
    push_builds(map, board, waiver.power, out)?;
    out.push_str("\n")
}

/// Appends the line of a unit that is removed by order.
fn push_removal(map: &Map, board: &Board, unit: &Unit, out: &mut String) -> Result<(), AllocError>
    ensures { OnOk result (string_bytes out.new ≡ string_bytes out.old ++ w.removal_text map.now
        board.now unit.now) }
{
    print_unit(map, unit, out)?;
    out.push_str(" is removed by order: ")?;
    push_removals(map, board, unit.power, out)?;
    out.push_str("\n")
}

/// Appends that a unit is nearer to a home centre.
fn push_nearer(map: &Map, other: &Unit, out: &mut String) -> Result<(), AllocError>
    ensures { OnOk result
        (string_bytes out.new ≡ string_bytes out.old ++ w.nearer_text map.now other.now) }
{
    let distance = distance_home(map, other.power, other);
    write!(out, " is nearer, {distance}")
}

/// Appends that the name of a unit's province comes before that of another.
fn push_named(map: &Map, unit: &Unit, other: &Unit, out: &mut String) -> Result<(), AllocError>
    ensures { OnOk result
        (string_bytes out.new ≡ string_bytes out.old ++ w.named_text map.now unit.now other.now) }
{
    let first = map.name(unit.place.prov);
    let second = map.name(other.place.prov);
    write!(out, " is as far, and {first} comes before {second} by name")
}

/// Appends that one is a fleet, and the other an army.
#[tactic(auto, unfolding(crate::specs::Winter::kinds_text))]
fn push_kinds(out: &mut String) -> Result<(), AllocError>
    ensures { OnOk result (string_bytes out.new ≡ string_bytes out.old ++ w.kinds_text) }
{
    out.push_str(" is as far, and a fleet goes before an army")
}

/// Appends by which rule the first of two units of a power is removed before the second.
fn push_rule(map: &Map, unit: &Unit, other: &Unit, out: &mut String) -> Result<(), AllocError>
    ensures { OnOk result
        (string_bytes out.new ≡ string_bytes out.old ++ w.rule_text map.now unit.now other.now) }
{
    if distance_home(map, other.power, other) < distance_home(map, unit.power, unit) {
        push_nearer(map, other, out)
    } else if unit.kind.is(other.kind) {
        push_named(map, unit, other, out)
    } else {
        push_kinds(out)
    }
}

/// Appends the unit that would be removed next, and why another was removed before it.
#[tactic(auto, unfolding(crate::specs::Winter::before_text))]
fn push_before(map: &Map, unit: &Unit, next: &Unit, out: &mut String) -> Result<(), AllocError>
    ensures { OnOk result
        (string_bytes out.new ≡ string_bytes out.old ++ w.before_text map.now unit.now next.now) }
{
    out.push_str("the next, ")?;
    print_unit(map, next, out)?;
    out.push_str(",")?;
    push_rule(map, unit, next, out)
}

/// Appends that a power has no other unit.
#[tactic(auto, unfolding(crate::specs::Winter::alone_text))]
fn push_alone(out: &mut String) -> Result<(), AllocError>
    ensures { OnOk result (string_bytes out.new ≡ string_bytes out.old ++ w.alone_text) }
{
    out.push_str("its power has no other unit")
}

/// Appends which of the units that are left of a power would be removed next, and why the unit was removed before it.
fn push_next(map: &Map, unit: &Unit, left: &[Unit], out: &mut String) -> Result<(), AllocError>
    ensures { OnOk result
        (string_bytes out.new ≡ string_bytes out.old ++ w.next_text map.now unit.now left.now) }
{
    match left.split_first() {
        None => push_alone(out),
        Some((first, others)) => {
            let next = first_to_go(map, unit.power, first, others);
            push_before(map, unit, &next, out)
        }
    }
}

/// Those of these units that are the power's, in their order.
fn units_of_power(alloc: Global, power: Power, units: &[Unit]) -> Result<Vec<Unit>, AllocError>
    ensures { IfOk result (λ v. v.items ≡ units_of_power power units.now) }
{
    units
        .iter()
        .filter(|unit| unit.power == power)
        .copied()
        .collect(alloc)
}

/// Appends why a unit is removed in disorder.
#[tactic(auto, unfolding(crate::specs::Winter::owing_text))]
fn push_owing(map: &Map, board: &Board, unit: &Unit, out: &mut String) -> Result<(), AllocError>
    ensures { OnOk result
        (string_bytes out.new ≡ string_bytes out.old ++ w.owing_text map.now board.now unit.now) }
{
    print_unit(map, unit, out)?;
    out.push_str(" is removed in disorder: ")?;
    push_removals(map, board, unit.power, out)
}

/// Appends how far a unit is from a home centre.
fn push_distance(map: &Map, unit: &Unit, out: &mut String) -> Result<(), AllocError>
    ensures { OnOk result
        (string_bytes out.new ≡ string_bytes out.old ++ w.distance_text map.now unit.now) }
{
    let distance = distance_home(map, unit.power, unit);
    write!(out, "; its distance from a home centre is {distance}; ")
}

/// Appends the line of a unit that is removed in disorder, where these are left.
#[tactic(auto, unfolding(crate::specs::Winter::disorder_text))]
fn push_disorder(
    alloc: Global,
    map: &Map,
    board: &Board,
    left: &[Unit],
    unit: &Unit,
    out: &mut String,
) -> Result<(), AllocError>
    ensures { OnOk result (string_bytes out.new ≡ string_bytes out.old ++ w.disorder_text map.now
        board.now left.now unit.now) }
{
    push_owing(map, board, unit, out)?;
    push_distance(map, unit, out)?;
    let others = units_of_power(alloc, unit.power, left)?;
    push_next(map, unit, others.as_slice(), out)?;
    out.push_str("\n")
}

/// Those of these units that stand in other provinces.
fn without(alloc: Global, prov: Prov, units: &[Unit]) -> Result<Vec<Unit>, AllocError>
    ensures { IfOk result (λ v. v.items ≡ without prov units.now) }
{
    units
        .iter()
        .filter(|unit| unit.place.prov != prov)
        .copied()
        .collect(alloc)
}

/// Appends the lines of units that are removed in this order from these.
fn push_disorders(
    alloc: Global,
    map: &Map,
    board: &Board,
    units: &[Unit],
    gone: &[Unit],
    out: &mut String,
) -> Result<(), AllocError>
    ensures { OnOk result (string_bytes out.new ≡ string_bytes out.old ++ w.disorder_texts map.now
        board.now units.now gone.now) }
{
    let mut left = units.to_vec(alloc)?;
    for unit in gone {
        left = without(alloc, unit.place.prov, left.as_slice())?;
        push_disorder(alloc, map, board, left.as_slice(), unit, out)?;
    }
    Ok(())
}

/// Whether the unit is one of these.
fn is_among(units: &[Unit], unit: &Unit) -> bool
    ensures { result ≡ is_among units.now unit.now }
{
    units
        .iter()
        .any(|other| other.place.prov == unit.place.prov)
}

/// The units whose removal wasn't ordered.
fn units_left(alloc: Global, board: &Board, told: &Adjustment) -> Result<Vec<Unit>, AllocError>
    ensures { IfOk result (λ v. v.items ≡ w.kept_in board.now told.now) }
{
    let removals = told.removals.as_slice();
    board
        .units()
        .iter()
        .filter(|unit| !is_among(removals, unit))
        .copied()
        .collect(alloc)
}

/// Appends the lines of units that are built.
fn push_all_builds(
    map: &Map,
    board: &Board,
    units: &[Unit],
    out: &mut String,
) -> Result<(), AllocError>
    ensures { OnOk result (string_bytes out.new ≡ string_bytes out.old ++ flat_map
        (w.build_text map.now board.now) units.now) }
{
    for unit in units {
        push_build(map, board, unit, out)?;
    }
    Ok(())
}

/// Appends the lines of units that are removed by order.
fn push_all_removals(
    map: &Map,
    board: &Board,
    units: &[Unit],
    out: &mut String,
) -> Result<(), AllocError>
    ensures { OnOk result (string_bytes out.new ≡ string_bytes out.old ++ flat_map
        (w.removal_text map.now board.now) units.now) }
{
    for unit in units {
        push_removal(map, board, unit, out)?;
    }
    Ok(())
}

/// Appends a line for each power that let builds go.
fn push_all_waivers(
    map: &Map,
    board: &Board,
    waivers: &[Waiver],
    out: &mut String,
) -> Result<(), AllocError>
    ensures { OnOk result (string_bytes out.new ≡ string_bytes out.old ++ flat_map
        (w.waiver_text map.now board.now) waivers.now) }
{
    for waiver in waivers {
        push_waiver(map, board, waiver, out)?;
    }
    Ok(())
}

/// Those of these waivers that are the power's.
fn waivers_of(alloc: Global, power: Power, waivers: &[Waiver]) -> Result<Vec<Waiver>, AllocError>
    ensures { IfOk result (λ v. v.items ≡ filter (w.is_by power) waivers.now) }
{
    waivers
        .iter()
        .filter(|waiver| waiver.power == power)
        .copied()
        .collect(alloc)
}

/// Appends the lines of a power's removals in disorder.
fn push_power_disorder(
    alloc: Global,
    map: &Map,
    board: &Board,
    told: &Adjustment,
    power: Power,
    out: &mut String,
) -> Result<(), AllocError>
    ensures { OnOk result (string_bytes out.new ≡ string_bytes out.old ++ w.disorder_texts map.now
        board.now (w.kept_in board.now told.now) (units_of_power power told.now.disorder.items)) }
{
    let left = units_left(alloc, board, told)?;
    let gone = units_of_power(alloc, power, told.disorder.as_slice())?;
    push_disorders(alloc, map, board, left.as_slice(), gone.as_slice(), out)
}

/// Appends what a Winter brought a power.
fn push_power(
    alloc: Global,
    map: &Map,
    board: &Board,
    told: &Adjustment,
    power: Power,
    out: &mut String,
) -> Result<(), AllocError>
    ensures { OnOk result (string_bytes out.new ≡ string_bytes out.old ++ w.power_text map.now
        board.now told.now power) }
{
    let builds = units_of_power(alloc, power, told.builds.as_slice())?;
    push_all_builds(map, board, builds.as_slice(), out)?;
    let removals = units_of_power(alloc, power, told.removals.as_slice())?;
    push_all_removals(map, board, removals.as_slice(), out)?;
    push_power_disorder(alloc, map, board, told, power, out)?;
    let waivers = waivers_of(alloc, power, told.waivers.as_slice())?;
    push_all_waivers(map, board, waivers.as_slice(), out)
}

/// Appends why the builds and removals of a Winter came out as is told: for each the centres and units of its power, and for a removal in
/// disorder the distance from a home centre and the unit that would go next. The only error is want of memory.
pub fn push_winter(
    alloc: Global,
    map: &Map,
    board: &Board,
    told: &Adjustment,
    out: &mut String,
) -> Result<(), AllocError>
    ensures { OnOk result (string_bytes out.new ≡ string_bytes out.old ++ w.winter_explained
        map.now board.now told.now) }
{
    for power in map.each_power() {
        push_power(alloc, map, board, told, power, out)?;
    }
    Ok(())
}
