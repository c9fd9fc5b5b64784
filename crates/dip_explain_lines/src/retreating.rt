//! The explanation of retreats.
ghost use Rattle.std.specs.Prelude.{◌≡◌, ◌++◌, IfOk, OnOk, find, flat_map, string_bytes};
ghost use Rattle.dip_orders_placed.specs.Retreats.{is_open, is_origin};
ghost use Rattle.dip_turn.specs.Retreating.{is_in, refuge};
ghost use Rattle.dip_orders_placed.specs.Standing.{is_same_unit};
ghost use Rattle.dip_explain_lines.specs.Retreats as r;

use dip_map::{Board, Dislodged, Map};
use dip_names::{Place, Prov, Unit};
use dip_orders::{is_open, is_same_unit, next_places, print_order, print_place};
use dip_turn::{RetreatLine, refuge};
use std::alloc::{AllocError, Global};

/// Whether the place is in that province.
fn is_in(place: Option<Place>, prov: Prov) -> bool
    ensures { result ≡ is_in place prov }
{
    match place {
        Some(place) => place.prov == prov,
        None => false,
    }
}

/// Whether the attacker came from that province; one that came by convoy closes none.
fn is_origin(origin: Option<Prov>, prov: Prov) -> bool
    ensures { result ≡ is_origin origin prov }
{
    match origin {
        Some(origin) => origin == prov,
        None => false,
    }
}

/// Why a province is closed to a dislodged unit.
fn closing_text(board: &Board, dislodged: &Dislodged, prov: Prov) -> &'static str
    ensures { result.now ≡ r.closing_text board.now dislodged.now.origin prov }
{
    if board.is_held(prov) {
        " is closed, a unit stands there"
    } else if is_origin(dislodged.origin, prov) {
        " is closed, its attacker came from there"
    } else {
        " is closed, a standoff was there"
    }
}

/// Whether a dislodged unit may retreat to the province: it is empty, no standoff, and not where
/// the attacker came from.
fn is_open_to(board: &Board, dislodged: &Dislodged, prov: Prov) -> bool
    ensures { result ≡ is_open board.now dislodged.now.origin prov }
{
    is_open(board, dislodged.origin, prov)
}

/// Whether a province is open to a dislodged unit, and if not why.
fn openness(board: &Board, dislodged: &Dislodged, prov: Prov) -> &'static str
    ensures { result.now ≡ r.openness_text board.now dislodged.now.origin prov }
{
    if is_open_to(board, dislodged, prov) {
        " is open"
    } else {
        closing_text(board, dislodged, prov)
    }
}

/// Appends whether a place is open to a dislodged unit.
#[tactic(auto, unfolding(crate::specs::Retreats::place_line))]
fn push_place_line(
    map: &Map,
    board: &Board,
    dislodged: &Dislodged,
    place: Place,
    out: &mut String,
) -> Result<(), AllocError>
    ensures { OnOk result (string_bytes out.new ≡ string_bytes out.old ++ r.place_line map.now
        board.now dislodged.now place) }
{
    let kind = dislodged.unit.kind;
    let prov = place.prov;
    out.push_str("; ")?;
    print_place(map, kind, place, out)?;
    out.push_str(openness(board, dislodged, prov))
}

/// Appends what is said of the neighbouring places of a dislodged unit.
fn push_places(
    alloc: Global,
    map: &Map,
    board: &Board,
    dislodged: &Dislodged,
    out: &mut String,
) -> Result<(), AllocError>
    ensures { OnOk result (string_bytes out.new ≡ string_bytes out.old ++ r.places_text map.now
        board.now dislodged.now) }
{
    let places = next_places(alloc, map, dislodged.unit.kind, dislodged.unit.place)?;
    for place in &places {
        push_place_line(map, board, dislodged, *place, out)?;
    }
    Ok(())
}

/// Whether another unit retreats to a province.
fn is_rival(line: &RetreatLine, prov: Prov, other: &RetreatLine) -> bool
    ensures { result ≡ r.is_rival line.now prov other.now }
{
    other.placed.unit.place.prov != line.placed.unit.place.prov
        && is_in(refuge(&other.placed.order), prov)
}

/// Appends the order of another unit.
fn push_rival(map: &Map, line: &RetreatLine, out: &mut String) -> Result<(), AllocError>
    ensures { OnOk result
        (string_bytes out.new ≡ string_bytes out.old ++ r.rival_text map.now line.now) }
{
    out.push_str(", ")?;
    print_order(map, &line.placed, out)
}

/// The other units that retreat to a province.
fn rivals(
    alloc: Global,
    all: &[RetreatLine],
    line: &RetreatLine,
    prov: Prov,
) -> Result<Vec<RetreatLine>, AllocError>
    ensures { IfOk result (λ v. v.items ≡ r.rivals all.now line.now prov) }
{
    all.iter()
        .filter(|other| is_rival(line, prov, other))
        .copied()
        .collect(alloc)
}

/// Appends the orders of the other units that retreat to a province.
fn push_rivals(
    alloc: Global,
    map: &Map,
    all: &[RetreatLine],
    line: &RetreatLine,
    prov: Prov,
    out: &mut String,
) -> Result<(), AllocError>
    ensures { OnOk result (string_bytes out.new ≡ string_bytes out.old ++ flat_map
        (r.rival_text map.now) (r.rivals all.now line.now prov)) }
{
    let others = rivals(alloc, all, line, prov)?;
    for other in &others {
        push_rival(map, other, out)?;
    }
    Ok(())
}

/// Appends that other units retreat to a province.
#[tactic(auto, unfolding(crate::specs::Retreats::clash_text))]
fn push_clash(
    alloc: Global,
    map: &Map,
    all: &[RetreatLine],
    line: &RetreatLine,
    prov: Prov,
    out: &mut String,
) -> Result<(), AllocError>
    ensures { OnOk result (string_bytes out.new ≡ string_bytes out.old ++ r.clash_text map.now
        all.now
        line.now prov) }
{
    out.push_str(" disbands: another unit retreats there")?;
    push_rivals(alloc, map, all, line, prov, out)
}

/// Appends why a unit disbands.
fn push_disbanding(
    alloc: Global,
    map: &Map,
    all: &[RetreatLine],
    line: &RetreatLine,
    out: &mut String,
) -> Result<(), AllocError>
    ensures { OnOk result (string_bytes out.new ≡ string_bytes out.old ++ r.disbanding_text map.now
        all.now line.now (refuge line.now.placed.order)) }
{
    match refuge(&line.placed.order) {
        None => out.push_str(" disbands: no retreat was ordered"),
        Some(to) => push_clash(alloc, map, all, line, to.prov, out),
    }
}

/// Appends what became of a dislodged unit, and why.
fn push_fate(
    alloc: Global,
    map: &Map,
    all: &[RetreatLine],
    line: &RetreatLine,
    out: &mut String,
) -> Result<(), AllocError>
    ensures { OnOk result (string_bytes out.new ≡ string_bytes out.old ++ r.fate_text map.now
        all.now line.now) }
{
    if line.is_made {
        return out.push_str(" retreats: no other unit goes there");
    }
    push_disbanding(alloc, map, all, line, out)
}

/// The dislodged unit that is this one.
fn dislodged_entry(all: &[Dislodged], unit: &Unit) -> Option<Dislodged>
    ensures { result ≡ find (λ d. is_same_unit d.unit unit.now) all.now }
{
    for dislodged in all {
        if is_same_unit(&dislodged.unit, unit) {
            return Some(*dislodged);
        }
    }
    None
}

/// Appends the neighbouring places of the dislodged unit of which a line tells.
fn push_neighbours(
    alloc: Global,
    map: &Map,
    board: &Board,
    line: &RetreatLine,
    out: &mut String,
) -> Result<(), AllocError>
    ensures { OnOk result (string_bytes out.new ≡ string_bytes out.old ++ r.neighbours_text map.now
        board.now (r.dislodged_in board.now line.now)) }
{
    match dislodged_entry(board.dislodged(), &line.placed.unit) {
        None => Ok(()),
        Some(dislodged) => push_places(alloc, map, board, &dislodged, out),
    }
}

/// Appends the line of a dislodged unit.
fn push_retreat(
    alloc: Global,
    map: &Map,
    board: &Board,
    all: &[RetreatLine],
    line: &RetreatLine,
    out: &mut String,
) -> Result<(), AllocError>
    ensures { OnOk result (string_bytes out.new ≡ string_bytes out.old ++ r.retreat_text map.now
        board.now all.now line.now) }
{
    print_order(map, &line.placed, out)?;
    push_fate(alloc, map, all, line, out)?;
    push_neighbours(alloc, map, board, line, out)?;
    out.push_str("\n")
}

/// Appends why the retreats of a board came out as these lines tell: for each dislodged unit what became of it, and which of its
/// neighbouring places were open. The only error is want of memory.
pub fn push_retreats(
    alloc: Global,
    map: &Map,
    board: &Board,
    lines: &[RetreatLine],
    out: &mut String,
) -> Result<(), AllocError>
    ensures { OnOk result (string_bytes out.new ≡ string_bytes out.old ++ r.retreats_explained
        map.now board.now lines.now) }
{
    for line in lines {
        push_retreat(alloc, map, board, lines, line, out)?;
    }
    Ok(())
}
