//! Orders and units printed.
ghost use Rattle.std.specs.Prelude.{◌≡◌, ◌++◌, OnOk, OnErr, codes, string_bytes};
ghost use Rattle.dip_map.specs.Charts.{province, shore};
ghost use Rattle.dip_orders.specs.Texts.{behind_slash, place_text, kind_letter, other_text, verb_text, via_text, action_text, order_text, unit_text, Extends};

use dip_map::Map;
use dip_names::{Kind, Place, Prov, Unit};
use dip_orders_placed::{Order, Other, PlacedOrder};
use std::alloc::AllocError;

/// Appends a slash and the coast's name; nothing where it has none.
fn print_coast(name: &str, out: &mut String) -> Result<(), AllocError>
    ensures text { OnOk result
        (string_bytes out.new ≡ string_bytes out.old ++ behind_slash name.now) }
    ensures more { Extends (string_bytes out.old) (string_bytes out.new) }
{
    if name.len() == 0 {
        return Ok(());
    }
    out.push_str("/")?;
    out.push_str(name)
}

/// Appends the place of a unit of this kind: its province's code, and for a fleet the coast. The only error is want of memory.
pub fn print_place(map: &Map, kind: Kind, place: Place, out: &mut String) -> Result<(), AllocError>
    ensures text { OnOk result
        (string_bytes out.new ≡ string_bytes out.old ++ place_text map.now kind place) }
    ensures more { Extends (string_bytes out.old) (string_bytes out.new) }
{
    out.push_str(map.code(place.prov))?;
    match kind {
        Kind::Army => Ok(()),
        Kind::Fleet => print_coast(map.coast_name(place), out),
    }
}

/// The letter of a kind of unit.
fn kind_text(kind: Kind) -> &'static str
    ensures { result.now ≡ kind_letter kind }
{
    match kind {
        Kind::Army => "A ",
        Kind::Fleet => "F ",
    }
}

/// Appends a unit: its letter and its place.
#[tactic(auto, unfolding(crate::specs::Texts::unit_text))]
fn append_unit(map: &Map, unit: &Unit, out: &mut String) -> Result<(), AllocError>
    ensures text { OnOk result
        (string_bytes out.new ≡ string_bytes out.old ++ unit_text map.now unit.now) }
    ensures more { Extends (string_bytes out.old) (string_bytes out.new) }
{
    out.push_str(kind_text(unit.kind))?;
    print_place(map, unit.kind, unit.place, out)
}

/// Appends a unit: its kind, its province and, for a fleet, the coast. Where memory is short nothing is appended.
pub fn print_unit(map: &Map, unit: &Unit, out: &mut String) -> Result<(), AllocError>
    ensures text { OnOk result
        (string_bytes out.new ≡ string_bytes out.old ++ unit_text map.now unit.now) }
    ensures unchanged { OnErr result (string_bytes out.new ≡ string_bytes out.old) }
{
    let before = out.len();
    let printed = append_unit(map, unit, out);
    if printed.is_err() {
        out.truncate(before);
    }
    printed
}

/// Appends the unit that an order mentions.
fn print_other(map: &Map, at: Other, out: &mut String) -> Result<(), AllocError>
    ensures text { OnOk result
        (string_bytes out.new ≡ string_bytes out.old ++ other_text map.now at) }
    ensures more { Extends (string_bytes out.old) (string_bytes out.new) }
{
    out.push_str(kind_text(at.kind))?;
    out.push_str(map.code(at.prov))
}

/// What follows a move that goes by convoy.
fn via_text(via: bool) -> &'static str
    ensures { result.now ≡ via_text via }
{
    if via { " VIA" } else { "" }
}

/// Appends where a supported or convoyed unit goes.
fn print_to(map: &Map, to: Prov, out: &mut String) -> Result<(), AllocError>
    ensures text { OnOk result
        (string_bytes out.new ≡ string_bytes out.old ++ codes " - " ++ (province map.now to).code) }
    ensures more { Extends (string_bytes out.old) (string_bytes out.new) }
{
    out.push_str(" - ")?;
    out.push_str(map.code(to))
}

/// Appends where a unit moves, and whether by convoy.
fn print_move(
    map: &Map,
    kind: Kind,
    to: Place,
    via: bool,
    out: &mut String,
) -> Result<(), AllocError>
    ensures text { OnOk result
        (string_bytes out.new ≡ string_bytes out.old ++ codes " - " ++ place_text map.now kind to ++
        via_text via) }
    ensures more { Extends (string_bytes out.old) (string_bytes out.new) }
{
    out.push_str(" - ")?;
    print_place(map, kind, to, out)?;
    out.push_str(via_text(via))
}

/// Appends a support or a convoy: its verb, and the unit that it mentions.
fn print_help(map: &Map, verb: &str, at: Other, out: &mut String) -> Result<(), AllocError>
    ensures text { OnOk result
        (string_bytes out.new ≡ string_bytes out.old ++ verb.now ++ other_text map.now at) }
    ensures more { Extends (string_bytes out.old) (string_bytes out.new) }
{
    out.push_str(verb)?;
    print_other(map, at, out)
}

/// Appends where a unit retreats.
fn print_retreat(map: &Map, kind: Kind, to: Place, out: &mut String) -> Result<(), AllocError>
    ensures text { OnOk result
        (string_bytes out.new ≡ string_bytes out.old ++ codes " R " ++ place_text map.now kind to) }
    ensures more { Extends (string_bytes out.old) (string_bytes out.new) }
{
    out.push_str(" R ")?;
    print_place(map, kind, to, out)
}

/// Appends what a unit is ordered to do.
fn print_action(map: &Map, kind: Kind, order: Order, out: &mut String) -> Result<(), AllocError>
    ensures text { OnOk result
        (string_bytes out.new ≡ string_bytes out.old ++ action_text map.now kind order) }
    ensures more { Extends (string_bytes out.old) (string_bytes out.new) }
{
    match order {
        Order::Hold => out.push_str(" H"),
        Order::Move { to, via } => print_move(map, kind, to, via, out),
        Order::SupportHold { at } => print_help(map, " S ", at, out),
        Order::SupportMove { at, to } => {
            print_help(map, " S ", at, out)?;
            print_to(map, to, out)
        }
        Order::Convoy { at, to } => {
            print_help(map, " C ", at, out)?;
            print_to(map, to, out)
        }
        Order::Retreat { to } => print_retreat(map, kind, to, out),
        Order::Disband => out.push_str(" D"),
        Order::Build | Order::Remove => Ok(()),
    }
}

/// What stands before a unit that is built or removed.
fn verb_text(order: &Order) -> &'static str
    ensures { result.now ≡ verb_text order.now }
{
    match order {
        Order::Build => "BUILD ",
        Order::Remove => "REMOVE ",
        Order::Hold | Order::Move { .. } | Order::SupportHold { .. } => "",
        Order::SupportMove { .. } | Order::Convoy { .. } => "",
        Order::Retreat { .. } | Order::Disband => "",
    }
}

/// Appends an order, as its line is printed.
fn append_order(map: &Map, placed: &PlacedOrder, out: &mut String) -> Result<(), AllocError>
    ensures text { OnOk result
        (string_bytes out.new ≡ string_bytes out.old ++ order_text map.now placed.now) }
    ensures more { Extends (string_bytes out.old) (string_bytes out.new) }
{
    let unit = placed.unit;
    out.push_str(verb_text(&placed.order))?;
    out.push_str(kind_text(unit.kind))?;
    print_place(map, unit.kind, unit.place, out)?;
    print_action(map, unit.kind, placed.order, out)
}

/// Appends the canonical text of an order. Where memory is short nothing is appended.
pub fn print_order(map: &Map, placed: &PlacedOrder, out: &mut String) -> Result<(), AllocError>
    ensures text { OnOk result
        (string_bytes out.new ≡ string_bytes out.old ++ order_text map.now placed.now) }
    ensures unchanged { OnErr result (string_bytes out.new ≡ string_bytes out.old) }
{
    let before = out.len();
    let printed = append_order(map, placed, out);
    if printed.is_err() {
        out.truncate(before);
    }
    printed
}
