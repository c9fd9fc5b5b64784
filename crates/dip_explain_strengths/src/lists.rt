//! Units and orders by their provinces, printed.
ghost use Rattle.std.specs.Prelude.{◌≡◌, ◌++◌, OnOk, string_bytes};
ghost use Rattle.dip_decide_rules.specs.Matching.{order_at};
ghost use Rattle.dip_explain_strengths.specs.Matters.{joined, order_in, others, unit_or_code};

use dip_map::Map;
use dip_names::Prov;
use dip_orders::{PlacedOrder, print_order, print_unit};
use std::alloc::AllocError;

/// The first of these orders whose unit stands in the province, if there is one.
fn order_at(orders: &[PlacedOrder], p: Prov) -> Option<PlacedOrder>
    ensures { result ≡ order_at orders.now p }
{
    for placed in orders {
        if placed.unit.place.prov == p {
            return Some(*placed);
        }
    }
    None
}

/// Appends the unit in a province, or the province's code where none has an order.
pub(crate) fn push_unit(
    map: &Map,
    orders: &[PlacedOrder],
    p: Prov,
    out: &mut String,
) -> Result<(), AllocError>
    ensures { OnOk result
        (string_bytes out.new ≡ string_bytes out.old ++ unit_or_code map.now p
        (order_at orders.now p)) }
{
    match order_at(orders, p) {
        Some(placed) => print_unit(map, &placed.unit, out),
        None => out.push_str(map.code(p)),
    }
}

/// Appends the order of the unit in a province, or the province's code where none has an order.
#[tactic(auto, unfolding(crate::specs::Matters::order_in))]
pub fn push_order(
    map: &Map,
    orders: &[PlacedOrder],
    p: Prov,
    out: &mut String,
) -> Result<(), AllocError>
    ensures { OnOk result
        (string_bytes out.new ≡ string_bytes out.old ++ order_in map.now orders.now p) }
{
    match order_at(orders, p) {
        Some(placed) => print_order(map, &placed, out),
        None => out.push_str(map.code(p)),
    }
}

/// Appends the orders of the units in these provinces, each after a comma.
fn push_other_orders(
    map: &Map,
    orders: &[PlacedOrder],
    units: &[Prov],
    out: &mut String,
) -> Result<(), AllocError>
    ensures { OnOk result
        (string_bytes out.new ≡ string_bytes out.old ++ others (order_in map.now orders.now)
        units.now) }
{
    for p in units {
        out.push_str(", ")?;
        push_order(map, orders, *p, out)?;
    }
    Ok(())
}

/// Appends the orders of the units in these provinces, with commas between them.
pub fn push_orders(
    map: &Map,
    orders: &[PlacedOrder],
    units: &[Prov],
    out: &mut String,
) -> Result<(), AllocError>
    ensures { OnOk result
        (string_bytes out.new ≡ string_bytes out.old ++ joined (order_in map.now orders.now)
        units.now) }
{
    let Some((first, rest)) = units.split_first() else {
        return Ok(());
    };
    push_order(map, orders, *first, out)?;
    push_other_orders(map, orders, rest, out)
}
