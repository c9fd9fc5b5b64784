//! Whether orders can be given beside one another, and come as papers print them.
ghost use Rattle.std.specs.Prelude.{◌≡◌, IfOk, true};
ghost use Rattle.std.specs.List.{list_all};
ghost use Rattle.dip_desk_games.specs.ByPlace.{are_by_place, comes_before};
ghost use Rattle.dip_map.specs.Boards.{IsOf};
ghost use Rattle.dip_orders.specs.Given.{AreGiven, IsEachGiven, orders_of_power};
ghost use Rattle.dip_orders.specs.Laws.{IsGiven};

use crate::same::is_same;
use dip_desk_games::orders_of_power;
use dip_map::{Board, Map};
use dip_orders::{PlacedOrder, orders_are_read_again, print_order, read_order};
use std::alloc::{AllocError, Global};

/// Whether an order comes before another one: by power, and a power's by province.
fn comes_before(one: &PlacedOrder, other: &PlacedOrder) -> bool
    ensures { result ≡ comes_before one.now other.now }
{
    one.unit.power < other.unit.power
        || (one.unit.power == other.unit.power && one.unit.place.prov < other.unit.place.prov)
}

/// Whether the order comes before each of the others, by its unit's province.
fn is_before_all(one: &PlacedOrder, others: &[PlacedOrder]) -> bool
    ensures { result ≡ list_all (comes_before one.now) others.now }
{
    others.iter().all(|other| comes_before(one, other))
}

/// Whether orders come by power, and a power's by province, each province once.
pub(crate) fn are_by_place(orders: &[PlacedOrder]) -> bool
    ensures { result ≡ are_by_place orders.now }
{
    for (number, order) in orders.iter().enumerate() {
        if !is_before_all(order, &orders[number + 1..]) {
            return false;
        }
    }
    true
}

/// Whether an order can be given beside these of its power.
fn is_given(
    alloc: Global,
    map: &Map,
    board: &Board,
    beside: &[PlacedOrder],
    order: &PlacedOrder,
) -> Result<bool, AllocError>
    requires of_map { IsOf map.now board.now }
    ensures given { IfOk result (λ r. r ≡ true
        → IsGiven map.now board.now order.now.unit.power beside.now order.now) }
    ensures taken { IfOk result (λ r.
        IsGiven map.now board.now order.now.unit.power beside.now order.now → r ≡ true) }
{
    map.facts();
    orders_are_read_again();
    let mut line = String::new(alloc);
    print_order(map, order, &mut line)?;
    match read_order(map, board, order.unit.power, beside, line.as_str()) {
        Ok(placed) => Ok(is_same(&placed, order)),
        Err(_) => Ok(false),
    }
}

/// Whether each order can be given beside the others of its power.
pub(crate) fn are_each_given(
    alloc: Global,
    map: &Map,
    board: &Board,
    orders: &[PlacedOrder],
) -> Result<bool, AllocError>
    requires of_map { IsOf map.now board.now }
    ensures given { IfOk result (λ r. r ≡ true → IsEachGiven map.now board.now orders.now) }
    ensures taken { IfOk result (λ r. IsEachGiven map.now board.now orders.now → r ≡ true) }
{
    for order in orders {
        let beside = orders_of_power(alloc, orders, order.unit.power)?;
        if !is_given(alloc, map, board, beside.as_slice(), order)? {
            return Ok(false);
        }
    }
    Ok(true)
}

/// Whether each order can be given beside the others of its power, no power has two in one
/// province, and they are in a paper's order.
pub fn are_given(
    alloc: Global,
    map: &Map,
    board: &Board,
    orders: &[PlacedOrder],
) -> Result<bool, AllocError>
    requires of_map { IsOf map.now board.now }
    ensures given { IfOk result (λ r. r ≡ true → AreGiven map.now board.now orders.now) }
    ensures placed { IfOk result (λ r. r ≡ true → are_by_place orders.now ≡ true) }
    ensures taken { IfOk result (λ r. AreGiven map.now board.now orders.now
        → are_by_place orders.now ≡ true → r ≡ true) }
{
    if !are_by_place(orders) {
        return Ok(false);
    }
    are_each_given(alloc, map, board, orders)
}
