//! The orders of a movement by province.
ghost use Rattle.std.specs.Prelude.{◌≡◌, ◌<◌, ℕ, false, length, replicate, map, List, None, Option, Some, All, IfOk};
ghost use Rattle.std.specs.List.{slice_set};
ghost use Rattle.dip_decide_table.specs.Held.{units_of};
ghost use Rattle.dip_orders_placed.specs.declared.placed.PlacedOrder.{PlacedOrder as APlacedOrder};
ghost use Rattle.dip_decide_table.specs.Matching.{is_convoyed, provinces_of, situation, target_of};
ghost use Rattle.dip_decide_table.specs.Rows.{rows_of, alike_rows, situation_of};
ghost use Rattle.dip_decide_table.specs.Columns.{AreColumns};
ghost use Rattle.dip_decide_table.specs.Placed.{backed_of, backings_among, backings_of, carried_of, entry, keyed_by, targets_of};

use crate::held::ByKey;
use crate::keys::by_key;
use crate::matching::{backed_by, carried_of, is_convoyed_of, target_of};
use crate::placed::Table;
use dip_map::Map;
use dip_names::Prov;
use dip_orders_placed::PlacedOrder;
use std::alloc::{AllocError, Global};

/// What the orders say, by the numbers of the provinces.
#[derive(Drop)]
pub struct Columns {
    /// The order of the unit in each province.
    pub rows: Vec<Option<PlacedOrder>>,
    /// Where the unit in each province goes, if it goes somewhere.
    pub targets: Vec<Option<Prov>>,
    /// Whether the unit in each province goes by convoy.
    pub convoyed: Vec<bool>,
    /// Whom the unit in each province convoys, whether that matches or not.
    pub carried: Vec<Option<Prov>>,
}

/// No order for a province.
fn no_order() -> Option<PlacedOrder>
    ensures { result ≡ None }
{
    None
}

/// A row for each province, into which none of these orders was put yet. The orders are named so that the kit's borrow checker is told
/// what an order is: without them it refuses the function.
fn no_orders(
    alloc: Global,
    map: &Map,
    orders: &[PlacedOrder],
) -> Result<Vec<Option<PlacedOrder>>, AllocError>
    ensures { IfOk result (λ v. v.items ≡ alike_rows None map.now) }
{
    let _ = orders;
    let mut rows = Vec::with_capacity(alloc, map.province_count())?;
    for prov in map.each_province() {
        let _ = prov;
        rows.push(no_order())?;
    }
    Ok(rows)
}

/// A column of so many provinces, none of which names anybody.
fn nobody(alloc: Global, count: usize) -> Result<Vec<Option<Prov>>, AllocError>
    ensures { IfOk result (λ v. v.items ≡ replicate count None) }
{
    let column = vec![in alloc; None; count]?;
    Ok(column)
}

/// A column of what holds nowhere.
fn nowhere(alloc: Global, count: usize) -> Result<Vec<bool>, AllocError>
    ensures { IfOk result (λ v. v.items ≡ replicate count false) }
{
    let column = vec![in alloc; false; count]?;
    Ok(column)
}

/// Writes whom the unit in a province names. A province past the column's end is left out.
fn put_name(column: &mut Vec<Option<Prov>>, p: Prov, name: Option<Prov>)
    ensures { column.new.items ≡ slice_set column.old.items p name }
{
    if let Some(place) = column.get_mut(usize::from(p.index())) {
        *place = name;
    }
}

/// Puts an order at its unit's province, in each column.
fn put_order(columns: &mut Columns, map: &Map, placed: &PlacedOrder)
    ensures rows { columns.new.rows.items
        ≡ slice_set columns.old.rows.items placed.now.unit.place.prov (Some placed.now) }
    ensures targets { columns.new.targets.items
        ≡ slice_set columns.old.targets.items placed.now.unit.place.prov
        (target_of (Some placed.now)) }
    ensures convoyed { columns.new.convoyed.items
        ≡ slice_set columns.old.convoyed.items placed.now.unit.place.prov
        (is_convoyed map.now (Some placed.now)) }
    ensures carried { columns.new.carried.items
        ≡ slice_set columns.old.carried.items placed.now.unit.place.prov
        (carried_of (Some placed.now)) }
{
    let p = placed.unit.place.prov;
    let order = Some(*placed);
    if let Some(row) = columns.rows.get_mut(usize::from(p.index())) {
        *row = order;
    }
    if let Some(place) = columns.convoyed.get_mut(usize::from(p.index())) {
        *place = is_convoyed_of(map, &order);
    }
    put_name(&mut columns.targets, p, target_of(&order));
    put_name(&mut columns.carried, p, carried_of(&order));
}

/// Columns of a table in which no province has an order yet.
fn no_columns(alloc: Global, map: &Map, orders: &[PlacedOrder]) -> Result<Columns, AllocError>
    ensures rows { IfOk result (λ c. c.rows.items ≡ alike_rows None map.now) }
    ensures targets { IfOk result
        (λ c. c.targets.items ≡ replicate (length map.now.provinces) None) }
    ensures convoyed { IfOk result
        (λ c. c.convoyed.items ≡ replicate (length map.now.provinces) false) }
    ensures carried { IfOk result
        (λ c. c.carried.items ≡ replicate (length map.now.provinces) None) }
{
    let count = map.province_count();
    let rows = no_orders(alloc, map, orders)?;
    let targets = nobody(alloc, count)?;
    let convoyed = nowhere(alloc, count)?;
    let carried = nobody(alloc, count)?;
    Ok(Columns {
        rows,
        targets,
        convoyed,
        carried,
    })
}

/// The columns of these orders, from the last order to the first.
fn columns_of(alloc: Global, map: &Map, orders: &[PlacedOrder]) -> Result<Columns, AllocError>
    ensures { IfOk result (AreColumns map.now (rows_of orders.now map.now)) }
{
    let mut columns = no_columns(alloc, map, orders)?;
    let mut left = orders.len();
    while left > 0 {
        left -= 1;
        put_order(&mut columns, map, &orders[left]);
    }
    Ok(columns)
}

/// Whom the unit in each province supports, if that matches by the rows of all orders.
fn backings(
    alloc: Global,
    map: &Map,
    orders: &[PlacedOrder],
    rows: &[Option<PlacedOrder>],
) -> Result<Vec<Option<Prov>>, AllocError>
    ensures { IfOk result
        (λ v. v.items ≡ backings_among (entry rows.now) (rows_of orders.now map.now)) }
{
    let mut backed = nobody(alloc, map.province_count())?;
    let mut left = orders.len();
    while left > 0 {
        left -= 1;
        let placed = &orders[left];
        put_name(&mut backed, placed.unit.place.prov, backed_by(rows, placed));
    }
    Ok(backed)
}

/// The provinces of the units that have orders.
fn places_of(alloc: Global, orders: &[PlacedOrder]) -> Result<Vec<Prov>, AllocError>
    ensures { IfOk result (λ v. v.items ≡ provinces_of orders.now) }
{
    let mut places = Vec::with_capacity(alloc, orders.len())?;
    for placed in orders {
        places.push(placed.unit.place.prov)?;
    }
    Ok(places)
}

/// The units by where they go.
fn movers_of(alloc: Global, places: &[Prov], targets: &[Option<Prov>]) -> Result<ByKey, AllocError>
    ensures { IfOk result (λ b. (rows : List (Option APlacedOrder)) → targets.now ≡ targets_of rows
        → (q : ℕ) → units_of b q ≡ keyed_by target_of places.now rows q) }
{
    by_key(alloc, places, targets)
}

/// The units by the one that they support, if that matches.
fn helpers_of(alloc: Global, places: &[Prov], backed: &[Option<Prov>]) -> Result<ByKey, AllocError>
    ensures { IfOk result (λ b. (rows : List (Option APlacedOrder)) → backed.now ≡ backings_of rows
        → (q : ℕ) → units_of b q ≡ keyed_by (backed_of (entry rows)) places.now rows q) }
{
    by_key(alloc, places, backed)
}

/// The units by the one that they convoy.
fn carriers_of(
    alloc: Global,
    places: &[Prov],
    carried: &[Option<Prov>],
) -> Result<ByKey, AllocError>
    ensures { IfOk result
        (λ b. (rows : List (Option APlacedOrder)) → carried.now ≡ map carried_of rows
        → (q : ℕ) → units_of b q ≡ keyed_by carried_of places.now rows q) }
{
    by_key(alloc, places, carried)
}

/// The table of these orders, made once for a movement. Their units are in provinces of the map.
pub fn table_of<'a>(
    alloc: Global,
    map: &'a Map,
    orders: &[PlacedOrder],
) -> Result<Table<'a>, AllocError>
    requires within { All (λ o. o.unit.place.prov < length map.now.provinces) orders.now }
    ensures { IfOk result (λ t. situation_of t ≡ situation map.now orders.now) }
{
    let places = places_of(alloc, orders)?;
    let Columns {
        rows,
        targets,
        convoyed,
        carried,
    } = columns_of(alloc, map, orders)?;
    let backed = backings(alloc, map, orders, rows.as_slice())?;
    let movers = movers_of(alloc, places.as_slice(), targets.as_slice())?;
    let helpers = helpers_of(alloc, places.as_slice(), backed.as_slice())?;
    let carriers = carriers_of(alloc, places.as_slice(), carried.as_slice())?;
    Ok(Table {
        map,
        places,
        rows,
        targets,
        convoyed,
        backed,
        movers,
        helpers,
        carriers,
    })
}
