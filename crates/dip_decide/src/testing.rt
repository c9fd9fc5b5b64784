//! The test of one decision, with values of one's own.
ghost use Rattle.std.specs.Prelude.{◌≡◌, ◌+◌, ◌<◌, ◌^◌, All, None, IfOk, length};
ghost use Rattle.dip_map.specs.Boards.{IsOf};
ghost use Rattle.dip_orders_placed.specs.Standing.{units_of};
ghost use Rattle.dip_decide_rules.specs.Given.{situation_of, known_of, IsAnswer};
ghost use Rattle.dip_decide_rules.specs.Meaning.{situation_on};
ghost use Rattle.dip_decide_rules.specs.Movement.{at_first, rule};

use crate::starting::values_at_start;
use dip_decide_rules::{Decision, Room, Table, Tests, Values, forced_on};
use dip_decide_table::table_on;
use dip_map::{Board, Map};
use dip_orders_placed::{Orders, PlacedOrder};
use std::alloc::{AllocError, Global};

/// What is known before anything is decided: of all that is no decision that it is false. The only error is want of memory.
pub fn known_at_first(
    alloc: Global,
    map: &Map,
    board: &Board,
    orders: &Orders,
) -> Result<Values, AllocError>
    requires is_of { IsOf map.now board.now }
    requires orders { units_of orders.now ≡ board.now.units }
    ensures { IfOk result (λ k. known_of k ≡ at_first (situation_on map.now board.now orders.now)) }
{
    let _ = board.units();
    let table = table_on(alloc, map, board, orders.as_slice())?;
    values_at_start(alloc, &table)
}

/// The table of a movement, its orders as they are meant, and room for the searches of one test.
fn ground_of<'a>(
    alloc: Global,
    map: &'a Map,
    board: &Board,
    orders: &[PlacedOrder],
) -> Result<(Table<'a>, Room), AllocError>
    requires { All (λ o. o.unit.place.prov < length map.now.provinces) orders.now }
    ensures { IfOk result (λ g. situation_of g.0 ≡ situation_on map.now board.now orders.now) }
{
    let table = table_on(alloc, map, board, orders)?;
    let room = Room::with_capacity(alloc, table.places.len())?;
    Ok((table, room))
}

/// The value to which an open decision is forced: what its equation gives whatever the other open decisions come to. None where
/// it isn't forced. `resolve` tests by the same function, over one table for all tests. The only error is want of memory; the test is
/// counted all the same.
pub fn forced_value(
    alloc: Global,
    map: &Map,
    board: &Board,
    orders: &Orders,
    known: &Values,
    d: Decision,
    tests: &mut Tests,
) -> Result<Option<bool>, AllocError>
    requires is_of { IsOf map.now board.now }
    requires orders { units_of orders.now ≡ board.now.units }
    requires open { known_of known.now d ≡ None }
    requires countable { tests.old + 1 < 2 ^ 64 }
    ensures answer { IfOk result
        (IsAnswer (rule (situation_on map.now board.now orders.now)) (known_of known.now) d) }
    ensures counted { tests.new ≡ tests.old + 1 }
{
    orders.facts();
    let _ = board.units();
    let ground = ground_of(alloc, map, board, orders.as_slice());
    forced_on(ground, known, &d, tests)
}
