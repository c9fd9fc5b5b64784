//! The orders that stand when the movement of a phase is decided.
ghost use Rattle.std.specs.Prelude.{◌≡◌, IfOk, map, true, find};
ghost use Rattle.dip_orders_placed.specs.Standing.{is_done_from, is_in_force, are_in_force, is_same_unit, found_order, order_among, standing_orders};

use crate::placed::{Order, PlacedOrder};
use dip_map::Board;
use dip_names::{Prov, Unit};
use std::alloc::{AllocError, Global};
use std::marker::Model;

/// Orders that are in force in a phase of movement: to hold, to move to another province, to support or to convoy.
///
/// Who decides a movement is handed these alone, so it meets no order of another phase and no move of a unit to where it stands.
#[derive(Drop)]
pub struct Orders {
    placed: Vec<PlacedOrder>,
}

impl Model for Orders {
    ghost use Rattle.std.specs.Prelude.{◌≡◌, List, true};
    ghost use Rattle.dip_orders_placed.specs.declared.placed.PlacedOrder.{PlacedOrder as AnOrder};
    ghost use Rattle.dip_orders_placed.specs.Standing.{are_in_force};

    ghost Value = { List AnOrder };

    ghost view = { λ o. o.placed.items };

    ghost invariant = { λ o. are_in_force o.placed.items ≡ true };
}

impl Orders {
    /// One order for each unit of the board, in the board's order: the first of those given that is the unit's own and in force. A unit
    /// that was given none holds.
    ///
    /// An order of another phase is not in force, nor is a move to the unit's own province: no such order is ever read in a phase of
    /// movement (`orders_read_are_in_force`), and what decides it is spared them. An order of a unit that isn't on the board is left out. The only error is want of
    /// memory.
    pub fn standing(
        alloc: Global,
        board: &Board,
        pending: &[PlacedOrder],
    ) -> Result<Orders, AllocError>
        ensures value { IfOk result (λ o. o ≡ standing_orders board.now pending.now) }
    {
        let placed = orders_of(alloc, board.units(), pending)?;
        Ok(Orders { placed })
    }

    /// These orders, each of them in force.
    pub fn as_slice(&self) -> &[PlacedOrder]
        ensures { result.now ≡ self.now }
    {
        self.placed.as_slice()
    }

    /// What such orders keep: each is in force.
    pub fn facts(&self)
        ensures { are_in_force self.now ≡ true }
    {
        let _ = &self.placed;
    }
}

/// Whether a unit in a province can do it in a phase of movement.
fn is_done_from(prov: Prov, order: &Order) -> bool
    ensures { result ≡ is_done_from prov order.now }
{
    match order {
        Order::Hold | Order::SupportHold { .. } | Order::SupportMove { .. } => true,
        Order::Convoy { .. } => true,
        Order::Move { to, .. } => to.prov != prov,
        Order::Retreat { .. } | Order::Disband | Order::Build | Order::Remove => false,
    }
}

/// Whether an order counts in a movement: its unit can do it there.
fn is_in_force(placed: &PlacedOrder) -> bool
    ensures { result ≡ is_in_force placed.now }
{
    is_done_from(placed.unit.place.prov, &placed.order)
}

/// Whether two units are one: a power's, of one kind, at one place.
pub fn is_same_unit(unit: &Unit, other: &Unit) -> bool
    ensures { result ≡ is_same_unit unit.now other.now }
{
    unit.power == other.power
        && unit.kind.is(other.kind)
        && unit.place.prov == other.place.prov
        && unit.place.coast == other.place.coast
}

/// The first order in force that is the unit's own.
fn found_order(pending: &[PlacedOrder], unit: &Unit) -> Option<PlacedOrder>
    ensures { result ≡ found_order pending.now unit.now }
{
    for placed in pending {
        if is_same_unit(&placed.unit, unit) && is_in_force(placed) {
            return Some(*placed);
        }
    }
    None
}

/// The order of a unit: the first that stands and is its own, else it holds.
fn order_among(pending: &[PlacedOrder], unit: &Unit) -> PlacedOrder
    ensures { result ≡ order_among pending.now unit.now }
{
    let order = match found_order(pending, unit) {
        Some(placed) => placed.order,
        None => Order::Hold,
    };
    PlacedOrder { unit: *unit, order }
}

/// An order for each of these units, in their order.
fn orders_of(
    alloc: Global,
    units: &[Unit],
    pending: &[PlacedOrder],
) -> Result<Vec<PlacedOrder>, AllocError>
    ensures { IfOk result (λ v. v.items ≡ map (order_among pending.now) units.now) }
{
    let mut placed = Vec::new(alloc);
    for unit in units {
        placed.push(order_among(pending, unit))?;
    }
    Ok(placed)
}
