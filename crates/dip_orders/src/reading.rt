//! An order line read on a board, or its first fault.
ghost use Rattle.std.specs.Prelude.{◌≡◌};
ghost use Rattle.dip_orders.specs.Reading.{order_of};
ghost use Rattle.dip_orders.specs.Rules.{IsReading};
ghost use Rattle.dip_orders.specs.Checking.{in_phase, order_steps};

use crate::builds::{build_of, remove_of};
use crate::faults::OrderFault;
use crate::moves::{hold_of, move_of};
use crate::phases::is_in_phase;
use crate::supports::{convoy_of, support_hold_of, support_move_of};
use crate::withdrawals::{disband_of, retreat_of};
use dip_map::{Board, Map, Phase};
use dip_names::Power;
use dip_orders_lines::{Form, form_of_line};
use dip_orders_placed::PlacedOrder;

/// The order that a form is on this board, or the first check that it fails.
fn placed_of(
    map: &Map,
    board: &Board,
    power: Power,
    pending: &[PlacedOrder],
    form: Form,
) -> Result<PlacedOrder, OrderFault>
    ensures { result ≡ order_steps map.now board.now power pending.now form }
{
    match form {
        Form::Hold { unit } => hold_of(map, board, power, unit),
        Form::Move { unit, to, via } => move_of(map, board, power, unit, to, via),
        Form::SupportHold { unit, other, .. } => support_hold_of(map, board, power, unit, other),
        Form::SupportMove { unit, other, to } => {
            support_move_of(map, board, power, unit, other, to)
        }
        Form::Convoy { unit, army, to } => convoy_of(map, board, power, unit, army, to),
        Form::Retreat { unit, to } => retreat_of(map, board, power, unit, to),
        Form::Disband { unit } => disband_of(map, board, power, unit),
        Form::Build { unit } => build_of(map, board, power, pending, unit),
        Form::Remove { unit } => remove_of(map, board, power, pending, unit),
    }
}

/// The order that a form is on this board, if such a form is given in this kind of phase; else the
/// fault `NotInThisPhase`.
fn in_phase(
    map: &Map,
    board: &Board,
    power: Power,
    pending: &[PlacedOrder],
    form: Form,
) -> Result<PlacedOrder, OrderFault>
    ensures { result ≡ in_phase map.now board.now power pending.now form }
{
    if !is_in_phase(&form, board.phase().season) {
        return Err(OrderFault::NotInThisPhase);
    }
    placed_of(map, board, power, pending, form)
}

/// The order of a power that a line states on this board, or the first rule that it breaks, in the order of O1, O11, O2,
/// what is wrong with the ordered unit, and what belongs to the form.
///
/// `pending` holds the power's orders that stand: a build, or a removal, is read where fewer than are due stand in other provinces.
#[tactic(auto, unfolding(crate::specs::Reading::order_of))]
pub fn read_order(
    map: &Map,
    board: &Board,
    power: Power,
    pending: &[PlacedOrder],
    line: &str,
) -> Result<PlacedOrder, OrderFault>
    ensures reading { IsReading map.now board.now power pending.now line.now result }
    ensures value { result ≡ order_of map.now board.now power pending.now line.now }
{
    match form_of_line(line) {
        Some(form) => in_phase(map, board, power, pending, form),
        None => Err(OrderFault::CannotBeRead),
    }
}
