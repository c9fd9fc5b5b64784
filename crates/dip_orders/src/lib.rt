//! Orders: read for a board and printed; where a dislodged unit may go, and how many units may be built.
#![tactic(auto)]

mod builds;
mod faults;
mod laws;
mod moves;
mod phases;
mod printing;
mod reading;
mod supports;
mod units;
mod withdrawals;

pub use builds::{is_build, is_remove};
pub use dip_orders_lines::{TokenList, tokens};
pub use dip_orders_placed::{
    Order, Orders, Other, PlacedOrder, allowance, builds_due, is_open, is_same_unit, next_places,
    removals_due, retreats, vacant_homes,
};
pub use faults::OrderFault;
pub use laws::{
    allowances_have_room, each_unit_has_one_order, lawful_orders_are_read,
    none_retreats_to_its_attacker, orders_are_lawful, orders_are_of_their_phase,
    orders_are_read_again, orders_read_are_in_force, retreats_and_builds_are_to_vacant_provinces,
    supporters_could_move,
};
pub use printing::{print_order, print_place, print_unit};
pub use reading::read_order;
