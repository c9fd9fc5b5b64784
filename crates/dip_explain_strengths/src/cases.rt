//! What a line of an explanation is about, and how it names units and orders.
use dip_decide_rules::Corner;
use dip_map::Map;
use dip_orders::PlacedOrder;

/// A decision, and what a line tells of it by.
#[derive(Clone, Copy)]
pub struct Case<'a> {
    pub map: &'a Map,
    /// The orders of the movement as they are meant on its board (`meant`).
    pub orders: &'a [PlacedOrder],
    /// The completion at which the line is told: the greatest for a decision that came out false, else the least.
    pub corner: Corner<'a>,
}
