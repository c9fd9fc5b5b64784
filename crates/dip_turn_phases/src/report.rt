//! What is told of a phase that was adjudicated.
use crate::lines::{CentreLine, Course, MovementLine, RetreatLine, Waiver};
use dip_decide_rules::Resolution;
use dip_map::Phase;
use dip_names::Unit;
use dip_orders_placed::Orders;

/// The account of a movement: what was ordered and decided, and what became of each order and unit.
#[derive(Drop)]
pub struct Movement {
    /// One order for each unit that stood, in the board's order.
    pub orders: Orders,
    /// What was decided, and the steps that explain it.
    pub resolution: Resolution,
    /// What became of each order and its unit, in the same order as `orders`.
    pub lines: Vec<MovementLine>,
}

/// What is told of a Winter.
#[derive(Drop)]
pub struct Adjustment {
    /// The units that were built.
    pub builds: Vec<Unit>,
    /// The units that were removed by their power's order.
    pub removals: Vec<Unit>,
    /// The units that were removed since their power owed removals and gave none, power by power in the order in which they went.
    pub disorder: Vec<Unit>,
    /// The waived builds, by power.
    pub waivers: Vec<Waiver>,
}

/// The account of a movement, of retreats, or of a Winter.
#[derive(Drop)]
pub enum Account {
    Movement(Movement),
    /// A line for each dislodged unit, in the board's order.
    Retreats(Vec<RetreatLine>),
    Adjustment(Adjustment),
}

/// All that the adjudication of a phase says beside the board after it. A paper prints it.
#[derive(Drop)]
pub struct Report {
    /// The phase that was played; a game that goes on has the next one on its board.
    pub phase: Phase,
    pub account: Account,
    /// The centres that changed hands, by code.
    pub centres: Vec<CentreLine>,
    pub course: Course,
}
