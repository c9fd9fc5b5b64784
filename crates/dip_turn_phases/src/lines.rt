//! What is told of each order of a movement, of each dislodged unit, each centre and each waived build.

use dip_names::{Power, Prov};
use dip_orders_placed::PlacedOrder;

/// What became of an order in a movement.
#[derive(Clone, Copy, PartialEq, Eq, Debug)]
pub enum Outcome {
    /// The unit had no order but to stay.
    Holds,
    /// The move succeeded: the unit stands at its destination.
    Moves,
    /// The move had a way and failed: the unit stays, unless it is dislodged.
    Bounced,
    /// The move was to go by convoy, and there was no chain of fleets to carry it.
    NoRoute,
    /// The support matched an order, and nothing cut it.
    Given,
    /// The support matched, and an attack cut it.
    Cut,
    /// The support or the convoy matched no order.
    Void,
    /// The convoy matched a move, whether that one came through or not.
    Convoys,
}

/// What became of a unit in a movement.
#[derive(Clone, Copy, PartialEq, Eq, Debug)]
pub enum Fate {
    /// It stands, where it was or at its destination.
    Stands,
    /// It was dislodged, and has to retreat or disband.
    Dislodged,
    /// It was dislodged and had no place to retreat to.
    Destroyed,
}

/// A unit in a movement, its order and what became of both.
#[derive(Clone, Copy, PartialEq, Eq, Debug)]
pub struct MovementLine {
    pub placed: PlacedOrder,
    pub outcome: Outcome,
    pub fate: Fate,
}

/// A dislodged unit and its order, to disband where it had none.
#[derive(Clone, Copy, PartialEq, Eq, Debug)]
pub struct RetreatLine {
    pub placed: PlacedOrder,
    /// Whether the unit retreated. If not, it disbanded.
    pub is_made: bool,
}

/// Builds that a power might have made and didn't.
#[derive(Clone, Copy, PartialEq, Eq, Debug)]
pub struct Waiver {
    pub power: Power,
    /// How many, at least 1.
    pub builds: usize,
}

/// A centre that changed hands, and the power that owns it now.
#[derive(Clone, Copy, PartialEq, Eq, Debug)]
pub struct CentreLine {
    pub prov: Prov,
    pub power: Power,
}

/// Whether a game goes on.
#[derive(Clone, Copy, PartialEq, Eq, Debug)]
pub enum Course {
    /// The board's phase is to be played next.
    GoesOn,
    /// The power owns more than half of all centres.
    Won(Power),
    /// The last phase of the last year was played, and nobody has won.
    Ended,
}
