//! Orders, and the units that they are given to.
use dip_names::{Kind, Place, Prov, Unit};

/// The other unit that a support or a convoy names: its kind and its province.
#[derive(Clone, Copy, PartialEq, Eq, Debug)]
pub struct Other {
    pub kind: Kind,
    pub prov: Prov,
}

/// What a unit is to do.
#[derive(Clone, Copy, PartialEq, Eq, Debug)]
pub enum Order {
    /// Stay where it is; a unit that has no order does so too.
    Hold,
    /// Go to a place; an army goes by convoy where `via` says so, or where it can't walk there.
    Move { to: Place, via: bool },
    /// Help a unit to stay where it is, or to do anything else but move.
    SupportHold { at: Other },
    /// Help a unit to move to a province.
    SupportMove { at: Other, to: Prov },
    /// Carry an army over sea to a province.
    Convoy { at: Other, to: Prov },
    /// Go to a place, having been dislodged.
    Retreat { to: Place },
    /// Leave the board, having been dislodged.
    Disband,
    /// Come onto the board.
    Build,
    /// Leave the board, since the power has more units than centres.
    Remove,
}

/// A unit and its order: a standing unit, a dislodged one, or one to be built.
#[derive(Clone, Copy, PartialEq, Eq, Debug)]
pub struct PlacedOrder {
    pub unit: Unit,
    pub order: Order,
}
