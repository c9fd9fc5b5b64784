//! The forms of orders, before their codes are looked up.
use dip_names::Kind;

/// A place as written: a province's code and, where one is written, a coast's name.
#[derive(Clone, Copy)]
pub struct Spot {
    /// Three letters, in lower case.
    pub code: [u8; 3],
    /// Two letters, in lower case.
    pub coast: Option<[u8; 2]>,
}

/// A unit as a line names it. Nobody has looked yet whether there is such a unit.
#[derive(Clone, Copy)]
pub struct Mention {
    /// The kind that the line says: `A` or `F`.
    pub kind: Kind,
    /// The province's code that the line says, with a coast or without.
    pub at: Spot,
}

/// What a line says, before it is held against a board.
#[derive(Clone, Copy)]
pub enum Form {
    /// `A par H`
    Hold {
        unit: Mention,
    },
    /// `A par - bur`, `A lon - bel VIA`
    Move {
        unit: Mention,
        to: Spot,
        via: bool,
    },
    /// `A mar S A par`, and `A mar S A par H`, where `held`
    SupportHold {
        unit: Mention,
        other: Mention,
        held: bool,
    },
    /// `A mar S A par - bur`
    SupportMove {
        unit: Mention,
        other: Mention,
        to: Spot,
    },
    /// `F nth C A lon - bel`
    Convoy {
        unit: Mention,
        army: Spot,
        to: Spot,
    },
    /// `A mun R boh`
    Retreat {
        unit: Mention,
        to: Spot,
    },
    /// `A mun D`
    Disband {
        unit: Mention,
    },
    /// `BUILD A par`, `BUILD F stp/nc`
    Build {
        unit: Mention,
    },
    /// `REMOVE A par`
    Remove {
        unit: Mention,
    },
}
