//! The rows of a board, each without its game's name.
use std::marker::Model;

/// A row of the units' table.
///
/// Kind 0 is an army, 1 a fleet. A fleet of a province with coasts of its own has its coast's name, each other unit the empty
/// one. The origin is the code of a dislodged unit's attacker, empty for each other unit and where the attack came by convoy.
#[derive(Drop)]
pub struct UnitColumns {
    pub province: String,
    pub dislodged: u32,
    pub power: String,
    pub kind: u32,
    pub coast: String,
    pub origin: String,
}

impl Model for UnitColumns {
    ghost use Rattle.std.specs.Prelude.{string_bytes, []};
    ghost use Rattle.dip_store_tables.specs.Boards.{UnitRow};

    ghost Value = { UnitRow };

    ghost view = { λ r. record { game = []; province = string_bytes r.province; dislodged = r.dislodged; power = string_bytes r.power; kind = r.kind; coast = string_bytes r.coast; origin = string_bytes r.origin } };
}

/// A row of the centres' table: the code of a centre, and the name of the power that owns it.
#[derive(Drop)]
pub struct CentreColumns {
    pub province: String,
    pub power: String,
}

impl Model for CentreColumns {
    ghost use Rattle.std.specs.Prelude.{string_bytes, []};
    ghost use Rattle.dip_store_tables.specs.Boards.{CentreRow};

    ghost Value = { CentreRow };

    ghost view = { λ r. record { game = []; province = string_bytes r.province; power = string_bytes r.power } };
}
