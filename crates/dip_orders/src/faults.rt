//! Why an order line is refused.
ghost use Rattle.std.specs.Prelude.{◌≡◌};
ghost use Rattle.dip_orders.specs.Faults.{fault_number, fault_words};

use std::error::Error;
use std::fmt;

/// Why a line is no order of a power on a board: the first rule that it breaks.
#[derive(Clone, Copy, PartialEq, Eq, Debug)]
pub enum OrderFault {
    /// O1: the line has none of the forms of an order.
    CannotBeRead,
    /// O2: a code that isn't on the map.
    UnknownProvince,
    /// O3: the power has no unit there: a standing one, or a dislodged one for a retreat or to disband.
    NoUnitThere,
    /// O4: the unit there is of the other kind, or a fleet was told to go by convoy, or an army to convoy.
    WrongKind,
    /// O5: the unit can't go there.
    OutOfReach,
    /// O6: a fleet may come to two coasts, and none is told.
    CoastNeeded,
    /// O7: a coast that the province hasn't, that can't be reached, or that an army is to go to.
    WrongCoast,
    /// O8: no standing unit of that kind to support or to convoy.
    NoSuchUnit,
    /// O9: the supporter can't move where its support is aimed, the supported unit can't come there, or they are one.
    SupportOutOfReach,
    /// O10: no convoy leads there, or the fleet isn't at sea.
    NoConvoyThere,
    /// O11: the form belongs to another phase.
    NotInThisPhase,
    /// O12: the province is no vacant home centre that the power owns, or no coast for a fleet.
    NoBuildThere,
    /// O13: the power may build, or has to remove, no more than what stands already in other provinces.
    AllowanceUsed,
    /// O14: the dislodged unit may not retreat there.
    NoSuchRetreat,
}

impl OrderFault {
    /// The number after the letter O.
    pub fn number(self) -> u8
        ensures { result ≡ fault_number self }
    {
        match self {
            OrderFault::CannotBeRead => 1,
            OrderFault::UnknownProvince => 2,
            OrderFault::NoUnitThere => 3,
            OrderFault::WrongKind => 4,
            OrderFault::OutOfReach => 5,
            OrderFault::CoastNeeded => 6,
            OrderFault::WrongCoast => 7,
            OrderFault::NoSuchUnit => 8,
            OrderFault::SupportOutOfReach => 9,
            OrderFault::NoConvoyThere => 10,
            OrderFault::NotInThisPhase => 11,
            OrderFault::NoBuildThere => 12,
            OrderFault::AllowanceUsed => 13,
            OrderFault::NoSuchRetreat => 14,
        }
    }

    /// What is wrong, in words. An answer has them after the code, in lower case with no full stop.
    pub fn words(self) -> &'static str
        ensures { result.now ≡ fault_words self }
    {
        match self {
            OrderFault::CannotBeRead => "cannot be read",
            OrderFault::UnknownProvince => "unknown province",
            OrderFault::NoUnitThere => "no unit of yours there",
            OrderFault::WrongKind => "wrong kind of unit",
            OrderFault::OutOfReach => "out of reach",
            OrderFault::CoastNeeded => "coast needed",
            OrderFault::WrongCoast => "wrong coast",
            OrderFault::NoSuchUnit => "no such unit to support or convoy",
            OrderFault::SupportOutOfReach => "support out of reach",
            OrderFault::NoConvoyThere => "no convoy there",
            OrderFault::NotInThisPhase => "not in this phase",
            OrderFault::NoBuildThere => "no build there",
            OrderFault::AllowanceUsed => "allowance used",
            OrderFault::NoSuchRetreat => "no such retreat",
        }
    }
}

impl fmt::Display for OrderFault {
    ghost use Rattle.std.specs.Prelude.{Some};

    ghost output = { λ fault. Some (fault_words fault) };

    fn fmt<W: fmt::Write>(&self, f: &mut fmt::Formatter<W>) -> fmt::Result {
        f.write_str(self.words())
    }
}

impl Error for OrderFault {}
