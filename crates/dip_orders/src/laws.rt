//! Laws of orders, each the contract of a function that does nothing.
ghost use Rattle.dip_orders.specs.Laws.{AidersCouldMove, BuildsAreInVacantHomes, BuildsHaveRoom, HoldersCouldMove, LawfulOrdersAreRead, NoMoreHaveRoom, NoneRetreatsToItsAttacker, OnlyMovementIsInForce, OrdersAreLawful, OrdersAreOfTheirPhase, OrdersInForceStand, OrdersReadAreInForce, OrdersStandAlone, RemovalsAreSurplus, RetreatsAreToVacantProvinces, StandingIsInForce, TextsAreReadAgain, TextsTellOrdersApart, UnitsHaveOneOrder};

use dip_orders_lines::forms_are_read;

/// The text of an order that was read is read again as the same order, beside the same standing orders or none; and two orders of a power
/// on a board with one text are one order.
pub fn orders_are_read_again()
    ensures again { TextsAreReadAgain }
    ensures alone { OrdersStandAlone }
    ensures apart { TextsTellOrdersApart }
{
    forms_are_read();
}

/// An order that was read is lawful: its unit is there, or may be built, and the rules allow what it is to do. A law: it does nothing.
pub fn orders_are_lawful()
    ensures { OrdersAreLawful }
{
    forms_are_read();
}

/// The orders that stand are those of the units of the board, one for each, and each is in force. An order in force of a unit of the board
/// stands where no other is that unit's. A law: it does nothing.
pub fn each_unit_has_one_order()
    ensures units { UnitsHaveOneOrder }
    ensures in_force { StandingIsInForce }
    ensures kept { OrdersInForceStand }
{}

/// An order that was read in a phase of movement is in force. A law: it does nothing.
pub fn orders_read_are_in_force()
    ensures { OrdersReadAreInForce }
{
    orders_are_lawful();
}

/// Each lawful order is read from its own text: what is lawful is just what can be ordered. A law: it does nothing.
pub fn lawful_orders_are_read()
    ensures { LawfulOrdersAreRead }
{
    forms_are_read();
}

/// What a power may build has room: a vacant home centre for each unit, and as many centres more than units; and no more has room.
/// What it has to remove is what it has more units than centres. A law: it does nothing.
pub fn allowances_have_room()
    ensures builds { BuildsHaveRoom }
    ensures most { NoMoreHaveRoom }
    ensures removals { RemovalsAreSurplus }
{}

/// No dislodged unit retreats to where its attacker came from. A law: it does nothing.
pub fn none_retreats_to_its_attacker()
    ensures { NoneRetreatsToItsAttacker }
{
    orders_are_lawful();
}

/// A retreat leads to where no unit stands and no standoff was; a build is in a home centre of the power that it owns, where no
/// unit stands or was dislodged. A law: it does nothing.
pub fn retreats_and_builds_are_to_vacant_provinces()
    ensures retreats { RetreatsAreToVacantProvinces }
    ensures builds { BuildsAreInVacantHomes }
{
    orders_are_lawful();
}

/// A unit that supports could itself be ordered to move, from the coast where it is and without a convoy, to the province into
/// which it gives its support. A law: it does nothing.
pub fn supporters_could_move()
    ensures held { HoldersCouldMove }
    ensures moved { AidersCouldMove }
{
    orders_are_lawful();
    lawful_orders_are_read();
}

/// Every order that can be given is one of the phase, and no order of another phase is in force when a movement is decided. A law:
/// it does nothing.
pub fn orders_are_of_their_phase()
    ensures given { OrdersAreOfTheirPhase }
    ensures in_force { OnlyMovementIsInForce }
{
    orders_are_lawful();
}
