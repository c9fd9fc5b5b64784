//! Laws of movement, each the contract of a function that does nothing.
ghost use Rattle.dip_decide_laws.specs.Laws.{DislodgedByOthersAlone, DislodgedFleetsCarryNobody, DislodgedGiveNoSupport, EnterersAreStrongest, ExplainedIsDecided, HoldingKeepsMeaning, MeaningKeepsOrders, OverpoweredAreDislodged, OwnFleetsCarry, LosersPreventNobody, NoPowerCutsItsOwn, PathlessChangesNothing, StrongestEnter, UnitsWithoutMovesStay, UnmatchedChangesNothing, UnmatchedIsVoid};

use dip_decide::{boards_are_situations, chains_are_found, explained_is_lawful, orders_are_meant};

/// Each movement whose values steps explain, so each that is published, is one of which the laws below speak: of its orders as they are
/// meant on the board. A law: it does nothing.
pub fn explained_is_decided()
    ensures { ExplainedIsDecided }
{
    explained_is_lawful();
    orders_are_meant();
}

/// What the option INTENT means: a unit that would go by itself goes by convoy exactly where it is an army between two coastal provinces and
/// a fleet of its own power in a sea is ordered to convoy that very move. Units stay, and where they are sent to, and all orders but moves;
/// and what an order means stays where others hold that aren't ordered to convoy. So what the laws below say of supports, and of a
/// unit that holds in place of a support or of a move without a path, is said of the orders as they were given too. A law: it does nothing.
pub fn own_fleets_carry()
    ensures carried { OwnFleetsCarry }
    ensures kept { MeaningKeepsOrders }
    ensures held { HoldingKeepsMeaning }
{}

/// A dislodged unit gives no support. A law: it does nothing.
pub fn dislodged_give_no_support()
    ensures { DislodgedGiveNoSupport }
{}

/// No power cuts its own support: a support of what a unit does that isn't given was cut by a unit of another power, ordered into the
/// supporter's province, and with a way there. From the province into which the support is, only a unit that dislodges the supporter
/// cuts. A law: it does nothing.
pub fn no_power_cuts_its_own()
    ensures { NoPowerCutsItsOwn }
{}

/// No power dislodges its own unit, nor helps to: a unit is dislodged only by one of another power, which more units of other powers
/// support than support it to stay. A law: it does nothing.
pub fn dislodged_by_others_alone()
    ensures { DislodgedByOthersAlone }
{}

/// The loser of a battle head to head prevents nobody from coming to where the winner came from. A law: it does nothing.
pub fn losers_prevent_nobody()
    ensures { LosersPreventNobody }
{}

/// A unit that isn't ordered to move stays where it is, and isn't dislodged where no unit enters. A law: it does nothing.
pub fn units_without_moves_stay()
    ensures { UnitsWithoutMovesStay }
{}

/// A dislodged fleet carries nobody: an army that came by convoy was carried all its way by fleets in seas, one next to the other, each
/// ordered to carry that army there, and none of them dislodged. A law: it does nothing.
pub fn dislodged_fleets_carry_nobody()
    ensures { DislodgedFleetsCarryNobody }
{
    chains_are_found();
}

/// A support that doesn't match isn't given, and changes nothing: the same comes of the orders in which its unit holds. A law: it does
/// nothing.
pub fn unmatched_changes_nothing()
    ensures same { UnmatchedChangesNothing }
    ensures void { UnmatchedIsVoid }
{}

/// A move by convoy without a path changes nothing: the same comes of the orders in which its unit holds, and in which nobody supports
/// it to stay, but for the supports of its move, which match nothing then. A law: it does nothing.
pub fn pathless_changes_nothing()
    ensures { PathlessChangesNothing }
{
    boards_are_situations();
}

/// Who enters a province has more support than each other unit that goes there and has a way, but for losers of a battle head to head: of
/// equals none enters. A law: it does nothing.
pub fn enterers_are_strongest()
    ensures { EnterersAreStrongest }
{}

/// Of the units that go to a province that is empty, or is left, the one with the most support enters, if it has a way. A unit that
/// stays is dislodged by one of another power that has more support of other powers than the unit has to stay, and than each other
/// unit has that goes there. A law: it does nothing.
pub fn strongest_enter()
    ensures open { StrongestEnter }
    ensures held { OverpoweredAreDislodged }
{}
