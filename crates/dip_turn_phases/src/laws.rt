//! Laws of what a movement makes of a board, each the contract of a function that does nothing.
ghost use Rattle.dip_turn_phases.specs.Laws.{ConvoysCloseNoOrigin, DislodgedWhereEntered, LosersLeaveNoStandoff, MovementsKeepUnits, StandoffsAreLawful};

/// A unit is dislodged exactly where it stays and a successful move leads into its province; standoffs are provinces of the map,
/// once each, where nobody stands; the loser of a fight head to head leaves none where it was to go; and an attacker by convoy
/// closes no province to a retreat.
pub fn movements_are_told()
    ensures dislodged { DislodgedWhereEntered }
    ensures standoffs { StandoffsAreLawful }
    ensures losers { LosersLeaveNoStandoff }
    ensures convoys { ConvoysCloseNoOrigin }
{}

/// A movement loses and doubles nobody: each unit stands after it, in its province or at its destination, or is dislodged.
pub fn movements_keep_units()
    ensures { MovementsKeepUnits }
{}
