//! Laws of movement, each the contract of a function that does nothing.
ghost use Rattle.dip_decide.specs.Statements.{BoardsAreSituations, MeantAreOrders, MeantAsGiven, OneMoveEnters, NoneIsDislodgedByItsOwn, HeadToHeadOneFails, ExplainedSatisfies, CyclesSucceed, UndisturbedConvoysHold, ValuesAreOne, BrokenPathsAreOne, CornersDecide, ChainsAreFound, KnotsAreFound, KnotsAreAllOpenPaths, StepsCommute};

/// Each board with one order for each unit is a situation as the laws of movement ask for it.
pub fn boards_are_situations()
    ensures { BoardsAreSituations }
{}

/// The orders of a board as they are meant on it are one for each unit too, so that what they come to is of that board; with the option
/// INTENT off they are the orders as they were given.
pub fn orders_are_meant()
    ensures orders { MeantAreOrders }
    ensures plainly { MeantAsGiven }
{}

/// From the decision equations alone, whatever is broken: at most one move enters a province, no power dislodges its own unit,
/// and of two moves head to head one fails.
pub fn equations_are_lawful()
    ensures enters { OneMoveEnters }
    ensures own { NoneIsDislodgedByItsOwn }
    ensures swaps { HeadToHeadOneFails }
{}

/// What steps explain satisfies the decision equations for the paths that their knots broke. Three or more moves by land in a
/// cycle succeed where no other move goes to their provinces. A move by convoy isn't broken where it has a chain of fleets into
/// which no move goes.
pub fn explained_is_lawful()
    ensures equations { ExplainedSatisfies }
    ensures cycles { CyclesSucceed }
    ensures convoys { UndisturbedConvoysHold }
{}

/// Any two lists of steps that explain a situation come to the same values, and break the same paths.
pub fn one_answer()
    ensures values { ValuesAreOne }
    ensures broken { BrokenPathsAreOne }
{}

/// Of two steps that may be made in one state, either they give the same, or each may be made after the other, and then it
/// doesn't matter which comes first.
pub fn steps_commute()
    ensures { StepsCommute }
{}

/// An open decision is forced exactly to what its equation gives both at its least completion and at its greatest.
pub fn corners_decide()
    ensures { CornersDecide }
{}

/// The equation of a path has one exactly where there is a chain of fleets, of any length, whose provinces are listed.
pub fn chains_are_found()
    ensures { ChainsAreFound }
{}

/// Where something is open, nothing is forced and there is no circle, there is a knot, and it is all open paths.
pub fn knots_are_found()
    ensures some { KnotsAreFound }
    ensures all { KnotsAreAllOpenPaths }
{}
