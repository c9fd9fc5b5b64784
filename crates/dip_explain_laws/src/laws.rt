//! Laws of explained movements, each the contract of a function that does nothing.
ghost use Rattle.dip_explain_laws.specs.Laws.{AttackCounts, AttackersAreNamed, AttackersAreSingle, AttacksAreAsSaid, AttacksAreShown, BackersAgainstAreGiven, BackersAreGiven, BoardsHaveSituations, CarriersMatch, CirclesAreNamed, CirclesMove, CountedAgainstAreAsSaid, CountedAreAsSaid, CutSupportsAreCut, CuttersCut, ExplanationsAreLines, FailingMovesFallShort, FleetsAreAsSaid, GivenSupportsAreSpared, HoldCounts, JustDecisionsAreTold, KnotsAreNamed, KnotsBreak, LeftOutAgainstAreAsSaid, LeftOutAgainstArentGiven, LeftOutAreAsSaid, LeftOutArentGiven, LinesFollow, LinesGiveTheirSteps, LinesRestOnThoseAbove, LinesStandInOrder, LinesTellTheirMatters, MattersAreTold, MoveLinesAreSo, NamedFleetsCarry, NoAttackHasAReason, NoOppositionHasAReason, NoPreventHasAReason, NoneIsToldTwice, OpponentsAreNamed, OpponentsAreSingle, OppositionCounts, OppositionIsAsSaid, OppositionIsShown, PathLinesAreSo, PreventCounts, PreventersAreNamed, PreventersAreSingle, RivalsAreAsSaid, RivalsAreShown, RoutesAreThere, StrandedHaveNoRoute, SucceedingMovesExceed, SupportLinesAreSo, SupportersAreParted, SupportersArePartedAgainst, ToldMovesGoSomewhere, UnbeatenPrevent, ValuesComplete, VerdictsAreAsTold};

use dip_decide::{boards_are_situations, orders_are_meant};

/// The orders of a board as they are meant on it make a situation of which the laws below speak. A law: it does nothing.
pub fn boards_have_such_situations()
    ensures { BoardsHaveSituations }
{
    boards_are_situations();
    orders_are_meant();
}

/// The numbers of an explanation's lines are of the units that make up the strength: each is as many as they are. A law: it does
/// nothing.
pub fn strengths_count_the_units_named()
    ensures attack { AttackCounts }
    ensures opposition { OppositionCounts }
    ensures prevent { PreventCounts }
    ensures hold { HoldCounts }
{}

/// These are different units, as long as none supports itself. A law: it does nothing.
pub fn each_unit_is_counted_once()
    ensures attackers { AttackersAreSingle }
    ensures preventers { PreventersAreSingle }
    ensures opponents { OpponentsAreSingle }
{}

/// Each number of a line stands before the text of the units that make it up; where it is 0 the line tells why, and that came out so. A
/// law: it does nothing.
pub fn numbers_stand_before_their_units()
    ensures attack { AttacksAreShown }
    ensures opposition { OppositionIsShown }
    ensures prevent { RivalsAreShown }
    ensures no_attack { NoAttackHasAReason }
    ensures no_opposition { NoOppositionHasAReason }
    ensures no_prevent { NoPreventHasAReason }
{}

/// Where a strength isn't 0, the text after it names just the units that make it up, and then those
/// that are left out, and nobody else. A law: it does nothing.
pub fn names_are_of_the_units_counted()
    ensures attackers { AttackersAreNamed }
    ensures opponents { OpponentsAreNamed }
    ensures preventers { PreventersAreNamed }
{}

/// The supporters named with a unit are just those who gave it a support that matches, and against the unit in a province just those
/// of them that are of other powers than that unit. Those left out are just those whose supports match too, but weren't given, or are of
/// that unit's power. So whoever was ordered to give a support that matches is either named or left out, and never both. A law: it
/// does nothing.
pub fn counted_supports_are_given()
    ensures backers { BackersAreGiven }
    ensures against { BackersAgainstAreGiven }
    ensures left_out { LeftOutArentGiven }
    ensures left_out_against { LeftOutAgainstArentGiven }
    ensures parted { SupportersAreParted }
    ensures parted_against { SupportersArePartedAgainst }
{}

/// In an explained movement just what is decided is told, and nothing twice. A law: it does nothing.
pub fn each_decision_has_one_line()
    ensures once { NoneIsToldTwice }
    ensures each { JustDecisionsAreTold }
{}

/// Each line rests on those above it: it is told at what they tell, which is the values that those decisions have in the end, and at
/// nothing else; and its step may be made from that alone. A law: it does nothing.
pub fn lines_rest_on_those_above()
    ensures whole { ExplanationsAreLines }
    ensures ordered { LinesStandInOrder }
    ensures known { LinesRestOnThoseAbove }
    ensures follows { LinesFollow }
    ensures gives { LinesGiveTheirSteps }
    ensures agrees { ValuesComplete }
{}

/// A decision has the value that its line tells, which its rule gives at the completion at which the line is told, and at any other; the
/// moves of a circle succeed, and those of a knot have no path. A law: it does nothing.
pub fn verdicts_are_as_told()
    ensures lines { LinesTellTheirMatters }
    ensures matters { MattersAreTold }
    ensures forced { VerdictsAreAsTold }
    ensures circles { CirclesMove }
    ensures knots { KnotsBreak }
{}

/// A line says what came out: that a move succeeds, that a support is given or that there is a route just where that was so; and a line of
/// a circle or of a knot names its moves. A law: it does nothing.
pub fn lines_say_what_came_out()
    ensures moves { MoveLinesAreSo }
    ensures supports { SupportLinesAreSo }
    ensures paths { PathLinesAreSo }
    ensures circles { CirclesAreNamed }
    ensures knots { KnotsAreNamed }
{}

/// The numbers of a line decide the move that it is about: where it is told to succeed, its attack exceeds all that stands against it; where
/// it is told to fail, it doesn't exceed what is named. A law: it does nothing.
pub fn numbers_decide_moves()
    ensures goes { ToldMovesGoSomewhere }
    ensures succeeding { SucceedingMovesExceed }
    ensures failing { FailingMovesFallShort }
    ensures unbeaten { UnbeatenPrevent }
{}

/// A support that is told to be cut is cut by those named, and there is one; one that is told to be given is spared by each move to the
/// supporter. Either is for the reason told, which came out so. A law: it does nothing.
pub fn supports_are_cut_by_those_named()
    ensures cut { CutSupportsAreCut }
    ensures cutters { CuttersCut }
    ensures given { GivenSupportsAreSpared }
{}

/// A move that is told to have a route has one by fleets that are named, none of which was dislodged; one that is told to have none has
/// none, and what is said of the fleets that are to carry it came out so. A law: it does nothing.
pub fn routes_are_of_the_fleets_named()
    ensures there { RoutesAreThere }
    ensures none { StrandedHaveNoRoute }
    ensures named { NamedFleetsCarry }
    ensures carriers { CarriersMatch }
    ensures fleets { FleetsAreAsSaid }
{}

/// Of the move that a line is about, "at least" and "at most" are true whatever the open decisions come to, and so is a bare number:
/// so they are true of what came out too. A law: it does nothing.
pub fn strengths_are_as_said()
    ensures attack { AttacksAreAsSaid }
    ensures opposition { OppositionIsAsSaid }
    ensures prevent { RivalsAreAsSaid }
{}

/// What a line says of a supporter is so: one that counts gave its support, or isn't told of yet; one that is left out was cut, or isn't
/// told of yet, or is of the power of the unit against which it doesn't count. A law: it does nothing.
pub fn supporters_are_as_said()
    ensures counted { CountedAreAsSaid }
    ensures counted_against { CountedAgainstAreAsSaid }
    ensures left_out { LeftOutAreAsSaid }
    ensures left_out_against { LeftOutAgainstAreAsSaid }
{}
