//! Laws of phases, each the contract of a function that does nothing.
ghost use Rattle.dip_turn.specs.Laws.{BoardsStayOfTheirMap, BuildsStand, CentresChangeInFall, OnlyCentresAreOwned, OnlyRetreatsHaveDislodged, PhasesFollow, PhasesHaveOneResult, PhasesKeepIntent, RetreatsAreOpen, RetreatsLoseNobodyElse, RetreatsMeetNowhere, UnitsStandApart, WinnersAreOne, WinnersOwnMore, WintersAddBuildsAlone, WintersEvenUnits, WintersRemoveAlone};

use dip_decide::{
    boards_are_situations, equations_are_lawful, explained_is_lawful, orders_are_meant,
};
use dip_orders::{
    each_unit_has_one_order, none_retreats_to_its_attacker, orders_are_lawful,
    retreats_and_builds_are_to_vacant_provinces,
};

/// After a movement no two units stand in one province: two that aren't dislodged and stand in one are the same.
pub fn units_stand_apart()
    ensures { UnitsStandApart }
{
    boards_are_situations();
    equations_are_lawful();
}

/// Nobody is lost or doubled: after the retreats each unit stood before or retreated, and after a Winter each stood before or was
/// built, and each that stood stands or was removed.
pub fn units_are_kept()
    ensures retreats { RetreatsLoseNobodyElse }
    ensures winters { WintersAddBuildsAlone }
    ensures removed { WintersRemoveAlone }
{}

/// A unit that retreats comes to a province where nobody stood and no standoff was, and not to where its attacker came from, if the
/// orders are ones that can be given; and two units never end in one province, whatever was ordered.
pub fn retreats_are_open()
    ensures open_to { RetreatsAreOpen }
    ensures apart { RetreatsMeetNowhere }
{
    none_retreats_to_its_attacker();
    retreats_and_builds_are_to_vacant_provinces();
}

/// The board after a phase is one of its map: each unit at a place of the map, no two in one province, standing or dislodged, and
/// only centres owned, if the orders are ones that can be given beside one another.
pub fn boards_stay_of_their_map()
    ensures { BoardsStayOfTheirMap }
{
    units_stand_apart();
    retreats_are_open();
    explained_is_lawful();
    orders_are_meant();
    orders_are_lawful();
    each_unit_has_one_order();
}

/// After a Winter no power has more units than centres, and none lost more than it had to; and each unit that was built stands.
pub fn winters_even_units()
    ensures counts { WintersEvenUnits }
    ensures builds { BuildsStand }
{
    orders_are_lawful();
}

/// No phase changes the option INTENT.
pub fn phases_keep_the_intent()
    ensures { PhasesKeepIntent }
{}

/// Nobody is dislodged on a board whose phase is no retreat.
pub fn only_retreats_have_dislodged()
    ensures { OnlyRetreatsHaveDislodged }
{}

/// Centres change hands after Fall and its retreats alone, and only to a power with a unit there; their number stays; and from
/// a board of the map on only centres are owned.
pub fn centres_change_in_fall()
    ensures hands { CentresChangeInFall }
    ensures centres { OnlyCentresAreOwned }
{}

/// Phases follow one another in the order of the rules, time goes on, and every game ends.
pub fn phases_follow()
    ensures { PhasesFollow }
{}

/// Whoever has won owns more than half of all centres of the map, and nobody else does.
pub fn winners_own_more()
    ensures more { WinnersOwnMore }
    ensures alone { WinnersAreOne }
{}

/// Two calls of `advance` on one board with the same orders come to the same board and report: in a movement the same moves, paths,
/// supports and broken paths, as lists, and the same outcomes. Only the steps of the explanation and the number of tests may differ.
pub fn phases_have_one_result()
    ensures { PhasesHaveOneResult }
{}
