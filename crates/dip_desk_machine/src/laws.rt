//! Laws of the desk machine, each the contract of a function that does nothing.
ghost use Rattle.std.specs.Prelude.{List};
ghost use Rattle.dip_map.specs.Charts.{Chart};
ghost use Rattle.dip_desk_machine.specs.Draws.{DrawsAreAgreed};
ghost use Rattle.dip_desk_machine.specs.Fitting.{EffectsFit, LawfulEffectsFit};
ghost use Rattle.dip_desk_machine.specs.Handing.{StandingOrdersAreGiven, StandingOrdersComeByPlace};
ghost use Rattle.dip_desk_machine.specs.Lawful.{IsLawfulAtFirst, IsNeverDamaged, StaysLawful};
ghost use Rattle.dip_desk_machine.specs.Published.{MovementsAreDecided};
ghost use Rattle.dip_desk_state.specs.State.{State};
ghost use Rattle.dip_desk_machine.specs.Titles.{TitlesTell};
ghost use Rattle.dip_desk_machine.specs.View.{AreEffectsShown, HistoriesAreOne, IsAnsweredFromSeen, IsDecidedOnce, IsRun, IsSettledByView, Turn};

use dip_decide::explained_is_lawful;
use dip_map::{Map, openings_are_of_their_map};
use dip_orders::{lawful_orders_are_read, orders_are_lawful, orders_are_read_again};
use dip_turn::{boards_stay_of_their_map, phases_have_one_result, winners_own_more};

/// A letter of a seat gets one reply in all states that the seat sees alike, and leaves them alike for it.
pub fn answered_from_what_is_seen()
    ensures { (m : Chart) → IsAnsweredFromSeen m }
{}

/// Settled by view: two histories that begin alike for a seat and show it the same get it the same replies, and leave it
/// seeing the same.
pub fn settled_by_view()
    ensures { (m : Chart) (old new : State) (turns : List Turn) → IsRun m old turns new
        → IsSettledByView m old turns new }
{}

/// A letter is decided in one way, a tick too, and so letters have one history from a state on: whoever judges, all replies and all papers
/// are the same.
pub fn histories_are_one()
    ensures once { (m : Chart) → IsDecidedOnce m }
    ensures one { (m : Chart) → HistoriesAreOne m }
{
    phases_have_one_result();
}

/// Each movement that is published in a history satisfies the decision equations for the orders that stood at its tick: its paper prints
/// the outcomes of values that satisfy them and are explained, and the board after it is the one that these values leave.
pub fn published_movements_are_decided()
    ensures { (m : Chart) → MovementsAreDecided m }
{
    explained_is_lawful();
}

/// Whatever effect comes to a game that it suits, each seat sees after it what its events say.
pub fn effects_are_shown()
    ensures { (m : Chart) → AreEffectsShown m }
{}

/// A tick draws a game between powers exactly where it is due, the game isn't over, and all survivors agree on them: somebody survives, each
/// survivor asks for a draw between exactly these powers, and each of them survives.
pub fn draws_are_agreed()
    ensures { (m : Chart) → DrawsAreAgreed m }
{}

/// The title of each paper that is published tells whether a phase was played: what a seat is shown with a paper, that mark too, it can
/// read in the paper itself.
pub fn titles_tell_what_was_played()
    ensures { (m : Chart) → TitlesTell m }
{}

/// A desk without games is lawful, whose master has had no letter.
pub fn new_desks_are_lawful()
    ensures { (m : Chart) → IsLawfulAtFirst m }
{}

/// Each letter leads from a lawful state to a lawful one, and in a lawful state nothing is Damaged.
pub fn lawful_states_stay_lawful(map: &Map)
    ensures stays { StaysLawful map.now }
    ensures sane { IsNeverDamaged map.now }
{
    map.facts();
    openings_are_of_their_map();
    orders_are_read_again();
    orders_are_lawful();
    lawful_orders_are_read();
    boards_stay_of_their_map();
    winners_own_more();
}

/// What is decided of a letter of the grammar fits the map, or else the record of its author may be Damaged: the board of a seat's game
/// isn't one of the map, or the master's command can't be done in the game that it names. In a lawful state it fits.
pub fn effects_fit(map: &Map)
    ensures blamed { EffectsFit map.now }
    ensures lawful { LawfulEffectsFit map.now }
{
    map.facts();
    openings_are_of_their_map();
    orders_are_read_again();
    orders_are_lawful();
    lawful_orders_are_read();
    boards_stay_of_their_map();
    winners_own_more();
}

/// In a lawful state the orders that stand in a game are what `advance` of the phases asks for: each can be given beside the others of
/// its power, and no power has two in one province. They come by power and province, in whatever order CREATE named the seats.
pub fn standing_orders_are_given(map: &Map)
    ensures given { StandingOrdersAreGiven map.now }
    ensures placed { StandingOrdersComeByPlace map.now }
{
    map.facts();
    orders_are_lawful();
    orders_are_read_again();
    lawful_orders_are_read();
}
