//! Laws of what letters do, each the contract of a function that does nothing.
ghost use Rattle.dip_map.specs.Charts.{Chart};
ghost use Rattle.dip_desk_laws.specs.Intents.{KeepsIntent, OpensAsAsked};
ghost use Rattle.dip_desk_laws.specs.Masters.{AreMastersRepliesAlike};
ghost use Rattle.dip_desk_laws.specs.Others.{AreAlike, HistoriesLookAlike, IsGreyUnsigned, IsShownByOthers, IsUnseenByOthers};
ghost use Rattle.dip_desk_laws.specs.Repeats.{ActsOnce, ActsOnceLater};
ghost use Rattle.dip_desk_laws.specs.Standing.{OrdersStand};
ghost use Rattle.dip_desk_laws.specs.Strangers.{IsToNobodyExactly};
ghost use Rattle.dip_desk_laws.specs.Thirds.{ThirdSeatsSeeAlike};
ghost use Rattle.dip_desk_laws.specs.Untold.{VotesAreUntold};

use dip_turn::phases_keep_the_intent;

/// What the letters of others show a seat. Another power's letter shows it nothing but press that reaches it; a letter of somebody else
/// shows it something exactly where it is accepted press to it, publishes a paper of its game or gives it another secret; grey press
/// shows it the same whoever wrote it; histories that differ only in turns that show it nothing have one view, and so have histories,
/// up to the next publication, in which it sends the same letters and the same press comes to it in the same order.
pub fn shown_by_others()
    ensures unseen { (m : Chart) → IsUnseenByOthers m }
    ensures shown { (m : Chart) → IsShownByOthers m }
    ensures grey { (m : Chart) → IsGreyUnsigned m }
    ensures alike { (m : Chart) → AreAlike m }
    ensures look_alike { (m : Chart) → HistoriesLookAlike m }
{}

/// A vote is told by its draw alone: what a tick comes to that draws no game doesn't depend on any vote.
pub fn votes_are_untold()
    ensures { (m : Chart) → VotesAreUntold m }
{}

/// No reply to the master tells what a seat ordered, voted or wrote: it is the same in all states that
/// differ in that alone, whether a tick draws a game or plays its phase. What came of it is in papers.
pub fn masters_replies_are_alike()
    ensures { (m : Chart) → AreMastersRepliesAlike m }
{}

/// Two histories that differ only in what some powers order, vote, look at or have refused, in which of these wrote a grey press, and in
/// other games, can't be told apart by any other seat of the game: they show it the same, and where they began alike for it, it gets the
/// same replies and sees the same after them. All accepted press is the same, in the same order, and what the master's letters come to.
pub fn third_seats_see_alike()
    ensures { (m : Chart) → ThirdSeatsSeeAlike m }
{}

/// A letter that comes twice acts once: the same letter again gets the same reply and changes nothing, at once and where letters of
/// other authors came between, as long as it has its author.
pub fn letters_act_once()
    ensures at_once { (m : Chart) → ActsOnce m }
    ensures later { (m : Chart) → ActsOnceLater m }
{}

/// A reply has no head exactly where the letter is nobody's: it has no author, or it is the master's, isn't CREATE, and names no game.
pub fn replies_to_nobody()
    ensures { (m : Chart) → IsToNobodyExactly m }
{}

/// What ORDERS and WITHDRAW leave of a seat are the orders that they come to, whichever stood before: that orders which stand already
/// change nothing makes no difference.
pub fn orders_stand_as_given()
    ensures { OrdersStand }
{}

/// A game is opened with the option INTENT exactly where its CREATE says YES of it, and has that option, or has it not, after each letter
/// that follows.
pub fn games_keep_their_intent()
    ensures opened { (m : Chart) → OpensAsAsked m }
    ensures kept { (m : Chart) → KeepsIntent m }
{
    phases_keep_the_intent();
}
