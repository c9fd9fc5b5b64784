//! Laws of checking, each the contract of a function that does nothing.
ghost use Rattle.dip_check_papers.specs.PaperTexts.{PapersAreLines};
ghost use Rattle.dip_check_papers.specs.Laws.{GivenAreReadBack, OpeningsHaveOneAnswer, PapersHaveOneAnswer, RetreatsAreReadBack, StandingIsReadBack, StandingIsSettled};

use dip_map::Map;
use dip_orders::{lawful_orders_are_read, orders_are_lawful, orders_are_read_again};
use dip_turn::phases_have_one_result;

/// A text that may come next leaves a game one way at most, and one that may come first opens one game at most: the papers up to one
/// determine how the game stands after it.
pub fn papers_have_one_answer(map: &Map)
    ensures next { PapersHaveOneAnswer map.now }
    ensures first { OpeningsHaveOneAnswer map.now }
{
    map.facts();
    orders_are_read_again();
    orders_are_lawful();
    lawful_orders_are_read();
    phases_have_one_result();
}

/// What a movement's paper prints of each unit is read back, and orders that hold it come to what stood.
pub fn movements_are_read_back()
    ensures read { StandingIsReadBack }
    ensures settled { StandingIsSettled }
{
    orders_are_read_again();
    lawful_orders_are_read();
}

/// What a paper prints of the orders of retreats and of a Winter is read back.
pub fn other_orders_are_read_back()
    ensures given { GivenAreReadBack }
    ensures retreats { RetreatsAreReadBack }
{
    orders_are_read_again();
    lawful_orders_are_read();
}

/// Each paper of a game is lines of printable characters, of which the last one, and no other, is `END`; the first begins with `PAPER `.
pub fn papers_are_lines(map: &Map)
    ensures { PapersAreLines map.now }
{
    map.facts();
}
