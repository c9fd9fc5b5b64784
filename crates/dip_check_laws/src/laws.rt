//! Laws of what is published and reported, each the contract of a function that does nothing.
ghost use Rattle.dip_map.specs.Charts.{Chart};
ghost use Rattle.dip_check_laws.specs.Laws.{FaultsKeepGames, FreshDesksAreRight, GamesAreFoundRight, ReportsAreRight, ReportsStayRight, RunsKeepGames, ServingKeepsGames};
ghost use Rattle.dip_check_laws.specs.Published.{HistoriesAreRight, MovementsAreDecided, PublishedIsNext, StaysGames};

use dip_decide::explained_is_lawful;
use dip_desk_machine::lawful_states_stay_lawful;
use dip_map::Map;
use dip_orders::{lawful_orders_are_read, orders_are_lawful, orders_are_read_again};

/// Each movement that is right satisfies the written decision equations for the orders that it prints, explained, with one answer.
pub fn right_movements_are_decided()
    ensures { (m : Chart) → MovementsAreDecided m }
{
    explained_is_lawful();
}

/// What the machine decides to publish of a game of a lawful state may come next in it.
pub fn what_is_published_is_right(map: &Map)
    ensures { PublishedIsNext map.now }
{
    map.facts();
    orders_are_read_again();
    orders_are_lawful();
    lawful_orders_are_read();
}

/// After each letter the papers of each game are those of a game, where they were before; so they are after every history that begins
/// without games.
pub fn games_stay_right(map: &Map)
    ensures stays { StaysGames map.now }
    ensures histories { HistoriesAreRight map.now }
{
    map.facts();
    orders_are_read_again();
    orders_are_lawful();
    lawful_orders_are_read();
    lawful_states_stay_lawful(map);
}

/// Where the papers that a desk keeps of each game are those of a game, what `report` prints of one is the papers of a game, which `check`
/// finds right. A law: it does nothing.
pub fn reports_are_right()
    ensures printed { ReportsAreRight }
    ensures found { GamesAreFoundRight }
{}

/// From a lawful state in which the papers of each game are those of a game, a run leads to such a
/// state, whatever its letters say: where all letters of an input were answered, where clients were
/// served, and where a fault or a crash ended either. A law: it does nothing.
pub fn runs_keep_games_right(map: &Map)
    ensures answered { RunsKeepGames map.now }
    ensures stopped { FaultsKeepGames map.now }
    ensures served { ServingKeepsGames map.now }
{
    lawful_states_stay_lawful(map);
    games_stay_right(map);
}

/// A new desk is lawful, and has no game, so that none of its games has wrong papers. A law: it
/// does nothing.
pub fn fresh_desks_have_no_wrong_game()
    ensures { FreshDesksAreRight }
{}

/// Whatever letters were answered since a desk was made, in however many runs, what `report` prints
/// of a game is the papers of a game, which `check` finds right. A law: it does nothing.
pub fn reports_stay_right(map: &Map)
    ensures { ReportsStayRight map.now }
{
    lawful_states_stay_lawful(map);
    games_stay_right(map);
}
