//! The ballots of a game's seats, and the game's choice.
ghost use Rattle.std.specs.Prelude.{◌≡◌, map as each, [], ◌∷◌};
ghost use Rattle.sqlite.specs.Held.{state};
ghost use Rattle.dip_desk_state.specs.ChangeRows as machine;
ghost use Rattle.dip_desk_state.specs.Rows as records;
ghost use Rattle.dip_store_tables.specs.Boards.{power_name};
ghost use Rattle.dip_store_tables.specs.Changing.{with_vote};
ghost use Rattle.dip_store_tables.specs.Writing.{ballot_row};
ghost use Rattle.dip_store_sql.specs.Keys.{BallotsDiffer, ChoicesDiffer};
ghost use Rattle.dip_store_sql.specs.Transactions.{Does, always};
ghost use Rattle.dip_store_sql.specs.TablesAfter.{more_ballots};
ghost use Rattle.dip_store_changes.specs.Seats.{VotesDiffer, choosing, with_votes};

use dip_desk_state::{NewSeat, Vote};
use dip_map::{Board, Map};
use dip_names::Power;
use dip_store_sql::{add_ballot, add_choice, drop_ballots, drop_choices, note_ballot};
use dip_store_tables::ballot_text;
use sqlite::{Alter, Error, Transaction};
use std::alloc::Global;

fn add_new_ballot<S: Alter>(
    tx: &mut Transaction<'_, S>,
    map: &Map,
    game: &str,
    seat: &NewSeat,
) -> Result<(), Error>
    ensures same_reference { tx.new.conn.ghost_name ≡ tx.old.conn.ghost_name }
    ensures does { Does
        (more_ballots (each (ballot_row map.now game.now) (each machine.new_seat (seat.now ∷ []))))
        BallotsDiffer (state S.Store tx.old.conn.now) (state S.Store tx.new.conn.now) result }
{
    add_ballot(tx, game, map.power_name(seat.power), "NO")?;
    Ok(())
}

fn add_ballots<S: Alter>(
    tx: &mut Transaction<'_, S>,
    map: &Map,
    game: &str,
    seats: &[NewSeat],
) -> Result<(), Error>
    ensures same_reference { tx.new.conn.ghost_name ≡ tx.old.conn.ghost_name }
    ensures does { Does
        (more_ballots (each (ballot_row map.now game.now) (each machine.new_seat seats.now)))
        BallotsDiffer (state S.Store tx.old.conn.now) (state S.Store tx.new.conn.now) result }
{
    for seat in seats {
        add_new_ballot(tx, map, game, seat)?;
    }
    Ok(())
}

/// The game's choice is that of the board: whether it has the option INTENT.
pub fn put_choice<S: Alter>(
    tx: &mut Transaction<'_, S>,
    game: &str,
    board: &Board,
) -> Result<(), Error>
    ensures same_reference { tx.new.conn.ghost_name ≡ tx.old.conn.ghost_name }
    ensures does { Does (choosing game.now board.now.intent) ChoicesDiffer
        (state S.Store tx.old.conn.now) (state S.Store tx.new.conn.now) result }
{
    drop_choices(tx, game)?;
    add_choice(tx, game, board.intent())?;
    Ok(())
}

/// The ballots of a new game's seats, which say `NO`, and its choice, that of its board. Rows that are there of a game of that name go
/// first.
pub fn open_votes<S: Alter>(
    tx: &mut Transaction<'_, S>,
    map: &Map,
    game: &str,
    seats: &[NewSeat],
    board: &Board,
) -> Result<(), Error>
    ensures same_reference { tx.new.conn.ghost_name ≡ tx.old.conn.ghost_name }
    ensures does { Does
        (with_votes map.now game.now (each machine.new_seat seats.now) board.now.intent) VotesDiffer
        (state S.Store tx.old.conn.now) (state S.Store tx.new.conn.now) result }
{
    drop_ballots(tx, game)?;
    add_ballots(tx, map, game, seats)?;
    put_choice(tx, game, board)?;
    Ok(())
}

/// The ballot of the power's seat says this vote.
#[tactic(auto, using(dip_store_sql::proofs::Joining::does_not))]
pub fn put_vote<S: Alter>(
    alloc: Global,
    tx: &mut Transaction<'_, S>,
    map: &Map,
    game: &str,
    power: Power,
    vote: &Vote,
) -> Result<(), Error>
    ensures same_reference { tx.new.conn.ghost_name ≡ tx.old.conn.ghost_name }
    ensures does { Does
        (with_vote map.now game.now (power_name map.now power) (records.vote vote.now)) always
        (state S.Store tx.old.conn.now) (state S.Store tx.new.conn.now) result }
{
    let text = ballot_text(alloc, map, vote)?;
    note_ballot(tx, game, map.power_name(power), text.as_str())?;
    Ok(())
}
