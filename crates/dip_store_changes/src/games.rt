//! A game's row, a new game, and a paper.
ghost use Rattle.std.specs.Prelude.{◌≡◌, ◌<◌, ◌^◌, map as each, string_bytes};
ghost use Rattle.sqlite.specs.Held.{state};
ghost use Rattle.dip_map.specs.Boards.{IsOf, season_number};
ghost use Rattle.dip_desk_state.specs.ChangeRows as machine;
ghost use Rattle.dip_desk_state.specs.Rows as records;
ghost use Rattle.dip_store_tables.specs.Changing.{opening, publishing};
ghost use Rattle.dip_store_tables.specs.Writing.{game_row, number_of};
ghost use Rattle.dip_store_sql.specs.TablesAfter.{game_as, on_game, with_game};
ghost use Rattle.dip_store_sql.specs.Keys.{AreKeyed, GamesDiffer};
ghost use Rattle.dip_store_sql.specs.Transactions.{Does, always};
ghost use Rattle.dip_store_sql.specs.RowViews as rows;
ghost use Rattle.dip_store_changes.specs.Games.{cleared, pending_left};

use crate::ballots::{open_votes, put_choice};
use crate::boards::put_board;
use crate::seats::add_seats;
use crate::texts::{standoff_text, status_text};
use dip_desk_state::{NewSeat, Public};
use dip_map::{Map, Season};
use dip_store_sql::{
    GameRow, add_game, add_paper, drop_items, drop_papers, drop_pending, drop_seats, renew_game,
};
use sqlite::{Alter, Error, Transaction};
use std::alloc::Global;

fn season_number(season: Season) -> u32
    ensures { result ≡ season_number season }
{
    match season {
        Season::SpringMoves => 0,
        Season::SpringRetreats => 1,
        Season::FallMoves => 2,
        Season::FallRetreats => 3,
        Season::Winter => 4,
    }
}

fn game_row<'r>(name: &'r str, public: &Public, status: &'r str, standoff: &'r str) -> GameRow<'r>
    ensures { rows.game result ≡ record {
      name = name.now;
      year = public.now.board.value.phase.year;
      phase = season_number public.now.board.value.phase.season;
      status = status.now;
      due = public.now.due;
      period = public.now.period;
      grey = number_of public.now.grey;
      papers = public.now.papers;
      standoff = standoff.now;
    } }
{
    let phase = public.board.phase();
    GameRow {
        name,
        year: u32::from(phase.year),
        phase: season_number(phase.season),
        status,
        due: public.due,
        period: public.period,
        grey: public.grey,
        papers: public.papers,
        standoff,
    }
}

#[tactic(auto, using(dip_store_sql::proofs::Joining::does_not))]
fn open_row<S: Alter>(
    alloc: Global,
    tx: &mut Transaction<'_, S>,
    map: &Map,
    public: &Public,
) -> Result<(), Error>
    requires { public.now.due < 2 ^ 63 }
    ensures same_reference { tx.new.conn.ghost_name ≡ tx.old.conn.ghost_name }
    ensures does { Does
        (with_game (game_row map.now (string_bytes public.now.game) (records.public public.now)))
        GamesDiffer (state S.Store tx.old.conn.now) (state S.Store tx.new.conn.now) result }
{
    let status = status_text(alloc, map, &public.status)?;
    let standoff = standoff_text(alloc, map, public.board.standoff())?;
    let row = game_row(
        public.game.as_str(),
        public,
        status.as_str(),
        standoff.as_str(),
    );
    add_game(tx, &row)?;
    Ok(())
}

#[tactic(auto, using(dip_store_sql::proofs::Joining::does_not))]
fn renew_row<S: Alter>(
    alloc: Global,
    tx: &mut Transaction<'_, S>,
    map: &Map,
    game: &str,
    public: &Public,
) -> Result<(), Error>
    requires { public.now.due < 2 ^ 63 }
    ensures same_reference { tx.new.conn.ghost_name ≡ tx.old.conn.ghost_name }
    ensures does { Does
        (on_game game.now (game_as (game_row map.now game.now (records.public public.now)))) always
        (state S.Store tx.old.conn.now) (state S.Store tx.new.conn.now) result }
{
    let status = status_text(alloc, map, &public.status)?;
    let standoff = standoff_text(alloc, map, public.board.standoff())?;
    let row = game_row(game, public, status.as_str(), standoff.as_str());
    renew_game(tx, &row)?;
    Ok(())
}

fn clear<S: Alter>(tx: &mut Transaction<'_, S>, game: &str) -> Result<(), Error>
    ensures same_reference { tx.new.conn.ghost_name ≡ tx.old.conn.ghost_name }
    ensures does { Does (cleared game.now) always
        (state S.Store tx.old.conn.now) (state S.Store tx.new.conn.now) result }
{
    drop_seats(tx, game)?;
    drop_pending(tx, game)?;
    drop_items(tx, game)?;
    drop_papers(tx, game)?;
    Ok(())
}

/// A new game with its first paper, its seats and their ballots. Rows that are there of a game of that name go first.
pub(crate) fn open_game<S: Alter>(
    alloc: Global,
    tx: &mut Transaction<'_, S>,
    map: &Map,
    public: &Public,
    paper: &str,
    seats: &[NewSeat],
) -> Result<(), Error>
    requires board { IsOf map.now public.now.board.value }
    requires due { public.now.due < 2 ^ 63 }
    ensures same_reference { tx.new.conn.ghost_name ≡ tx.old.conn.ghost_name }
    ensures does { Does
        (opening map.now (records.public public.now) paper.now (each machine.new_seat seats.now))
        AreKeyed (state S.Store tx.old.conn.now) (state S.Store tx.new.conn.now) result }
{
    let game = public.game.as_str();
    clear(tx, game)?;
    open_row(alloc, tx, map, public)?;
    add_seats(tx, map, game, seats)?;
    put_board(tx, map, game, &public.board)?;
    add_paper(tx, game, public.papers, paper)?;
    open_votes(tx, map, game, seats, &public.board)?;
    Ok(())
}

fn end_phase<S: Alter>(tx: &mut Transaction<'_, S>, game: &str, played: bool) -> Result<(), Error>
    ensures same_reference { tx.new.conn.ghost_name ≡ tx.old.conn.ghost_name }
    ensures does { Does (pending_left game.now played) always
        (state S.Store tx.old.conn.now) (state S.Store tx.new.conn.now) result }
{
    if played {
        drop_pending(tx, game)?;
    }
    Ok(())
}

/// The game's row and its board are these, with a paper more; where a phase was played no order stands any more.
pub(crate) fn publish<S: Alter>(
    alloc: Global,
    tx: &mut Transaction<'_, S>,
    map: &Map,
    game: &str,
    public: &Public,
    paper: &str,
    played: bool,
) -> Result<(), Error>
    requires board { IsOf map.now public.now.board.value }
    requires due { public.now.due < 2 ^ 63 }
    ensures same_reference { tx.new.conn.ghost_name ≡ tx.old.conn.ghost_name }
    ensures does { Does
        (publishing map.now game.now (records.public public.now) paper.now played) AreKeyed
        (state S.Store tx.old.conn.now) (state S.Store tx.new.conn.now) result }
{
    renew_row(alloc, tx, map, game, public)?;
    put_board(tx, map, game, &public.board)?;
    put_choice(tx, game, &public.board)?;
    end_phase(tx, game, played)?;
    add_paper(tx, game, public.papers, paper)?;
    Ok(())
}
