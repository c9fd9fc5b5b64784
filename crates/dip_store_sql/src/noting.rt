//! One row written anew, or all of a table.
ghost use Rattle.std.specs.Prelude.{◌≡◌, ◌<◌, ◌^◌, map as each};
ghost use Rattle.sqlite.specs.Held.{state};
ghost use Rattle.dip_store_sql.specs.TablesAfter.{counting, game_as, named, on_ballot, on_desk, on_game, on_seat, on_seats, secret_as};
ghost use Rattle.dip_store_rows.specs.Made.{second, voteless};
ghost use Rattle.dip_store_sql.specs.Schema.{desk_table, seat_table};
ghost use Rattle.dip_store_sql.specs.Storing.{Stores, second_row, voteless_row};
ghost use Rattle.dip_store_sql.specs.Transactions.{Does, always};
ghost use Rattle.dip_store_sql.specs.RowViews as rows;

use crate::rows::{GameRow, LastLetter, SeatRow};
use crate::ticks::tick_of;
use sqlite::types::ToSql;
use sqlite::{Alter, Error, Transaction, params};

/// Notes the number, the digest and the reply of the master's last letter in his row.
pub fn note_desk<S: Alter>(
    tx: &mut Transaction<'_, S>,
    letter: &LastLetter<'_>,
) -> Result<usize, Error>
    ensures same_reference { tx.new.conn.ghost_name ≡ tx.old.conn.ghost_name }
    ensures does { Does (on_desk (rows.desk_kept letter.now)) always
        (state S.Store tx.old.conn.now) (state S.Store tx.new.conn.now) result }
{
    tx.execute(
        "UPDATE desk SET last = ?1, kept = ?2, reply = ?3 WHERE id = 1",
        params![letter.number, letter.sum, letter.reply],
    )
}

/// Writes a seat's row anew, but for its keys and its vote.
pub fn renew_seat<S: Alter>(
    tx: &mut Transaction<'_, S>,
    game: &str,
    power: &str,
    seat: &SeatRow<'_>,
) -> Result<usize, Error>
    ensures same_reference { tx.new.conn.ghost_name ≡ tx.old.conn.ghost_name }
    ensures does { Does (on_seat game.now power.now (rows.seat_as seat.now)) always
        (state S.Store tx.old.conn.now) (state S.Store tx.new.conn.now) result }
{
    tx.execute(
        "UPDATE seat SET digest = ?3, last = ?4, kept = ?5, reply = ?6, sent = ?7, items = ?8 WHERE game = ?1 AND power = ?2",
        params![
            game,
            power,
            seat.digest,
            seat.number,
            seat.sum,
            seat.reply,
            seat.sent,
            seat.items
        ],
    )
}

/// Notes what the seat votes for, by the text of its ballot.
pub fn note_ballot<S: Alter>(
    tx: &mut Transaction<'_, S>,
    game: &str,
    power: &str,
    names: &str,
) -> Result<usize, Error>
    ensures same_reference { tx.new.conn.ghost_name ≡ tx.old.conn.ghost_name }
    ensures does { Does (on_ballot game.now power.now (named names.now)) always
        (state S.Store tx.old.conn.now) (state S.Store tx.new.conn.now) result }
{
    tx.execute(
        "UPDATE ballot SET names = ?3 WHERE game = ?1 AND power = ?2",
        params![game, power, names],
    )
}

/// Takes the votes out of all seats' rows: each is on a ballot.
pub fn clear_votes<S: Alter>(tx: &mut Transaction<'_, S>) -> Result<usize, Error>
    ensures same_reference { tx.new.conn.ghost_name ≡ tx.old.conn.ghost_name }
    ensures does { Does (on_seats voteless) always
        (state S.Store tx.old.conn.now) (state S.Store tx.new.conn.now) result }
    // Rows that can be stored, and have a number, are no reason to fail.
    ensures stores { Stores seat_table always (λ db. each voteless_row (db 4))
        (state S.Store tx.old.conn.now) (state S.Store tx.new.conn.now) result }
{
    tx.execute("UPDATE seat SET vote = 0", &[])
}

/// Writes that the tables are of version 2, as the last step in renewing those of version 1.
pub fn set_version<S: Alter>(tx: &mut Transaction<'_, S>) -> Result<usize, Error>
    ensures same_reference { tx.new.conn.ghost_name ≡ tx.old.conn.ghost_name }
    ensures does { Does (on_desk second) always
        (state S.Store tx.old.conn.now) (state S.Store tx.new.conn.now) result }
    // A row that can be stored, and has a number, is no reason to fail.
    ensures stores { Stores desk_table always (λ db. each second_row (db 0))
        (state S.Store tx.old.conn.now) (state S.Store tx.new.conn.now) result }
{
    tx.execute("UPDATE desk SET version = 2 WHERE id = 1", &[])
}

/// Notes how many items the seat's inbox has.
pub fn count_item<S: Alter>(
    tx: &mut Transaction<'_, S>,
    game: &str,
    power: &str,
    items: u32,
) -> Result<usize, Error>
    ensures same_reference { tx.new.conn.ghost_name ≡ tx.old.conn.ghost_name }
    ensures does { Does (on_seat game.now power.now (counting items)) always
        (state S.Store tx.old.conn.now) (state S.Store tx.new.conn.now) result }
{
    tx.execute(
        "UPDATE seat SET items = ?3 WHERE game = ?1 AND power = ?2",
        params![game, power, items],
    )
}

/// Puts another digest in place of that of the seat's secret.
pub fn replace_digest<S: Alter>(
    tx: &mut Transaction<'_, S>,
    game: &str,
    power: &str,
    digest: &[u8],
) -> Result<usize, Error>
    ensures same_reference { tx.new.conn.ghost_name ≡ tx.old.conn.ghost_name }
    ensures does { Does (on_seat game.now power.now (secret_as digest.now)) always
        (state S.Store tx.old.conn.now) (state S.Store tx.new.conn.now) result }
{
    tx.execute(
        "UPDATE seat SET digest = ?3 WHERE game = ?1 AND power = ?2",
        params![game, power, digest],
    )
}

/// Writes all of a game's row anew but its name.
pub fn renew_game<S: Alter>(tx: &mut Transaction<'_, S>, game: &GameRow<'_>) -> Result<usize, Error>
    requires { game.now.due < 2 ^ 63 }
    ensures same_reference { tx.new.conn.ghost_name ≡ tx.old.conn.ghost_name }
    ensures does { Does (on_game game.now.name.now (game_as (rows.game game.now))) always
        (state S.Store tx.old.conn.now) (state S.Store tx.new.conn.now) result }
{
    tx.execute(
        "UPDATE game SET year = ?2, phase = ?3, status = ?4, due = ?5, period = ?6, grey = ?7, papers = ?8, standoff = ?9 WHERE name = ?1",
        &[
            ToSql::to_sql(game.name),
            ToSql::to_sql(game.year),
            ToSql::to_sql(game.phase),
            ToSql::to_sql(game.status),
            tick_of(game.due),
            ToSql::to_sql(game.period),
            ToSql::to_sql(game.grey),
            ToSql::to_sql(game.papers),
            ToSql::to_sql(game.standoff),
        ],
    )
}
