//! Rows after the others of their tables.
ghost use Rattle.std.specs.Prelude.{◌≡◌, ◌<◌, ◌^◌, [], ◌∷◌, length};
ghost use Rattle.sqlite.specs.Held.{state};
ghost use Rattle.dip_store_sql.specs.TablesAfter.{new_desk, new_seat, with_centre, with_desk, with_game, with_item, more_orders, with_ballot, with_choice, with_paper, with_seat, with_unit};
ghost use Rattle.dip_store_sql.specs.Keys.{BallotsDiffer, CentresDiffer, ChoicesDiffer, DesksDiffer, Differ, GamesDiffer, ItemsDiffer, OrdersDiffer, PapersDiffer, SeatsDiffer, UnitsDiffer, same_ballot, same_choice};
ghost use Rattle.dip_store_sql.specs.Rows.{put_ballot, put_choice};
ghost use Rattle.dip_store_sql.specs.Schema.{ballot_table, choice_table};
ghost use Rattle.dip_store_sql.specs.Storing.{StoresBehind, next_row};
ghost use Rattle.dip_store_sql.specs.Transactions.{Does, FailsOutside};
ghost use Rattle.dip_store_sql.specs.RowViews as rows;
ghost use Rattle.dip_store_rows.specs.Made.{choice_row};

use crate::rows::{GameRow, ItemRow, OrderRow, UnitRow};
use crate::ticks::tick_of;
use sqlite::types::ToSql;
use sqlite::{Alter, Error, Transaction, params};

/// Inserts the master's row of a new desk, of version 2.
pub fn add_desk<S: Alter>(
    tx: &mut Transaction<'_, S>,
    map: &[u8],
    digest: &[u8],
) -> Result<usize, Error>
    ensures same_reference { tx.new.conn.ghost_name ≡ tx.old.conn.ghost_name }
    ensures does { Does (with_desk (new_desk map.now digest.now)) DesksDiffer
        (state S.Store tx.old.conn.now) (state S.Store tx.new.conn.now) result }
    // A first row of two sums is neither too long to be stored nor without a number.
    ensures first { length map.now ≡ 32 → length digest.now ≡ 32
        → FailsOutside (λ t. t.desk ≡ [])
        (state S.Store tx.old.conn.now) (state S.Store tx.new.conn.now) result }
{
    tx.execute(
        "INSERT INTO desk (id, version, map, digest, last, kept, reply) VALUES (1, 2, ?1, ?2, 0, x'', '')",
        params![map, digest],
    )
}

/// Inserts a game after the others. No other has its name, where that goes well.
pub fn add_game<S: Alter>(tx: &mut Transaction<'_, S>, game: &GameRow<'_>) -> Result<usize, Error>
    requires { game.now.due < 2 ^ 63 }
    ensures same_reference { tx.new.conn.ghost_name ≡ tx.old.conn.ghost_name }
    ensures does { Does (with_game (rows.game game.now)) GamesDiffer
        (state S.Store tx.old.conn.now) (state S.Store tx.new.conn.now) result }
{
    tx.execute(
        "INSERT INTO game (name, year, phase, status, due, period, grey, papers, standoff) VALUES (?1, ?2, ?3, ?4, ?5, ?6, ?7, ?8, ?9)",
        &[
            ToSql::to_sql(game.name),
            ToSql::to_sql(game.year),
            ToSql::to_sql(game.phase),
            ToSql::to_sql(game.status),
            tick_of(game.due),
            ToSql::to_sql(game.period),
            ToSql::to_sql(game.grey),
            ToSql::to_sql(game.papers),
            ToSql::to_sql(game.standoff),
        ],
    )
}

/// Inserts a seat that nobody has used yet.
pub fn add_seat<S: Alter>(
    tx: &mut Transaction<'_, S>,
    game: &str,
    power: &str,
    digest: &[u8],
) -> Result<usize, Error>
    ensures same_reference { tx.new.conn.ghost_name ≡ tx.old.conn.ghost_name }
    ensures does { Does (with_seat (new_seat game.now power.now digest.now)) SeatsDiffer
        (state S.Store tx.old.conn.now) (state S.Store tx.new.conn.now) result }
{
    tx.execute(
        "INSERT INTO seat (game, power, digest, vote, last, kept, reply, sent, items) VALUES (?1, ?2, ?3, 0, 0, x'', '', 0, 0)",
        params![game, power, digest],
    )
}

/// Inserts a unit of a game's board, standing or dislodged.
pub fn add_unit<S: Alter>(tx: &mut Transaction<'_, S>, unit: &UnitRow<'_>) -> Result<usize, Error>
    ensures same_reference { tx.new.conn.ghost_name ≡ tx.old.conn.ghost_name }
    ensures does { Does (with_unit (rows.unit unit.now)) UnitsDiffer
        (state S.Store tx.old.conn.now) (state S.Store tx.new.conn.now) result }
{
    tx.execute(
        "INSERT INTO unit (game, province, dislodged, power, kind, coast, origin) VALUES (?1, ?2, ?3, ?4, ?5, ?6, ?7)",
        params![
            unit.game,
            unit.province,
            unit.dislodged,
            unit.power,
            unit.kind,
            unit.coast,
            unit.origin
        ],
    )
}

/// Inserts a centre of a game, by its province's code, with its owner's name.
pub fn add_centre<S: Alter>(
    tx: &mut Transaction<'_, S>,
    game: &str,
    province: &str,
    power: &str,
) -> Result<usize, Error>
    ensures same_reference { tx.new.conn.ghost_name ≡ tx.old.conn.ghost_name }
    ensures does { Does
        (with_centre (record { game = game.now; province = province.now; power = power.now }))
        CentresDiffer (state S.Store tx.old.conn.now) (state S.Store tx.new.conn.now) result }
{
    tx.execute(
        "INSERT INTO centre (game, province, power) VALUES (?1, ?2, ?3)",
        params![game, province, power],
    )
}

/// Inserts a standing order of a seat, by its province's code.
pub fn add_pending<S: Alter>(
    tx: &mut Transaction<'_, S>,
    game: &str,
    power: &str,
    order: &OrderRow<'_>,
) -> Result<usize, Error>
    ensures same_reference { tx.new.conn.ghost_name ≡ tx.old.conn.ghost_name }
    ensures does { Does (more_orders (rows.order game.now power.now order.now ∷ [])) OrdersDiffer
        (state S.Store tx.old.conn.now) (state S.Store tx.new.conn.now) result }
{
    tx.execute(
        "INSERT INTO pending (game, power, province, line) VALUES (?1, ?2, ?3, ?4)",
        params![game, power, order.province, order.line],
    )
}

/// Inserts three standing orders of a seat, one after the other.
pub fn add_three_pending<S: Alter>(
    tx: &mut Transaction<'_, S>,
    game: &str,
    power: &str,
    one: &OrderRow<'_>,
    other: &OrderRow<'_>,
    third: &OrderRow<'_>,
) -> Result<usize, Error>
    ensures same_reference { tx.new.conn.ghost_name ≡ tx.old.conn.ghost_name }
    ensures does { Does (more_orders (rows.order game.now power.now one.now
        ∷ rows.order game.now power.now other.now ∷ rows.order game.now power.now third.now ∷ []))
        OrdersDiffer (state S.Store tx.old.conn.now) (state S.Store tx.new.conn.now) result }
{
    tx.execute(
        "INSERT INTO pending (game, power, province, line) VALUES (?1, ?2, ?3, ?4), (?1, ?2, ?5, ?6), (?1, ?2, ?7, ?8)",
        params![
            game,
            power,
            one.province,
            one.line,
            other.province,
            other.line,
            third.province,
            third.line
        ],
    )
}

/// Inserts an item of a seat's inbox, by its number.
pub fn add_item<S: Alter>(tx: &mut Transaction<'_, S>, item: &ItemRow<'_>) -> Result<usize, Error>
    ensures same_reference { tx.new.conn.ghost_name ≡ tx.old.conn.ghost_name }
    ensures does { Does (with_item (rows.item item.now)) ItemsDiffer
        (state S.Store tx.old.conn.now) (state S.Store tx.new.conn.now) result }
{
    tx.execute(
        "INSERT INTO box (game, power, number, grey, writer, addressees, body) VALUES (?1, ?2, ?3, ?4, ?5, ?6, ?7)",
        params![
            item.game,
            item.power,
            item.number,
            item.grey,
            item.writer,
            item.addressees,
            item.body
        ],
    )
}

/// Inserts a paper of a game, by its number.
pub fn add_paper<S: Alter>(
    tx: &mut Transaction<'_, S>,
    game: &str,
    number: u32,
    body: &str,
) -> Result<usize, Error>
    ensures same_reference { tx.new.conn.ghost_name ≡ tx.old.conn.ghost_name }
    ensures does { Does
        (with_paper (record { game = game.now; number = number; body = body.now })) PapersDiffer
        (state S.Store tx.old.conn.now) (state S.Store tx.new.conn.now) result }
{
    tx.execute(
        "INSERT INTO paper (game, number, body) VALUES (?1, ?2, ?3)",
        params![game, number, body],
    )
}

/// Inserts the ballot of a seat. No other has its game and power, where that goes well.
pub fn add_ballot<S: Alter>(
    tx: &mut Transaction<'_, S>,
    game: &str,
    power: &str,
    names: &str,
) -> Result<usize, Error>
    ensures same_reference { tx.new.conn.ghost_name ≡ tx.old.conn.ghost_name }
    ensures does { Does
        (with_ballot (record { game = game.now; power = power.now; names = names.now }))
        BallotsDiffer (state S.Store tx.old.conn.now) (state S.Store tx.new.conn.now) result }
    // A row that can be stored, and has a number, is no reason to fail.
    ensures stores { StoresBehind ballot_table (λ t. Differ same_ballot (with_ballot
        (record { game = game.now; power = power.now; names = names.now }) t).ballots)
        (next_row put_ballot (record { game = game.now; power = power.now; names = names.now }))
        (state S.Store tx.old.conn.now) (state S.Store tx.new.conn.now) result }
{
    tx.execute(
        "INSERT INTO ballot (game, power, names) VALUES (?1, ?2, ?3)",
        params![game, power, names],
    )
}

/// Inserts the choice of a game: whether it has the option INTENT. No other is the game's, where that goes well.
pub fn add_choice<S: Alter>(
    tx: &mut Transaction<'_, S>,
    game: &str,
    intent: bool,
) -> Result<usize, Error>
    ensures same_reference { tx.new.conn.ghost_name ≡ tx.old.conn.ghost_name }
    ensures does { Does (with_choice (choice_row game.now intent)) ChoicesDiffer
        (state S.Store tx.old.conn.now) (state S.Store tx.new.conn.now) result }
    // A row that can be stored, and has a number, is no reason to fail.
    ensures stores { StoresBehind choice_table (λ t. Differ same_choice
        (with_choice (choice_row game.now intent) t).choices)
        (next_row put_choice (choice_row game.now intent))
        (state S.Store tx.old.conn.now) (state S.Store tx.new.conn.now) result }
{
    tx.execute(
        "INSERT INTO choice (game, intent) VALUES (?1, ?2)",
        params![game, intent],
    )
}
