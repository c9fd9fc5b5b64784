//! The row of a letter's author.
ghost use Rattle.std.specs.Prelude.{◌≡◌, IfOk, codes, string_bytes};
ghost use Rattle.sqlite.specs.Held.{state};
ghost use Rattle.dip_desk_state.specs.ChangeRows as machine;
ghost use Rattle.dip_desk_state.specs.Rows as records;
ghost use Rattle.dip_store_tables.specs.Writing.{as_printed, desk_noted, whole_reply};
ghost use Rattle.dip_store_sql.specs.TablesAfter.{on_desk, on_seat};
ghost use Rattle.dip_store_sql.specs.Transactions.{Does, always};
ghost use Rattle.dip_store_counts.specs.Noting.{noting_row, on_row, row_noted};

use dip_desk_state::{Author, Change, Head, Kept, Outcome, Reply, reply_text};
use dip_map::Map;
use dip_store_counts::AuthorRow;
use dip_store_sql::{LastLetter, SeatRow, note_desk, renew_seat};
use sqlite::{Alter, Error, Transaction};
use std::alloc::{AllocError, Global};
use std::rc::Rc;

/// The reply to the letter, from `REPLY` to `END`.
fn whole_reply(alloc: Global, game: &str, sender: &str, kept: &Kept) -> Result<String, AllocError>
    ensures { IfOk result (λ t.
        string_bytes t ≡ whole_reply game.now sender.now (records.kept kept.now)) }
{
    let game = String::from_str(alloc, game)?;
    let sender = String::from_str(alloc, sender)?;
    let head = Head {
        game,
        sender,
        number: kept.number,
    };
    let reply = Reply {
        outcome: Outcome::Done,
        head: Some(head),
        text: kept.reply.clone()?,
    };
    reply_text(alloc, &reply)
}

#[tactic(auto, using(dip_store_sql::proofs::Joining::does_not))]
fn note_master<S: Alter>(
    alloc: Global,
    tx: &mut Transaction<'_, S>,
    game: &str,
    kept: &Kept,
) -> Result<(), Error>
    ensures same_reference { tx.new.conn.ghost_name ≡ tx.old.conn.ghost_name }
    ensures does { Does
        (on_desk (desk_noted (as_printed game.now (codes "master") (records.kept kept.now)))) always
        (state S.Store tx.old.conn.now) (state S.Store tx.new.conn.now) result }
{
    let reply = whole_reply(alloc, game, "master", kept)?;
    let letter = LastLetter {
        number: kept.number,
        sum: &kept.sum,
        reply: reply.as_str(),
    };
    note_desk(tx, &letter)?;
    Ok(())
}

/// The row of a seat with its last letter, and these columns.
#[tactic(auto, using(dip_store_sql::proofs::Joining::does_not))]
fn note_row<S: Alter>(
    alloc: Global,
    tx: &mut Transaction<'_, S>,
    game: &str,
    power: &str,
    kept: &Kept,
    row: &AuthorRow,
) -> Result<(), Error>
    ensures same_reference { tx.new.conn.ghost_name ≡ tx.old.conn.ghost_name }
    ensures does { Does
        (on_seat game.now power.now
        (row_noted row.now (as_printed game.now power.now (records.kept kept.now)))) always
        (state S.Store tx.old.conn.now) (state S.Store tx.new.conn.now) result }
{
    let reply = whole_reply(alloc, game, power, kept)?;
    let seat = SeatRow {
        digest: &row.digest,
        number: kept.number,
        sum: &kept.sum,
        reply: reply.as_str(),
        sent: row.sent,
        items: row.items,
    };
    renew_seat(tx, game, power, &seat)?;
    Ok(())
}

/// Writes what is kept of the letter into the row of its author's seat. Without a row there is no
/// such seat, and nothing is written.
fn note_own<S: Alter>(
    alloc: Global,
    tx: &mut Transaction<'_, S>,
    game: &str,
    power: &str,
    kept: &Kept,
    row: Option<AuthorRow>,
) -> Result<(), Error>
    ensures same_reference { tx.new.conn.ghost_name ≡ tx.old.conn.ghost_name }
    ensures does { Does
        (on_row row game.now power.now (as_printed game.now power.now (records.kept kept.now)))
        always (state S.Store tx.old.conn.now) (state S.Store tx.new.conn.now) result }
{
    match row {
        Some(row) => note_row(alloc, tx, game, power, kept, &row),
        None => Ok(()),
    }
}

/// What is kept of the letter, in its author's row, whose other columns are these.
pub fn note_author<S: Alter>(
    alloc: Global,
    tx: &mut Transaction<'_, S>,
    map: &Map,
    change: &Change,
    row: Option<AuthorRow>,
) -> Result<(), Error>
    ensures same_reference { tx.new.conn.ghost_name ≡ tx.old.conn.ghost_name }
    ensures does { Does
        (noting_row row map.now (machine.author change.now.author) (string_bytes change.now.game)
        (records.kept change.now.kept)) always
        (state S.Store tx.old.conn.now) (state S.Store tx.new.conn.now) result }
{
    let game = change.game.as_str();
    match change.author {
        Author::Nobody => Ok(()),
        Author::TheMaster => note_master(alloc, tx, game, &change.kept),
        Author::Seat(power) => {
            let name = map.power_name(power);
            note_own(alloc, tx, game, name, &change.kept, row)
        }
    }
}
