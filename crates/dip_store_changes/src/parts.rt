//! The parts of a change, one after the other in a transaction.
ghost use Rattle.std.specs.Prelude.{◌≡◌, ◌<◌, All, string_bytes};
ghost use Rattle.sqlite.specs.Held.{state};
ghost use Rattle.dip_desk_state.specs.Bounds.{most_items};
ghost use Rattle.dip_desk_state.specs.ChangeRows as machine;
ghost use Rattle.dip_desk_state.specs.Rows as records;
ghost use Rattle.dip_store_tables.specs.Changing.{voting_by};
ghost use Rattle.dip_store_tables.specs.Coding.{IsEffectOf};
ghost use Rattle.dip_store_tables.specs.ChangeColumns.{FitsColumns, IsWritable};
ghost use Rattle.dip_store_sql.specs.Keys.{AreKeyed, OrdersDiffer};
ghost use Rattle.dip_store_sql.specs.Transactions.{Does, always};
ghost use Rattle.dip_store_changes.specs.Parts.{GivenOrdersDiffer, changing_row, ordering_by_over, ordering_over, reaching_all};

use crate::authors::note_author;
use crate::ballots::put_vote;
use crate::delivering::deliver;
use crate::games::{open_game, publish};
use crate::orders::put_orders;
use crate::seats::replace;
use dip_desk_state::{Author, Change, Effect, Standing, Vote};
use dip_map::Map;
use dip_store_counts::{AuthorRow, Reader};
use sqlite::{Alter, Error, Transaction};
use std::alloc::Global;
use std::rc::Rc;

/// The author's standing orders are these, where the author has a seat; none is taken out where it is known that none stood.
fn order_by<S: Alter>(
    tx: &mut Transaction<'_, S>,
    map: &Map,
    game: &str,
    author: Author,
    unordered: bool,
    orders: &[Standing],
) -> Result<(), Error>
    ensures same_reference { tx.new.conn.ghost_name ≡ tx.old.conn.ghost_name }
    ensures does { Does
        (ordering_by_over unordered map.now (machine.author author) game.now
        (records.standings orders.now)) OrdersDiffer
        (state S.Store tx.old.conn.now) (state S.Store tx.new.conn.now) result }
{
    match author {
        Author::Nobody => Ok(()),
        Author::TheMaster => Ok(()),
        Author::Seat(power) => {
            put_orders(tx, map, game, map.power_name(power), unordered, orders)
        }
    }
}

/// The author's ballot says this vote, where the author has a seat.
fn vote_by<S: Alter>(
    alloc: Global,
    tx: &mut Transaction<'_, S>,
    map: &Map,
    game: &str,
    author: Author,
    vote: &Vote,
) -> Result<(), Error>
    ensures same_reference { tx.new.conn.ghost_name ≡ tx.old.conn.ghost_name }
    ensures does { Does
        (voting_by map.now (machine.author author) game.now (records.vote vote.now)) always
        (state S.Store tx.old.conn.now) (state S.Store tx.new.conn.now) result }
{
    match author {
        Author::Nobody => Ok(()),
        Author::TheMaster => Ok(()),
        Author::Seat(power) => put_vote(alloc, tx, map, game, power, vote),
    }
}

/// What the author orders or votes for, where the effect says it.
fn order<S: Alter>(
    alloc: Global,
    tx: &mut Transaction<'_, S>,
    map: &Map,
    game: &str,
    author: Author,
    unordered: bool,
    effect: &Effect,
) -> Result<(), Error>
    ensures same_reference { tx.new.conn.ghost_name ≡ tx.old.conn.ghost_name }
    ensures does { Does
        (ordering_over unordered map.now (machine.author author) game.now
        (machine.effect effect.now))
        (GivenOrdersDiffer (machine.effect effect.now))
        (state S.Store tx.old.conn.now) (state S.Store tx.new.conn.now) result }
{
    match effect {
        Effect::Pending(orders) => order_by(tx, map, game, author, unordered, orders.as_slice()),
        Effect::Votes(vote) => vote_by(alloc, tx, map, game, author, vote),
        Effect::Nothing => Ok(()),
        Effect::Delivers { .. } => Ok(()),
        Effect::Opens { .. } => Ok(()),
        Effect::Publishes { .. } => Ok(()),
        Effect::Seats(_) => Ok(()),
    }
}

/// What the effect does to its game, where press goes to these readers.
fn reach<S: Alter>(
    alloc: Global,
    tx: &mut Transaction<'_, S>,
    map: &Map,
    game: &str,
    effect: &Effect,
    readers: &[Reader],
) -> Result<(), Error>
    requires of { IsEffectOf map.now (machine.effect effect.now) }
    requires fits { FitsColumns (machine.effect effect.now) }
    requires room { All (λ r. r.items < most_items) readers.now }
    ensures same_reference { tx.new.conn.ghost_name ≡ tx.old.conn.ghost_name }
    ensures does { Does
        (reaching_all readers.now map.now game.now (machine.effect effect.now)) AreKeyed
        (state S.Store tx.old.conn.now) (state S.Store tx.new.conn.now) result }
{
    match effect {
        Effect::Nothing => Ok(()),
        Effect::Pending(_) => Ok(()),
        Effect::Votes(_) => Ok(()),
        Effect::Delivers { item, .. } => deliver(alloc, tx, map, game, readers, item),
        Effect::Opens {
            public,
            paper,
            seats,
        } => open_game(alloc, tx, map, public, paper.as_str(), seats.as_slice()),
        Effect::Publishes {
            public,
            paper,
            played,
        } => publish(alloc, tx, map, game, public, paper.as_str(), *played),
        Effect::Seats(seat) => replace(tx, map, game, seat),
    }
}

/// All parts of a change: what is kept of its letter, its author's orders or vote, and what it does to its game. It may be known that no
/// order of the author stood.
pub fn make_parts<S: Alter>(
    alloc: Global,
    tx: &mut Transaction<'_, S>,
    map: &Map,
    change: &Change,
    row: Option<AuthorRow>,
    unordered: bool,
    readers: &[Reader],
) -> Result<(), Error>
    requires writable { IsWritable map.now (machine.change change.now) }
    requires room { All (λ r. r.items < most_items) readers.now }
    ensures same_reference { tx.new.conn.ghost_name ≡ tx.old.conn.ghost_name }
    ensures does { Does
        (changing_row row unordered readers.now map.now (machine.change change.now)) AreKeyed
        (state S.Store tx.old.conn.now) (state S.Store tx.new.conn.now) result }
{
    let game = change.game.as_str();
    note_author(alloc, tx, map, change, row)?;
    order(
        alloc,
        tx,
        map,
        game,
        change.author,
        unordered,
        &change.effect,
    )?;
    reach(alloc, tx, map, game, &change.effect, readers)
}
