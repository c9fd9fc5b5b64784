//! Press in the inboxes of its readers.
ghost use Rattle.std.specs.Prelude.{◌≡◌, ◌<◌, All};
ghost use Rattle.sqlite.specs.Held.{state};
ghost use Rattle.dip_map.specs.Charts.{Chart};
ghost use Rattle.dip_desk_state.specs.Bounds.{most_items};
ghost use Rattle.dip_desk_state.specs.Rows as records;
ghost use Rattle.dip_store_sql.specs.Keys.{ItemsDiffer};
ghost use Rattle.dip_store_sql.specs.Transactions.{Does};
ghost use Rattle.dip_store_changes.specs.Delivering.{ReadersAreSeats, delivering_all, delivering_rows, delivering_to, putting};
ghost use Rattle.dip_store_changes.specs.Items.{boxed};

use crate::items::{ItemTexts, item_texts};
use dip_desk_state::Item;
use dip_map::Map;
use dip_store_counts::Reader;
use dip_store_sql::{ItemRow, add_item, count_item};
use sqlite::{Alter, Error, Transaction};
use std::alloc::Global;

fn put_item<'r, S: Alter>(
    tx: &mut Transaction<'_, S>,
    game: &'r str,
    power: &'r str,
    number: u32,
    item: &'r ItemTexts,
) -> Result<(), Error>
    ensures same_reference { tx.new.conn.ghost_name ≡ tx.old.conn.ghost_name }
    ensures does { Does
        (putting game.now power.now (boxed game.now power.now number item.now) number) ItemsDiffer
        (state S.Store tx.old.conn.now) (state S.Store tx.new.conn.now) result }
{
    count_item(tx, game, power, number)?;
    let row = ItemRow {
        game,
        power,
        number,
        grey: item.grey,
        writer: item.writer.as_str(),
        addressees: item.addressees.as_str(),
        body: item.body.as_str(),
    };
    add_item(tx, &row)?;
    Ok(())
}

fn put_to<'r, S: Alter>(
    tx: &mut Transaction<'_, S>,
    map: &'r Map,
    game: &'r str,
    reader: &Reader,
    item: &'r ItemTexts,
) -> Result<(), Error>
    requires { reader.now.items < most_items }
    ensures same_reference { tx.new.conn.ghost_name ≡ tx.old.conn.ghost_name }
    ensures does { Does
        (delivering_to map.now game.now (λ power n. boxed game.now power n item.now) reader.now)
        ItemsDiffer (state S.Store tx.old.conn.now) (state S.Store tx.new.conn.now) result }
{
    put_item(
        tx,
        game,
        map.power_name(reader.power),
        reader.items + 1,
        item,
    )
}

fn put_all<S: Alter>(
    tx: &mut Transaction<'_, S>,
    map: &Map,
    game: &str,
    readers: &[Reader],
    item: &ItemTexts,
) -> Result<(), Error>
    requires { All (λ r. r.items < most_items) readers.now }
    ensures same_reference { tx.new.conn.ghost_name ≡ tx.old.conn.ghost_name }
    ensures does { Does
        (delivering_rows map.now game.now (λ power n. boxed game.now power n item.now) readers.now)
        ItemsDiffer (state S.Store tx.old.conn.now) (state S.Store tx.new.conn.now) result }
{
    for reader in readers {
        put_to(tx, map, game, reader, item)?;
    }
    Ok(())
}

/// Each reader's seat counts the item, and its inbox has it.
#[tactic(auto, using(dip_store_sql::proofs::Joining::does_not))]
pub fn deliver<S: Alter>(
    alloc: Global,
    tx: &mut Transaction<'_, S>,
    map: &Map,
    game: &str,
    readers: &[Reader],
    item: &Item,
) -> Result<(), Error>
    requires { All (λ r. r.items < most_items) readers.now }
    ensures same_reference { tx.new.conn.ghost_name ≡ tx.old.conn.ghost_name }
    ensures does { Does
        (delivering_all map.now game.now (records.item item.now) readers.now) ItemsDiffer
        (state S.Store tx.old.conn.now) (state S.Store tx.new.conn.now) result }
{
    let texts = item_texts(alloc, item)?;
    put_all(tx, map, game, readers, &texts)
}

/// Where the readers are seats of the game, each of these seats has the item.
pub fn readers_are_seats()
    ensures { (m : Chart) → ReadersAreSeats m }
{}
