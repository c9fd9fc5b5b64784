//! The readers of press, as the rows of a game's seats show them.
ghost use Rattle.std.specs.Prelude.{◌≡◌, ◌<◌, ◌==◌, All, IfErr, IfOk, IsTrue, filter, map as each};
ghost use Rattle.std.specs.List.{AllByRecursion, list_any};
ghost use Rattle.sqlite.specs.Order.{bytes, column};
ghost use Rattle.dip_map.specs.Charts.{IsMap};
ghost use Rattle.dip_desk_state.specs.Bounds.{most_items};
ghost use Rattle.dip_store_tables.specs.Boards.{power_in, power_name};
ghost use Rattle.dip_store_tables.specs.Changing.{is_reader};
ghost use Rattle.dip_store_tables.specs.Legible.{AreOurs};
ghost use Rattle.dip_store_sql.specs.Causes.{has_faulted};
ghost use Rattle.dip_store_sql.specs.Calls.{IsKept, Selects, does_show, is_honest, tables_in};
ghost use Rattle.dip_store_counts.specs.Counts.{AreSeats, shown_reader};
ghost use Rattle.dip_store_counts.specs.Failing.{IsListed};
ghost use Rattle.dip_store_sql.specs.RowFaults.{FailsFor};

use dip_desk_state::MOST_ITEMS;
use dip_map::Map;
use dip_names::Power;
use dip_store_sql::{RowFault, list_seats};
use sqlite::{Alter, Connection, Row};
use std::alloc::Global;

/// A seat that has press: its power, and how many items its inbox has before.
#[derive(Clone, Copy)]
pub struct Reader {
    pub power: Power,
    pub items: u32,
}

fn power_of(map: &Map, row: &Row) -> Result<Power, RowFault>
    ensures power { IfOk result (λ p. p ≡ power_in map.now (bytes (column row.now 0))) }
    ensures name { IfOk result (λ p. power_name map.now p ≡ bytes (column row.now 0)) }
    ensures fails { IsMap map.now → IsListed map.now row.now → IfErr result (FailsFor ⊥ ⊥) }
{
    let name: String = row.get(0)?;
    match map.power(name.as_str()) {
        Some(power) => Ok(power),
        None => Err(RowFault::Misfit),
    }
}

fn reader_in(map: &Map, row: &Row) -> Result<Reader, RowFault>
    ensures shown { IfOk result (λ r. r ≡ shown_reader map.now row.now) }
    ensures name { IfOk result (λ r. power_name map.now r.power ≡ bytes (column row.now 0)) }
    ensures fails { IsMap map.now → IsListed map.now row.now → IfErr result (FailsFor ⊥ ⊥) }
{
    Ok(Reader {
        power: power_of(map, row)?,
        items: row.get(7)?,
    })
}

fn readers_in(alloc: Global, map: &Map, rows: &[Row]) -> Result<Vec<Reader>, RowFault>
    ensures shown { IfOk result (λ v. v.items ≡ each (shown_reader map.now) rows.now) }
    ensures names { IfOk result (λ v. each (λ r. power_name map.now r.power) v.items
        ≡ each (λ r. bytes (column r 0)) rows.now) }
    ensures fails { IsMap map.now → AllByRecursion (IsListed map.now) rows.now
        → IfErr result (FailsFor ⊥ ⊥) }
{
    let mut readers = Vec::new(alloc);
    for row in rows {
        readers.push(reader_in(map, row)?)?;
    }
    Ok(readers)
}

fn is_in(powers: &[Power], power: Power) -> bool
    ensures { result ≡ list_any (λ p. p == power) powers.now }
{
    powers.contains(&power)
}

/// The readers whose power is among these, in the order of their seats.
fn readers_among(mut readers: Vec<Reader>, powers: &[Power]) -> Vec<Reader>
    ensures { result.items ≡ filter (λ r. list_any (λ p. p == r.power) powers.now) readers.items }
{
    readers.retain(|reader| is_in(powers, reader.power));
    readers
}

fn have_room(readers: &[Reader]) -> bool
    ensures room { IsTrue result → All (λ r. r.items < most_items) readers.now }
    ensures full { All (λ r. r.items < most_items) readers.now → IsTrue result }
{
    readers.iter().all(|reader| reader.items < MOST_ITEMS)
}

/// The seats of the game that are of these powers, in their order.
pub(crate) fn find_readers<S: Alter>(
    conn: &mut Connection<S>,
    alloc: Global,
    map: &Map,
    game: &str,
    powers: &[Power],
) -> Result<Vec<Reader>, RowFault>
    ensures room { IfOk result (λ v. All (λ r. r.items < most_items) v.items) }
    ensures value { IsKept S.Store conn.old → is_honest S.Store conn.new → IfOk result (λ v.
        AreSeats map.now game.now (filter (is_reader map.now game.now powers.now)
        (tables_in S.Store conn.old).seats) v.items) }
    ensures selects { Selects S.Store conn.old conn.new result }
    ensures fails { IsKept S.Store conn.old → does_show S.Store conn.old
        → is_honest S.Store conn.new → AreOurs map.now (tables_in S.Store conn.old)
        → IfErr result (FailsFor (has_faulted S.Store conn.old conn.new)
        (¬ AllByRecursion (λ s. s.items < most_items)
        (filter (is_reader map.now game.now powers.now) (tables_in S.Store conn.old).seats))) }
{
    let rows = list_seats(conn, game)?;
    let readers = readers_among(readers_in(alloc, map, rows.as_slice())?, powers);
    if !have_room(readers.as_slice()) {
        return Err(RowFault::Misfit);
    }
    Ok(readers)
}
