//! Pages of an inbox.
ghost use Rattle.std.specs.Prelude.{◌≡◌, ◌<◌, ◌+◌, ◌-◌, ◌^◌, ◌≤◌, ℕ, IfErr, IfOk, Some, drop, length, option_map, take};
ghost use Rattle.std.specs.List.{find};
ghost use Rattle.dip_store_tables.specs.Boards.{power_name};
ghost use Rattle.dip_map.specs.Charts.{Chart};
ghost use Rattle.dip_store_looks.specs.Asked.{SelectsOn, page_in};
ghost use Rattle.dip_store_sql.specs.RowFaults.{IsFromOutside};
ghost use Rattle.dip_store_looks.specs.Readable.{IsItemReadable};
ghost use Rattle.dip_store_looks.specs.Shown.{shown_item};
ghost use Rattle.dip_store_tables.specs.Legible.{AreOurs};
ghost use Rattle.dip_desk_state.specs.Rows as rows;
ghost use Rattle.dip_store_sql.specs.Causes.{IsCaused, has_faulted};
ghost use Rattle.dip_store_sql.specs.Calls.{IsKept, Selects, does_show, is_honest, tables_in};
ghost use Rattle.dip_store_sql.specs.Showing.{is_item};
ghost use Rattle.dip_store_tables.specs.Counting.{counted, item_numbers};
ghost use Rattle.dip_store_tables.specs.Reading.{item_of, items_of};
ghost use Rattle.dip_store_tables.specs.Tables.{is_seat};

use dip_desk_state::Item;
use dip_map::Map;
use dip_names::Power;
use dip_store_sql::{RowFault, find_item, find_seat, number_at, text_at};
use dip_store_tables::{ItemColumns, page_is_found, read_item};
use sqlite::{Alter, Connection, Error, Row};
use std::alloc::Global;
use std::rc::Rc;

fn columns_of(row: &Row) -> Result<ItemColumns, Error>
    ensures value { IfOk result (λ c. c ≡ shown_item row.now) }
    ensures own { IsItemReadable row.now → IfErr result (IsCaused ⊥) }
{
    Ok(ItemColumns {
        grey: number_at(row, 0)?,
        writer: text_at(row, 1)?,
        addressees: text_at(row, 2)?,
        body: text_at(row, 3)?,
    })
}

fn item_in(alloc: Global, row: &Row) -> Result<Rc<Item>, RowFault>
    ensures value { IfOk result (λ i. rows.item i.value ≡ item_of (shown_item row.now)) }
    ensures own { IsItemReadable row.now → IfErr result (IsFromOutside ⊥) }
{
    let item = read_item(alloc, columns_of(row)?)?;
    Ok(Rc::new(alloc, item)?)
}

/// The item of a number in a seat's inbox.
fn item_at<S: Alter>(
    conn: &mut Connection<S>,
    alloc: Global,
    game: &str,
    power: &str,
    number: u32,
) -> Result<Rc<Item>, RowFault>
    ensures value { IsKept S.Store conn.old → is_honest S.Store conn.new → IfOk result (λ i.
        Some (rows.item i.value) ≡ option_map item_of
        (find (is_item game.now power.now number) (tables_in S.Store conn.old).boxes)) }
    ensures selects { Selects S.Store conn.old conn.new result }
    ensures own { IsKept S.Store conn.old → does_show S.Store conn.old → is_honest S.Store conn.new
        → (m : Chart) → AreOurs m (tables_in S.Store conn.old) → (n : ℕ)
        → item_numbers (tables_in S.Store conn.old).boxes game.now power.now ≡ counted n
        → 0 < number → number ≤ n
        → IfErr result (IsFromOutside (has_faulted S.Store conn.old conn.new)) }
{
    let Some(row) = find_item(conn, game, power, number)? else {
        return Err(RowFault::Misfit);
    };
    item_in(alloc, &row)
}

/// So many items of a seat's inbox after the first ones.
fn items_after<S: Alter>(
    conn: &mut Connection<S>,
    alloc: Global,
    game: &str,
    power: &str,
    skipped: u32,
    many: u32,
) -> Result<Vec<Rc<Item>>, RowFault>
    requires { skipped + many < 2 ^ 32 }
    ensures value { IsKept S.Store conn.old → is_honest S.Store conn.new → IfOk result (λ v.
        (n : ℕ) → item_numbers (tables_in S.Store conn.old).boxes game.now power.now ≡ counted n
        → rows.items v.items ≡ take many (drop skipped
        (items_of (tables_in S.Store conn.old).boxes game.now power.now))) }
    ensures selects { SelectsOn S.Store conn.old conn.new result }
    ensures own { IsKept S.Store conn.old → does_show S.Store conn.old → is_honest S.Store conn.new
        → (m : Chart) → AreOurs m (tables_in S.Store conn.old) → (n : ℕ)
        → item_numbers (tables_in S.Store conn.old).boxes game.now power.now ≡ counted n
        → many ≤ n - skipped
        → IfErr result (IsFromOutside (has_faulted S.Store conn.old conn.new)) }
{
    let mut items = Vec::new(alloc);
    for index in 0..many {
        items.push(item_at(conn, alloc, game, power, skipped + index + 1)?)?;
    }
    Ok(items)
}

/// The items of a seat's inbox from a number on, at most so many; none where there is no such seat. The first item has the number 1.
///
/// # Errors
/// Want of memory, the database's own, or `Misfit` where an item that the seat counts isn't there.
pub fn look_items<S: Alter>(
    conn: &mut Connection<S>,
    alloc: Global,
    map: &Map,
    game: &str,
    power: Power,
    first: u32,
    most: u32,
) -> Result<Option<Vec<Rc<Item>>>, RowFault>
    requires { power < length map.now.realms }
    ensures value { IsKept S.Store conn.old → is_honest S.Store conn.new → IfOk result (λ o.
        option_map (λ v. rows.items v.items) o
        ≡ option_map (page_in (tables_in S.Store conn.old).boxes first most)
        (find (is_seat game.now (power_name map.now power)) (tables_in S.Store conn.old).seats)) }
    ensures selects { Selects S.Store conn.old conn.new result }
    ensures own { IsKept S.Store conn.old → does_show S.Store conn.old → is_honest S.Store conn.new
        → AreOurs map.now (tables_in S.Store conn.old)
        → IfErr result (IsFromOutside (has_faulted S.Store conn.old conn.new)) }
{
    let name = map.power_name(power);
    let Some(row) = find_seat(conn, game, name)? else {
        return Ok(None);
    };
    let count = number_at(&row, 6)?;
    let skipped = first.saturating_sub(1);
    let many = most.min(count.saturating_sub(skipped));
    page_is_found();
    match items_after(conn, alloc, game, name, skipped, many) {
        Ok(items) => Ok(Some(items)),
        Err(fault) => Err(fault),
    }
}
