//! A game with the own parts of its seats.
ghost use Rattle.std.specs.Prelude.{◌≡◌, IfErr, IfOk, map as each, option_map};
ghost use Rattle.std.specs.List.{AllByRecursion, find};
ghost use Rattle.dip_store_looks.specs.Asked.{IsPartKnown, SelectsOn, owns_in, whole_in};
ghost use Rattle.dip_store_sql.specs.RowFaults.{IsFromOutside};
ghost use Rattle.dip_store_looks.specs.Readable.{IsListedReadable};
ghost use Rattle.dip_store_looks.specs.Shown.{listed_own};
ghost use Rattle.dip_store_tables.specs.Legible.{AreOurs};
ghost use Rattle.dip_desk_state.specs.Rows as rows;
ghost use Rattle.dip_store_sql.specs.Causes.{has_faulted};
ghost use Rattle.dip_store_sql.specs.Calls.{IsKept, Selects, does_show, is_honest, tables_in};
ghost use Rattle.dip_store_tables.specs.Tables.{is_named};

use crate::own::{look_beside, own_in};
use crate::public::look_public;
use dip_desk_state::{Own, Public, Whole};
use dip_map::Map;
use dip_store_sql::{RowFault, list_seats, text_at};
use sqlite::{Alter, Connection, Row};
use std::alloc::Global;

/// The own part of a seat whose row begins with its power's name.
fn own_of<S: Alter>(
    conn: &mut Connection<S>,
    alloc: Global,
    map: &Map,
    game: &str,
    row: &Row,
) -> Result<Own, RowFault>
    ensures value { IsKept S.Store conn.old → is_honest S.Store conn.new → IfOk result (λ o.
        rows.own o
        ≡ listed_own map.now (tables_in S.Store conn.old) game.now row.now) }
    ensures selects { Selects S.Store conn.old conn.new result }
    ensures own { IsKept S.Store conn.old → does_show S.Store conn.old → is_honest S.Store conn.new
        → AreOurs map.now (tables_in S.Store conn.old) → IsListedReadable map.now row.now
        → IfErr result (IsFromOutside (has_faulted S.Store conn.old conn.new)) }
{
    map.facts();
    let name = text_at(row, 0)?;
    let Some(power) = map.power(name.as_str()) else {
        return Err(RowFault::Misfit);
    };
    let beside = look_beside(conn, alloc, map, game, name.as_str())?;
    own_in(alloc, map, power, row, 1, beside)
}

fn owns_of<S: Alter>(
    conn: &mut Connection<S>,
    alloc: Global,
    map: &Map,
    game: &str,
    seats: &[Row],
) -> Result<Vec<Own>, RowFault>
    ensures value { IsKept S.Store conn.old → is_honest S.Store conn.new → IfOk result (λ v.
        each rows.own v.items
        ≡ each (listed_own map.now (tables_in S.Store conn.old) game.now) seats.now) }
    ensures selects { SelectsOn S.Store conn.old conn.new result }
    ensures own { IsKept S.Store conn.old → does_show S.Store conn.old → is_honest S.Store conn.new
        → AreOurs map.now (tables_in S.Store conn.old)
        → AllByRecursion (IsListedReadable map.now) seats.now
        → IfErr result (IsFromOutside (has_faulted S.Store conn.old conn.new)) }
{
    let mut owns = Vec::new(alloc);
    for seat in seats {
        owns.push(own_of(conn, alloc, map, game, seat)?)?;
    }
    Ok(owns)
}

/// The own parts of all seats of a game, in the order in which they were put in, and without the items of their inboxes.
fn look_seats<S: Alter>(
    conn: &mut Connection<S>,
    alloc: Global,
    map: &Map,
    game: &str,
) -> Result<Vec<Own>, RowFault>
    ensures value { IsKept S.Store conn.old → is_honest S.Store conn.new → IfOk result (λ v.
        each rows.own v.items ≡ owns_in map.now (tables_in S.Store conn.old) game.now) }
    ensures selects { Selects S.Store conn.old conn.new result }
    ensures own { IsKept S.Store conn.old → does_show S.Store conn.old → is_honest S.Store conn.new
        → AreOurs map.now (tables_in S.Store conn.old)
        → IfErr result (IsFromOutside (has_faulted S.Store conn.old conn.new)) }
{
    let rows = list_seats(conn, game)?;
    owns_of(conn, alloc, map, game, rows.as_slice())
}

/// A game with the own parts of all its seats, in the order in which they were put in, and without the items of their inboxes; none
/// where there is no such game. Where its public part is known, that isn't read.
///
/// # Errors
/// Want of memory, the database's own, or `Misfit` where a row of it is none that a keeper writes by this map.
pub fn look_whole<S: Alter>(
    conn: &mut Connection<S>,
    alloc: Global,
    map: &Map,
    game: &str,
    known: Option<Public>,
) -> Result<Option<Whole>, RowFault>
    ensures value { IsKept S.Store conn.old → is_honest S.Store conn.new
        → IsPartKnown (option_map rows.public known) map.now game.now
        (tables_in S.Store conn.old)
        → IfOk result (λ o.
        option_map rows.whole o ≡ option_map (whole_in map.now (tables_in S.Store conn.old))
        (find (is_named game.now) (tables_in S.Store conn.old).games)) }
    ensures selects { Selects S.Store conn.old conn.new result }
    ensures own { IsKept S.Store conn.old → does_show S.Store conn.old → is_honest S.Store conn.new
        → AreOurs map.now (tables_in S.Store conn.old)
        → IfErr result (IsFromOutside (has_faulted S.Store conn.old conn.new)) }
{
    if let Some(public) = known {
        let seats = look_seats(conn, alloc, map, game)?;
        return Ok(Some(Whole { public, seats }));
    }
    let Some(public) = look_public(conn, alloc, map, game)? else {
        return Ok(None);
    };
    let seats = look_seats(conn, alloc, map, game)?;
    Ok(Some(Whole { public, seats }))
}
