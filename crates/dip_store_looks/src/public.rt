//! The public part of a game.
ghost use Rattle.std.specs.Prelude.{◌≡◌, IfErr, IfOk, option_map};
ghost use Rattle.std.specs.List.{find};
ghost use Rattle.sqlite.specs.Order.{bytes, column};
ghost use Rattle.dip_store_tables.specs.Columns.{IsStatusText};
ghost use Rattle.dip_store_sql.specs.RowFaults.{IsFromOutside};
ghost use Rattle.dip_store_looks.specs.Readable.{IsChoiceReadable, IsGameReadable};
ghost use Rattle.dip_store_sql.specs.Values.{HasText};
ghost use Rattle.dip_store_looks.specs.Shown.{shown_intent, shown_public};
ghost use Rattle.dip_store_tables.specs.Legible.{AreOurs};
ghost use Rattle.dip_desk_state.specs.Rows as rows;
ghost use Rattle.dip_store_sql.specs.Causes.{has_faulted};
ghost use Rattle.dip_store_sql.specs.Calls.{IsKept, Selects, does_show, is_honest, tables_in};
ghost use Rattle.dip_store_tables.specs.Reading.{public_of, status_of};
ghost use Rattle.dip_store_tables.specs.Tables.{is_named};

use crate::board::board_in;
use dip_desk_state::{Public, Status};
use dip_map::Map;
use dip_store_sql::{
    RowFault, find_choice, find_game, list_centres, list_units, number_at, text_at, tick_at,
};
use dip_store_tables::read_status;
use sqlite::{Alter, Connection, Row};
use std::alloc::Global;
use std::rc::Rc;

fn status_in(alloc: Global, map: &Map, row: &Row) -> Result<Status, RowFault>
    ensures value { IfOk result (λ s.
        rows.status s ≡ status_of map.now (bytes (column row.now 2))) }
    ensures own { HasText row.now 2 → IsStatusText map.now (bytes (column row.now 2))
        → IfErr result (IsFromOutside ⊥) }
{
    let text = text_at(row, 2)?;
    match read_status(alloc, map, text.as_str())? {
        Some(status) => Ok(status),
        None => Err(RowFault::Misfit),
    }
}

/// Whether a game has the option INTENT, by the row of its choice; without such a row it hasn't.
fn intent_in(choice: Option<Row>) -> Result<bool, RowFault>
    ensures value { IfOk result (λ b. b ≡ shown_intent choice) }
    ensures own { IsChoiceReadable choice → IfErr result (IsFromOutside ⊥) }
{
    match choice {
        Some(row) => Ok(number_at(&row, 0)? == 1),
        None => Ok(false),
    }
}

/// The public part that a game's row, its units' rows, its centres' rows and its choice's row show.
fn public_in(
    alloc: Global,
    map: &Map,
    game: &str,
    row: &Row,
    units: &[Row],
    centres: &[Row],
    choice: Option<Row>,
) -> Result<Public, RowFault>
    ensures value { IfOk result (λ p.
        rows.public p
        ≡ shown_public map.now game.now row.now units.now centres.now choice) }
    ensures own { IsGameReadable map.now row.now units.now centres.now choice
        → IfErr result (IsFromOutside ⊥) }
{
    let grey = number_at(row, 5)?;
    let intent = intent_in(choice)?;
    Ok(Public {
        game: String::from_str(alloc, game)?,
        board: Rc::new(alloc, board_in(alloc, map, row, units, centres, intent)?)?,
        status: status_in(alloc, map, row)?,
        due: tick_at(row, 3)?,
        period: number_at(row, 4)?,
        grey: grey == 1,
        papers: number_at(row, 6)?,
    })
}

/// The public part of a game; none where there is no such game.
///
/// # Errors
/// Want of memory, the database's own, or `Misfit` where a row of it is none that a keeper writes by this map.
pub fn look_public<S: Alter>(
    conn: &mut Connection<S>,
    alloc: Global,
    map: &Map,
    game: &str,
) -> Result<Option<Public>, RowFault>
    ensures value { IsKept S.Store conn.old → is_honest S.Store conn.new → IfOk result (λ o.
        option_map rows.public o ≡ option_map
        (public_of map.now (tables_in S.Store conn.old).units (tables_in S.Store conn.old).centres
        (tables_in S.Store conn.old).choices)
        (find (is_named game.now) (tables_in S.Store conn.old).games)) }
    ensures selects { Selects S.Store conn.old conn.new result }
    ensures own { IsKept S.Store conn.old → does_show S.Store conn.old → is_honest S.Store conn.new
        → AreOurs map.now (tables_in S.Store conn.old)
        → IfErr result (IsFromOutside (has_faulted S.Store conn.old conn.new)) }
{
    let Some(row) = find_game(conn, game)? else {
        return Ok(None);
    };
    let units = list_units(conn, game)?;
    let centres = list_centres(conn, game)?;
    let choice = find_choice(conn, game)?;
    let public = public_in(
        alloc,
        map,
        game,
        &row,
        units.as_slice(),
        centres.as_slice(),
        choice,
    )?;
    Ok(Some(public))
}
