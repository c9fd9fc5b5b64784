//! A change with all that is counted before it.
ghost use Rattle.std.specs.Prelude.{◌⊎◌, IfErr, OnErr, OnOk};
ghost use Rattle.sqlite.specs.Held.{state};
ghost use Rattle.sqlite.specs.Tree.{Trees};
ghost use Rattle.dip_desk_state.specs.ChangeRows as machine;
ghost use Rattle.dip_store_tables.specs.Changing.{changing};
ghost use Rattle.dip_store_tables.specs.ChangeColumns.{IsWritable};
ghost use Rattle.dip_store_tables.specs.Legible.{AreOurs};
ghost use Rattle.dip_store_sql.specs.Causes.{has_faulted};
ghost use Rattle.dip_store_sql.specs.Calls.{IsKept, does_show, is_honest, tables_in};
ghost use Rattle.dip_store_counts.specs.Failing.{HasPlace};
ghost use Rattle.dip_store.specs.Making.{MakesFrom, MayMake};
ghost use Rattle.dip_store_sql.specs.RowFaults.{BlamesFor, FailsFor};
ghost use Rattle.dip_store_counts.specs.Knowing.{IsKeptFor};

use crate::whole::make_with;
use dip_desk_state::Change;
use dip_map::Map;
use dip_store_changes::readers_are_seats;
use dip_store_counts::{KnownBefore, count, is_unordered, row_known};
use dip_store_sql::RowFault;
use dip_store_tables::{press_is_delivered_one_by_one, tables_stay_counted};
use sqlite::{Alter, Connection, Error, ErrorCode};
use std::alloc::Global;

/// Makes the whole change, or nothing of it. Of a change by a seat, what its row says may be known, and whether an order of it stands
/// (`KnownAuthor::of`): the row isn't asked for then, nor orders taken out where none stands. Of a paper it may be known how many its
/// game has: the game's row isn't asked for then. What is known has to be what the tables say.
///
/// # Errors
/// Want of memory, the database's own, one of a transaction that is open before, and `Misfit` where a count has no room for one more,
/// the change's paper hasn't the next number of its game, a seat of the game is of no power of the map, or the author's digest hasn't 32
/// bytes.
pub(crate) fn make<S: Alter>(
    conn: &mut Connection<S>,
    alloc: Global,
    map: &Map,
    change: &Change,
    known: KnownBefore,
) -> Result<(), RowFault>
    requires { IsWritable map.now (machine.change change.now) }
    ensures makes { MakesFrom
        (IsKeptFor S.Store known map.now (machine.change change.now) conn.old)
        S.Store (changing map.now (machine.change change.now)) conn.old conn.new result }
    ensures kept { IsKeptFor S.Store known map.now (machine.change change.now) conn.old
        → does_show S.Store conn.new → OnOk result (IsKept S.Store conn.new) }
    ensures place { IsKeptFor S.Store known map.now (machine.change change.now) conn.old
        → does_show S.Store conn.new → OnOk result
        (HasPlace map.now (machine.change change.now) (tables_in S.Store conn.old)) }
    // What a crash may leave of a change that isn't made, but what it might have left before, has
    // place.
    ensures landed { IsKeptFor S.Store known map.now (machine.change change.now) conn.old
        → is_honest S.Store conn.new
        → OnErr result ((db : Trees) → (state S.Store conn.new).may_leave db
        → (state S.Store conn.old).may_leave db
        ⊎ HasPlace map.now (machine.change change.now) (tables_in S.Store conn.old)) }
    ensures fails { IsKeptFor S.Store known map.now (machine.change change.now) conn.old
        → does_show S.Store conn.old → is_honest S.Store conn.new
        → MayMake map.now (machine.change change.now) (tables_in S.Store conn.old)
        → IfErr result (FailsFor (has_faulted S.Store conn.old conn.new)
        (¬ HasPlace map.now (machine.change change.now)
        (tables_in S.Store conn.old))) }
    // Of any change, whether it fits or not.
    ensures blames { IsKeptFor S.Store known map.now (machine.change change.now) conn.old
        → does_show S.Store conn.old → is_honest S.Store conn.new
        → AreOurs map.now (tables_in S.Store conn.old)
        → IfErr result (BlamesFor (has_faulted S.Store conn.old conn.new)) }
{
    readers_are_seats();
    press_is_delivered_one_by_one();
    tables_stay_counted();
    if !conn.is_autocommit() {
        return Err(RowFault::Sql(Error::SqliteFailure(ErrorCode::TransactionState)));
    }
    let row = row_known(known.author);
    let counted = count(conn, alloc, map, change, row, known.papers)?;
    match make_with(
        conn,
        alloc,
        map,
        change,
        counted.row,
        is_unordered(known.author),
        counted.readers.as_slice(),
    ) {
        Ok(()) => Ok(()),
        Err(error) => Err(RowFault::Sql(error)),
    }
}
