//! A keeper over a store that is made, or opened.
ghost use Rattle.std.specs.Prelude.{◌≡◌, codes, false, IsTrue, true};
ghost use Rattle.sqlite.specs.Held.{state};
ghost use Rattle.sqlite.specs.Tree.{Trees};
ghost use Rattle.dip_store_schema.specs.Known.{has_table};
ghost use Rattle.dip_store.specs.Opening.{IsSettled, MakesStore, OpensStore};
ghost use Rattle.dip_store.specs.Stored.{fresh_keeper};

use crate::keeper::SqlKeeper;
use dip_letters::sum;
use dip_map::Map;
use dip_store_memory::{IdleSeats, SeenGames, SeenOwns};
use dip_store_schema::{
    StoreFault, check_desk, check_old_desk, has_32, has_ballots, knows_none, open_fault, renew,
    set_up_tables,
};
use dip_store_tables::{new_tables_are_legible, new_tables_are_new, old_tables_are_renewed};
use sqlite::{Alter, Connection};
use std::alloc::Global;

/// While a connection is open, a crash leaves what is committed, and nothing else.
fn commits_last<S: Alter>(conn: &Connection<S>)
    ensures { IsTrue (state S.Store conn.now).is_open → (db : Trees)
        → (state S.Store conn.now).may_leave db → db ≡ (state S.Store conn.now).committed.trees }
{}

impl<S: Alter> SqlKeeper<S> {
    /// The keeper of a connection's rows, which were made with a map's text of this sum.
    fn over(alloc: Global, conn: Connection<S>, map_sum: [u8; 32]) -> SqlKeeper<S>
        ensures { result ≡ fresh_keeper alloc conn map_sum }
    {
        SqlKeeper {
            alloc,
            conn,
            map_sum,
            failures: 0,
            seen: SeenGames::new(alloc),
            owns: SeenOwns::new(alloc),
            idle: IdleSeats::new(alloc),
        }
    }

    /// Makes a desk's tables in an empty store: a desk without a game, whose master's secret has this digest. The tables are made with
    /// this map's text, and the store is opened with no other.
    ///
    /// # Errors
    /// `OtherSchema` exactly where the store has a table, or anything else that a schema names; `Memory`; `Disk` also for a store with
    /// a transaction under way. The store is handed back, and what it has committed is as it was.
    ///
    /// A crash leaves what it might have left before, or a store that says the new desk.
    pub fn create(
        alloc: Global,
        store: Connection<S>,
        map: &Map,
        map_text: &str,
        digest: &[u8; 32],
    ) -> Result<SqlKeeper<S>, (StoreFault, Connection<S>)>
        ensures { MakesStore S.Store map.now map_text.now digest.now store result }
    {
        new_tables_are_new();
        new_tables_are_legible();
        map.facts();
        has_32(digest);
        let mut conn = store;
        conn.set_step_limit(None);
        if !conn.is_autocommit() {
            return Err((StoreFault::Disk, conn));
        }
        if !knows_none(&conn) {
            return Err((StoreFault::OtherSchema, conn));
        }
        let map_sum = sum(map_text.as_bytes());
        match set_up_tables(&mut conn, &map_sum, digest) {
            Ok(()) => {
                commits_last(&conn);
                Ok(SqlKeeper::over(alloc, conn, map_sum))
            }
            Err(error) => Err((open_fault(error), conn)),
        }
    }

    /// Opens a store of version 1, which becomes one of version 2.
    fn open_old(
        alloc: Global,
        store: Connection<S>,
        map: &Map,
        map_text: &str,
    ) -> Result<SqlKeeper<S>, (StoreFault, Connection<S>)>
        requires ready { IsSettled S.Store store }
        requires none { has_table (codes "ballot") (state S.Store store).now.schema ≡ false }
        ensures { OpensStore S.Store map.now map_text.now store result }
    {
        old_tables_are_renewed();
        let mut conn = store;
        commits_last(&conn);
        if let Err(fault) = check_old_desk(&mut conn, map_text) {
            return Err((fault, conn));
        }
        match renew(&mut conn, alloc) {
            Ok(()) => {
                commits_last(&conn);
                Ok(SqlKeeper::over(alloc, conn, sum(map_text.as_bytes())))
            }
            Err(fault) => Err((fault, conn)),
        }
    }

    /// Opens a store that isn't of version 1.
    fn open_new(
        alloc: Global,
        store: Connection<S>,
        map: &Map,
        map_text: &str,
    ) -> Result<SqlKeeper<S>, (StoreFault, Connection<S>)>
        requires ready { IsSettled S.Store store }
        requires ballots { has_table (codes "ballot") (state S.Store store).now.schema ≡ true }
        ensures { OpensStore S.Store map.now map_text.now store result }
    {
        let mut conn = store;
        commits_last(&conn);
        match check_desk(&mut conn, map_text) {
            Ok(()) => {
                commits_last(&conn);
                Ok(SqlKeeper::over(alloc, conn, sum(map_text.as_bytes())))
            }
            Err(fault) => Err((fault, conn)),
        }
    }

    /// Opens a store in which `create` has made a desk's tables with this map's text. One of
    /// version 1 is made one of version 2 first, in one transaction: its votes become ballots, and
    /// all else stays.
    ///
    /// # Errors
    /// `OtherSchema` where a table isn't there, or the master's row isn't, doesn't read or is of
    /// another version; `OtherMap` where that row says another map. Of a store that keepers wrote
    /// these are told nowhere else. `Memory`; `Disk` also for a store with a transaction under way,
    /// and else only where the store told of a fault of the disk, or its tables of version 1 can't
    /// be made anew: no keeper of that version wrote them, or one of the rows that are written is
    /// past 10^9 bytes, or without a number of 64 bits. The store is handed back with what it had,
    /// or renewed.
    pub fn open(
        alloc: Global,
        store: Connection<S>,
        map: &Map,
        map_text: &str,
    ) -> Result<SqlKeeper<S>, (StoreFault, Connection<S>)>
        ensures { OpensStore S.Store map.now map_text.now store result }
    {
        let mut conn = store;
        conn.set_step_limit(None);
        if !conn.is_autocommit() {
            return Err((StoreFault::Disk, conn));
        }
        if !has_ballots(&conn) {
            return SqlKeeper::open_old(alloc, conn, map, map_text);
        }
        SqlKeeper::open_new(alloc, conn, map, map_text)
    }
}
