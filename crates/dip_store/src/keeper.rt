//! A keeper over an SQL store.
ghost use Rattle.std.specs.Prelude.{◌≡◌};
ghost use Rattle.dip_store.specs.Stored as stored;

use crate::authors::known_author;
use crate::faults::row_fault;
use crate::laws::{changes_are_made, what_fits_can_be_written, what_fits_finds_place};
use crate::making::make;
use crate::papers::look_game_paper;
use crate::shared::look_shared_public;
use dip_desk_keeper::Keeper;
use dip_desk_state::{Change, Desk, Item, KeepFault, Own, Public, Whole};
use dip_map::{Map, Power};
use dip_store_counts::KnownBefore;
use dip_store_looks::{look_desk, look_digest, look_items, look_own, look_whole};
use dip_store_memory::{IdleSeats, SeenGames, SeenOwns};
use dip_store_tables::{
    has_texts, has_widths, is_writable, own_is_found, page_is_found, tables_stay_counted,
    tables_stay_legible,
};
use sqlite::{Alter, Connection};
use std::alloc::Global;
use std::rc::Rc;

/// A keeper of the desk's state in the ten tables of an SQL store. Each call reads the rows that it is asked for and no others; a
/// change is one transaction, made whole or not at all.
///
/// What it has read of games and seats it has in memory too, and reads it no more while nothing changes it: the store is its own,
/// and nobody else writes to it. It remembers the public parts of at most 16,384 games, as they were read, opened or, where they were
/// remembered before, published, and the own parts of at most 1,024 seats. A letter that changes no own part but its author's (orders,
/// a vote, or only what is kept of it) and a paper are done to them in memory as to their rows; press and another secret forget the own
/// parts of their game. Of the
/// seats of at most 16,384 games that it opened itself it knows which have neither ordered nor voted since: of such a seat the row alone is read. An
/// own part whose kept reply is longer than 4,096 bytes isn't remembered, so that all of this stays within some 20 MB for games of the
/// standard map.
///
/// After `Disk` or `Damaged` the store is to be opened anew, which finds what a crash may leave.
#[derive(Drop)]
pub struct SqlKeeper<S: Alter> {
    pub(crate) alloc: Global,
    pub(crate) conn: Connection<S>,
    /// The sum of the map's text that the store was made with.
    pub(crate) map_sum: [u8; 32],
    /// How many faults of the disk it has told of.
    pub(crate) failures: u64,
    /// The public parts that it has seen, as its rows have them.
    pub(crate) seen: SeenGames,
    /// The own parts that it has seen, as its rows have them.
    pub(crate) owns: SeenOwns,
    /// Seats that have neither ordered nor voted since it opened their games.
    pub(crate) idle: IdleSeats,
}

impl<S: Alter> SqlKeeper<S> {
    /// The store, whose changes are all committed.
    pub fn into_store(self) -> Connection<S>
        ensures { result ≡ self.conn }
    {
        let SqlKeeper {
            alloc: _,
            conn,
            map_sum: _,
            failures: _,
            seen: _,
            owns: _,
            idle: _,
        } = self;
        conn
    }

    /// The fault, which is counted if it is one of the disk.
    fn count_fault(&mut self, fault: KeepFault) -> KeepFault
        ensures same { result ≡ fault }
        ensures told { self.new ≡ stored.telling fault self.old }
    {
        match fault {
            KeepFault::Memory => {}
            KeepFault::Disk => self.failures = self.failures.saturating_add(1),
            KeepFault::Damaged => {}
        }
        fault
    }
}

impl<S: Alter> Keeper for SqlKeeper<S> {
    ghost book = { stored.book S.Store };

    fn failures(&self) -> u64 {
        self.failures
    }

    fn desk(&mut self) -> Result<Desk, KeepFault> {
        match look_desk(&mut self.conn, self.alloc) {
            Ok(desk) => Ok(desk),
            Err(fault) => Err(self.count_fault(row_fault(fault))),
        }
    }

    fn public(&mut self, map: &Map, game: &str) -> Result<Option<Rc<Public>>, KeepFault> {
        if let Some(part) = self.seen.find(game) {
            return Ok(Some(part.clone()?));
        }
        match look_shared_public(&mut self.conn, self.alloc, map, game) {
            Ok(public) => {
                self.seen.learn(self.alloc, game, &public);
                Ok(public)
            }
            Err(fault) => Err(self.count_fault(row_fault(fault))),
        }
    }

    fn digest(
        &mut self,
        map: &Map,
        game: &str,
        power: Power,
    ) -> Result<Option<[u8; 32]>, KeepFault> {
        if let Some(seen) = self.owns.find(game, power) {
            return Ok(Some(seen.digest));
        }
        own_is_found();
        map.facts();
        match look_digest(&mut self.conn, map, game, power) {
            Ok(digest) => Ok(digest),
            Err(fault) => Err(self.count_fault(row_fault(fault))),
        }
    }

    fn own(&mut self, map: &Map, game: &str, power: Power) -> Result<Option<Own>, KeepFault> {
        if let Some(own) = self.owns.find(game, power) {
            return Ok(Some(own.copy(self.alloc)?));
        }
        own_is_found();
        map.facts();
        let idle = self.idle.is_idle(game, power);
        match look_own(&mut self.conn, self.alloc, map, game, power, idle) {
            Ok(own) => {
                self.owns.learn(self.alloc, game, &own);
                Ok(own)
            }
            Err(fault) => Err(self.count_fault(row_fault(fault))),
        }
    }

    fn items(
        &mut self,
        map: &Map,
        game: &str,
        power: Power,
        first: u32,
        most: u32,
    ) -> Result<Option<Vec<Rc<Item>>>, KeepFault> {
        page_is_found();
        map.facts();
        match look_items(&mut self.conn, self.alloc, map, game, power, first, most) {
            Ok(items) => Ok(items),
            Err(fault) => Err(self.count_fault(row_fault(fault))),
        }
    }

    fn whole(&mut self, map: &Map, game: &str) -> Result<Option<Whole>, KeepFault> {
        let known = self.seen.copy_of(self.alloc, game)?;
        match look_whole(&mut self.conn, self.alloc, map, game, known) {
            Ok(whole) => Ok(whole),
            Err(fault) => Err(self.count_fault(row_fault(fault))),
        }
    }

    fn paper(&mut self, _map: &Map, game: &str, number: u32) -> Result<Option<String>, KeepFault> {
        match look_game_paper(&mut self.conn, game, number) {
            Ok(paper) => Ok(paper),
            Err(fault) => Err(self.count_fault(row_fault(fault))),
        }
    }

    fn apply(&mut self, map: &Map, change: &Change) -> Result<(), KeepFault> {
        changes_are_made();
        own_is_found();
        tables_stay_counted();
        tables_stay_legible();
        what_fits_can_be_written();
        what_fits_finds_place();
        has_texts(change);
        has_widths(change);
        map.facts();
        if !is_writable(map, change) {
            return Err(self.count_fault(KeepFault::Damaged));
        }
        let papers = self.seen.forget_replaced(change);
        self.idle.stir_author(self.alloc, change);
        let owns = self.owns.take(self.alloc, change.game.as_str());
        let author = known_author(change.author, owns.as_slice());
        let known = KnownBefore { author, papers };
        match make(&mut self.conn, self.alloc, map, change, known) {
            Ok(()) => {
                self.owns.keep(self.alloc, change, owns);
                self.idle.note_after(self.alloc, change);
                self.seen.note_after(self.alloc, change, papers.is_some());
                Ok(())
            }
            Err(fault) => Err(self.count_fault(row_fault(fault))),
        }
    }
}
