//! A keeper in memory.
ghost use Rattle.std.specs.Prelude.{◌≡◌, [], None, IfOk, IsErrOf, OnOk, option_map, string_bytes, true};
ghost use Rattle.dip_desk_keeper.specs.Fitting.{Fits};
ghost use Rattle.dip_desk_keeper.specs.Keeping.{Changes};
ghost use Rattle.dip_desk_memory.specs.Lacking.{LacksPlace};
ghost use Rattle.dip_desk_state.specs.State.{game_at, state_after};
ghost use Rattle.dip_desk_state.specs.ChangeRows as desk_rows;
ghost use Rattle.dip_desk_state.specs.Rows as rows;
ghost use Rattle.dip_desk_memory.specs.Stored as stored;

use crate::games::{Games, find_game, find_paper, find_seat, page_of, whole_of};
use crate::recording::record_games;
use dip_desk_keeper::Keeper;
use dip_desk_state::{Author, Change, Desk, Item, KeepFault, Kept, Own, Public, Whole};
use dip_map::Map;
use dip_names::Power;
use indexmap::IndexMap;
use std::alloc::{AllocError, Global};
use std::rc::Rc;

/// A keeper of the desk's state in memory. It is gone with the program.
#[derive(Drop)]
pub struct MemoryKeeper {
    alloc: Global,
    desk: Desk,
    games: Games,
    ghost named: { stored.are_named games.entries ≡ true },
}

/// The master's last letter, where it is the master's.
fn last_of(change: &Change) -> Result<Option<Kept>, AllocError>
    ensures { IfOk result
        (λ k. option_map rows.kept k ≡ stored.last_of (desk_rows.change change.now)) }
{
    match change.author {
        Author::TheMaster => Ok(Some(change.kept.copy()?)),
        Author::Nobody | Author::Seat(_) => Ok(None),
    }
}

/// The master's row after a letter.
fn record_desk(desk: &mut Desk, last: Option<Kept>)
    ensures { desk_rows.desk desk.new ≡ stored.desk_with (option_map rows.kept last)
        (desk_rows.desk desk.old) }
{
    if last.is_some() {
        desk.kept = last;
    }
}

impl MemoryKeeper {
    ghost use Rattle.dip_desk_memory.specs.InMemory as in_memory;
    ghost use Rattle.dip_desk_keeper.specs.Keeping.{IsOpen};
    ghost use Rattle.dip_map.specs.Charts.{Chart};

    /// An empty desk whose master's secret has this digest.
    pub fn new(alloc: Global, digest: [u8; 32]) -> MemoryKeeper
        ensures empty { in_memory.state result ≡ record
            { desk = record { digest = digest; kept = None }; games = [] } }
        ensures is_open { (m : Chart) → IsOpen m in_memory.book result }
    {
        MemoryKeeper {
            alloc,
            desk: Desk { digest, kept: None },
            games: IndexMap::new(alloc),
        }
    }
}

impl Keeper for MemoryKeeper {
    ghost use Rattle.dip_desk_memory.specs.InMemory as in_memory;

    ghost book = { in_memory.book };

    fn failures(&self) -> u64 {
        0
    }

    fn desk(&mut self) -> Result<Desk, KeepFault> {
        Ok(self.desk.copy()?)
    }

    fn public(&mut self, _map: &Map, game: &str) -> Result<Option<Rc<Public>>, KeepFault> {
        match find_game(&self.games, game) {
            None => Ok(None),
            Some(found) => Ok(Some(found.public.clone()?)),
        }
    }

    fn digest(
        &mut self,
        _map: &Map,
        game: &str,
        power: Power,
    ) -> Result<Option<[u8; 32]>, KeepFault> {
        match find_seat(&self.games, game, power) {
            None => Ok(None),
            Some(seat) => Ok(Some(seat.own.digest)),
        }
    }

    fn own(&mut self, _map: &Map, game: &str, power: Power) -> Result<Option<Own>, KeepFault> {
        match find_seat(&self.games, game, power) {
            None => Ok(None),
            Some(seat) => Ok(Some(seat.own.copy(self.alloc)?)),
        }
    }

    fn items(
        &mut self,
        _map: &Map,
        game: &str,
        power: Power,
        first: u32,
        most: u32,
    ) -> Result<Option<Vec<Rc<Item>>>, KeepFault> {
        match find_seat(&self.games, game, power) {
            None => Ok(None),
            Some(seat) => {
                let page = page_of(self.alloc, seat.inbox.as_slice(), first, most)?;
                Ok(Some(page))
            }
        }
    }

    fn whole(&mut self, _map: &Map, game: &str) -> Result<Option<Whole>, KeepFault> {
        match find_game(&self.games, game) {
            None => Ok(None),
            Some(found) => Ok(Some(whole_of(self.alloc, game, found)?)),
        }
    }

    fn paper(&mut self, _map: &Map, game: &str, number: u32) -> Result<Option<String>, KeepFault> {
        match find_paper(&self.games, game, number) {
            None => Ok(None),
            Some(paper) => Ok(Some(paper.clone()?)),
        }
    }

    /// Makes the change whole or not at all, if it finds place. `Damaged` is told only where it finds
    /// none: of press, where what its author has sent or the inbox of a reader is at its bound; of a
    /// new game, where its name isn't the change's or is taken, or it has more papers than a game
    /// has; of a paper, where its number is more than a game has papers. `Disk` is never told.
    #[tactic(auto, using(crate::proofs::Placing::fits_in_place))]
    fn apply(&mut self, _map: &Map, change: &Change) -> Result<(), KeepFault>
        ensures changes { Changes _map.now in_memory.book self.old self.new
            (state_after (desk_rows.change change.now))
            (Fits _map.now (desk_rows.change change.now)) result }
        ensures placed { OnOk result
            (LacksPlace (string_bytes change.now.game) (desk_rows.author change.now.author)
            (desk_rows.effect change.now.effect)
            (game_at (string_bytes change.now.game) (in_memory.state self.old)) → ⊥) }
        ensures damaged { IsErrOf result KeepFault.Damaged
            → LacksPlace (string_bytes change.now.game) (desk_rows.author change.now.author)
            (desk_rows.effect change.now.effect)
            (game_at (string_bytes change.now.game) (in_memory.state self.old)) }
        ensures disk { IsErrOf result KeepFault.Disk → ⊥ }
    {
        let last = last_of(change)?;
        record_games(self.alloc, &mut self.games, change)?;
        record_desk(&mut self.desk, last);
        Ok(())
    }
}
