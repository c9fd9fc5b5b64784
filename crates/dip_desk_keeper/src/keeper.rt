//! What keeps the desk's state.
ghost use Rattle.std.specs.Prelude.{◌≡◌, ◌<◌, length, option_map, string_bytes};
ghost use Rattle.dip_map.specs.Charts.{Chart};
ghost use Rattle.dip_desk_keeper.specs.Fitting.{Fits};
ghost use Rattle.dip_desk_keeper.specs.Keeping.{Book, Changes, Looks};
ghost use Rattle.dip_desk_state.specs.State.{digest_at, items_at, own_at, paper_at, public_at, state_after, whole_at};
ghost use Rattle.dip_desk_state.specs.ChangeRows as desk_rows;
ghost use Rattle.dip_desk_state.specs.Rows as rows;

use dip_desk_state::{Change, Desk, Item, KeepFault, Own, Public, Whole};
use dip_map::Map;
use dip_names::Power;
use std::rc::Rc;

/// What keeps the desk's state, however it is kept. A call that reads changes nothing, and never
/// answers `Damaged` where what is kept is sound.
pub trait Keeper {
    /// What contracts see of it.
    ghost book: { Book Self };

    /// How many faults of the disk it has told of.
    fn failures(&self) -> u64
        ensures { result ≡ book.faults self.now };

    /// The master's row.
    fn desk(&mut self) -> Result<Desk, KeepFault>
        ensures { (m : Chart) → Looks m book self.old self.new
            (λ d. desk_rows.desk d ≡ (book.content m self.old).desk) ⊥ result };

    /// The public part of a game, which the keeper may share; `None` where there is no such game.
    fn public(&mut self, map: &Map, game: &str) -> Result<Option<Rc<Public>>, KeepFault>
        ensures { Looks map.now book self.old self.new
            (λ p. option_map (λ r. rows.public r.value) p
            ≡ public_at game.now (book.content map.now self.old)) ⊥ result };

    /// The digest of a seat's secret, and nothing else of the seat; `None` where there is no such
    /// seat.
    fn digest(&mut self, map: &Map, game: &str, power: Power) -> Result<Option<[u8; 32]>, KeepFault>
        requires { power < length map.now.realms }
        ensures { Looks map.now book self.old self.new
            (λ d. d ≡ digest_at game.now power (book.content map.now self.old)) ⊥ result };

    /// A seat's own part, all but the items of its inbox; `None` where there is no such seat.
    fn own(&mut self, map: &Map, game: &str, power: Power) -> Result<Option<Own>, KeepFault>
        requires { power < length map.now.realms }
        ensures { Looks map.now book self.old self.new
            (λ o. option_map rows.own o ≡ own_at game.now power (book.content map.now self.old)) ⊥
            result };

    /// The items of a seat's inbox from a number on, at most so many; the first item has the
    /// number 1. `None` where there is no such seat. What it costs doesn't grow with the inbox.
    fn items(
        &mut self,
        map: &Map,
        game: &str,
        power: Power,
        first: u32,
        most: u32,
    ) -> Result<Option<Vec<Rc<Item>>>, KeepFault>
        requires { power < length map.now.realms }
        ensures { Looks map.now book self.old self.new
            (λ o. option_map (λ v. rows.items v.items) o
            ≡ items_at game.now power first most (book.content map.now self.old)) ⊥ result };

    /// A game with the own parts of all its seats, in the order in which CREATE named them, and
    /// without the items of their inboxes; `None` where there is no such game.
    fn whole(&mut self, map: &Map, game: &str) -> Result<Option<Whole>, KeepFault>
        ensures { Looks map.now book self.old self.new
            (λ w. option_map rows.whole w ≡ whole_at game.now (book.content map.now self.old)) ⊥
            result };

    /// The text of a game's paper by its number; the opening paper has the number 1. `None` where
    /// there is no such game or paper.
    fn paper(&mut self, map: &Map, game: &str, number: u32) -> Result<Option<String>, KeepFault>
        ensures { Looks map.now book self.old self.new
            (λ p. option_map string_bytes p ≡ paper_at game.now number
            (book.content map.now self.old)) ⊥ result };

    /// Makes the change whole or not at all.
    fn apply(&mut self, map: &Map, change: &Change) -> Result<(), KeepFault>
        ensures { Changes map.now book self.old self.new (state_after (desk_rows.change change.now))
            (Fits map.now (desk_rows.change change.now)) result };
}
