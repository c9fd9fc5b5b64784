//! Which seats of the games that were opened here have neither ordered nor voted since.
ghost use Rattle.std.specs.Prelude.{◌≡◌, ◌&&◌, ◌==◌, ◌⊎◌, [], ℕ, List, OnErr, OnOk, Some, bytes_eq, false, if◌then◌else◌, true};
ghost use Rattle.std.specs.Map.{lookup};
ghost use Rattle.dip_desk_state.specs.ChangeRows as desk_rows;
ghost use Rattle.dip_desk_state.specs.State.{State, state_after};
ghost use Rattle.dip_store_memory.specs.Idle.{RecallsIdle, idle_with_room, is_idle, is_stirring, stirs};
ghost use Rattle.dip_store_memory.specs.Seen.{DifferByName};

use dip_desk_state::{Author, Change, Effect};
use dip_map::Power;
use indexmap::IndexMap;
use std::alloc::{AllocError, Global};
use std::marker::Model;

/// The most games of which it is known.
const MOST_IDLE: usize = 16_384;

/// Of each game that was opened here, under its name, which of its first eight powers have ordered or voted since: at most
/// `MOST_IDLE` games. Where one more comes, all others are forgotten. Of a seat that hasn't no order stands, and it votes for no
/// draw, so that its row alone is read.
#[derive(Drop)]
pub struct IdleSeats {
    games: IndexMap<String, [bool; 8]>,
}

impl Model for IdleSeats {
    ghost use Rattle.std.specs.Prelude.{map, string_bytes};
    ghost use Rattle.dip_store_memory.specs.Idle.{Idle};

    ghost Value = { Idle };

    ghost view = { λ s. map (λ e. (string_bytes e.0, e.1)) s.games.entries };
}

/// Whether an effect gives its author orders or a vote.
fn is_stirring_effect(effect: &Effect) -> bool
    ensures { result ≡ is_stirring (desk_rows.effect effect.now) }
{
    match effect {
        Effect::Pending(_) | Effect::Votes(_) => true,
        Effect::Nothing
        | Effect::Delivers { .. }
        | Effect::Opens { .. }
        | Effect::Publishes { .. }
        | Effect::Seats(_) => false,
    }
}

impl IdleSeats {
    /// Knows of no seat.
    pub fn new(alloc: Global) -> IdleSeats
        ensures { result ≡ [] }
    {
        IdleSeats {
            games: IndexMap::new(alloc),
        }
    }

    /// Whether the seat of that power is known to have neither ordered nor voted.
    pub fn is_idle(&self, game: &str, power: Power) -> bool
        ensures { result ≡ is_idle game.now power self.now }
    {
        let Some(stirred) = self.games.get(game) else {
            return false;
        };
        let index = usize::from(power.index());
        match stirred.get(index) {
            Some(has) => !*has,
            None => false,
        }
    }

    /// Forgets all games where there is no room for one more.
    fn make_room(&mut self)
        ensures { self.new ≡ idle_with_room self.old }
    {
        if self.games.len() >= MOST_IDLE {
            self.games.clear();
        }
    }

    /// Puts marks of a game's powers in place of what is known of them.
    fn put(&mut self, alloc: Global, game: &str, stirred: [bool; 8]) -> Result<(), AllocError>
        ensures ok { OnOk result ((name : List ℕ) → lookup (bytes_eq name) self.new
            ≡ (if bytes_eq game.now name then Some stirred
            else lookup (bytes_eq name) self.old)) }
        ensures err { OnErr result (self.new ≡ self.old) }
    {
        let key = String::from_str(alloc, game)?;
        self.games.insert(key, stirred)?;
        Ok(())
    }

    /// Knows of each seat of a game, which is opened, that it is idle.
    fn begin(&mut self, alloc: Global, game: &str)
        ensures { (name : List ℕ) (power : ℕ) → is_idle name power self.new ≡ true
            → (is_idle name power (idle_with_room self.old) ≡ true)
            ⊎ (bytes_eq game.now name ≡ true) }
    {
        self.make_room();
        let _ = self.put(alloc, game, [false; 8]);
    }

    /// No longer knows that this seat is idle; nor that any seat of the game is, where memory is wanting or the power is none of the first
    /// eight.
    fn stir(&mut self, alloc: Global, game: &str, power: Power)
        ensures { (name : List ℕ) (other : ℕ) → is_idle name other self.new ≡ true
            → (is_idle name other self.old ≡ true)
            × ((bytes_eq game.now name && (power == other)) ≡ false) }
    {
        let Some(mut stirred) = self.games.swap_remove(game) else {
            return;
        };
        let index = usize::from(power.index());
        if index < stirred.len() {
            stirred[index] = true;
            let _ = self.put(alloc, game, stirred);
        }
    }

    /// Before a change: no longer knows that its author is idle, where it orders or votes, whether the change will be made or not.
    pub fn stir_author(&mut self, alloc: Global, change: &Change)
        ensures { (name : List ℕ) (power : ℕ) → is_idle name power self.new ≡ true
            → (is_idle name power self.old ≡ true)
            × (stirs (desk_rows.change change.now) name power ≡ false) }
    {
        if is_stirring_effect(&change.effect) {
            if let Author::Seat(power) = change.author {
                self.stir(alloc, change.game.as_str(), power);
            }
        }
    }

    /// After a change that is made: knows that each seat of a game that it opens is idle. Where memory is wanting it doesn't, and that
    /// is no fault.
    pub fn note_after(&mut self, alloc: Global, change: &Change)
        ensures { (s : State) → RecallsIdle (state_after (desk_rows.change change.now) s) self.old
            → DifferByName (state_after (desk_rows.change change.now) s).games
            → RecallsIdle (state_after (desk_rows.change change.now) s) self.new }
    {
        if let Effect::Opens { public, .. } = &change.effect {
            self.begin(alloc, public.game.as_str());
        }
    }
}
