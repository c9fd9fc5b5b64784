//! What a keeper remembers of games: their public parts, as it has looked at them or changed them.
ghost use Rattle.std.specs.Prelude.{◌≡◌, [], ℕ, IfOk, List, None, OnErr, OnOk, Some, bytes_eq, if◌then◌else◌, option_map, true};
ghost use Rattle.dip_desk_state.specs.ChangeRows as desk_rows;
ghost use Rattle.dip_desk_state.specs.Rows as rows;
ghost use Rattle.dip_desk_state.specs.State.{State, public_at, state_after};
ghost use Rattle.dip_store_memory.specs.Seen.{DifferByName, IsThere, Recalls, gives_part, is_paper, named_part, part_of, replaced_papers, with_room};

use crate::boards::are_surely_same;
use dip_desk_state::{Change, Effect, Public};
use dip_map::Board;
use indexmap::IndexMap;
use std::alloc::{AllocError, Global};
use std::marker::Model;
use std::rc::Rc;

/// The most games whose public parts are remembered.
const MOST_SEEN: usize = 16_384;

/// Public parts of games, each under its game's name: at most `MOST_SEEN`. Where one more comes, all others are forgotten.
#[derive(Drop)]
pub struct SeenGames {
    parts: IndexMap<String, Rc<Public>>,
    /// The board of the part that was copied last: games that are opened one after another share theirs.
    latest: Option<Rc<Board>>,
}

impl Model for SeenGames {
    ghost use Rattle.std.specs.Prelude.{map, string_bytes};
    ghost use Rattle.dip_desk_state.specs.Rows as rows;
    ghost use Rattle.dip_store_memory.specs.Seen.{Parts};

    ghost Value = { Parts };

    ghost view = { λ s. map (λ e. (string_bytes e.0, rows.public e.1.value)) s.parts.entries };
}

/// Whether an effect gives its game another public part.
fn is_new_part(effect: &Effect) -> bool
    ensures { result ≡ is_paper (desk_rows.effect effect.now) }
{
    match effect {
        Effect::Publishes { .. } => true,
        Effect::Nothing
        | Effect::Pending(_)
        | Effect::Votes(_)
        | Effect::Delivers { .. }
        | Effect::Opens { .. }
        | Effect::Seats(_) => false,
    }
}

impl SeenGames {
    /// Remembers no game.
    pub fn new(alloc: Global) -> SeenGames
        ensures { result ≡ [] }
    {
        SeenGames {
            parts: IndexMap::new(alloc),
            latest: None,
        }
    }

    /// What is remembered of the game of that name.
    pub fn find(&self, name: &str) -> Option<&Rc<Public>>
        ensures { option_map (λ p. rows.public p.now.value) result ≡ part_of name.now self.now }
    {
        self.parts.get(name)
    }

    /// A copy of what is remembered of the game of that name, under that name.
    pub fn copy_of(&self, alloc: Global, name: &str) -> Result<Option<Public>, AllocError>
        ensures { IfOk result (λ o. option_map rows.public o ≡ named_part name.now self.now) }
    {
        let Some(part) = self.find(name) else {
            return Ok(None);
        };
        let copy = part.copy_under(alloc, name)?;
        Ok(Some(copy))
    }

    /// Forgets all parts where there is no room for one more.
    fn make_room(&mut self)
        ensures { self.new ≡ with_room self.old }
    {
        if self.parts.len() >= MOST_SEEN {
            self.parts.clear();
        }
    }

    /// Remembers a game's public part, which it shares.
    fn note(&mut self, alloc: Global, name: &str, public: &Rc<Public>) -> Result<(), AllocError>
        ensures ok { OnOk result ((other : List ℕ) → part_of other self.new
            ≡ (if bytes_eq name.now other then Some (rows.public public.now.value)
            else part_of other (with_room self.old))) }
        ensures err { OnErr result (self.new ≡ with_room self.old) }
    {
        self.make_room();
        let key = String::from_str(alloc, name)?;
        let part = public.clone()?;
        self.parts.insert(key, part)?;
        Ok(())
    }

    /// Remembers what a look found of a game. Where memory is wanting for it, it isn't remembered, and that is no fault.
    pub fn learn(&mut self, alloc: Global, name: &str, found: &Option<Rc<Public>>)
        ensures { (s : State) → Recalls s self.old
            → option_map (λ p. rows.public p.value) found.now ≡ public_at name.now s
            → Recalls s self.new }
    {
        if let Some(public) = found {
            let _ = self.note(alloc, name, public);
        }
    }

    /// A board equal to this one: the one that came last, where it is the same.
    fn shared_board(&mut self, board: &Rc<Board>) -> Result<Rc<Board>, AllocError>
        ensures same { self.new ≡ self.old }
        ensures board { IfOk result (λ b. b.value ≡ board.now.value) }
    {
        if let Some(latest) = &self.latest {
            if are_surely_same(latest, board) {
                return latest.clone();
            }
        }
        self.latest = Some(board.clone()?);
        board.clone()
    }

    /// A copy of a public part, under this name, which shares its board where it can.
    fn copy_sharing(
        &mut self,
        alloc: Global,
        name: &str,
        public: &Public,
    ) -> Result<Public, AllocError>
        ensures same { self.new ≡ self.old }
        ensures copy { IfOk result
            (λ p. rows.public p ≡ record (rows.public public.now) { game = name.now }) }
    {
        let board = self.shared_board(&public.board)?;
        Ok(Public {
            board,
            ..public.copy_under(alloc, name)?
        })
    }

    /// Remembers a copy of a public part, under this name.
    fn note_copy(&mut self, alloc: Global, name: &str, public: &Public) -> Result<(), AllocError>
        ensures { (s : State) → Recalls s self.old
            → public_at name.now s ≡ Some (record (rows.public public.now) { game = name.now })
            → Recalls s self.new }
    {
        let copy = self.copy_sharing(alloc, name, public)?;
        let part = Rc::new(alloc, copy)?;
        self.note(alloc, name, &part)
    }

    /// Forgets the public part of a game, and gives how many papers it has, where it was remembered.
    fn forget(&mut self, name: &str) -> Option<u32>
        ensures was { result ≡ option_map (λ p. p.papers) (part_of name.now self.old) }
        ensures left { (other : List ℕ) → part_of other self.new
            ≡ (if bytes_eq name.now other then None else part_of other self.old) }
    {
        let part = self.parts.swap_remove(name)?;
        Some(part.papers)
    }

    /// Before a change: forgets the part that it replaces, whether it will be made or not, and gives how many papers that has, where it
    /// was remembered.
    pub fn forget_replaced(&mut self, change: &Change) -> Option<u32>
        ensures was { result ≡ replaced_papers (desk_rows.change change.now) self.old }
        ensures left { (name : List ℕ) → part_of name self.new
            ≡ (if gives_part (desk_rows.change change.now) name then None
            else part_of name self.old) }
    {
        if is_new_part(&change.effect) {
            return self.forget(change.game.as_str());
        }
        None
    }

    /// Remembers, after a change that is made, the public part that came with it: of a game that it opens, and with a paper where
    /// its game is known to be there. Where memory is wanting for it, it isn't remembered, and that is no fault.
    pub fn note_after(&mut self, alloc: Global, change: &Change, is_there: bool)
        ensures { (s : State) → Recalls (state_after (desk_rows.change change.now) s) self.old
            → DifferByName (state_after (desk_rows.change change.now) s).games
            → (is_there ≡ true → IsThere (desk_rows.change change.now).game s)
            → Recalls (state_after (desk_rows.change change.now) s) self.new }
    {
        match &change.effect {
            Effect::Opens { public, .. } => {
                let _ = self.note_copy(alloc, public.game.as_str(), public);
            }
            Effect::Publishes { public, .. } => {
                if is_there {
                    let _ = self.note_copy(alloc, change.game.as_str(), public);
                }
            }
            Effect::Nothing
            | Effect::Pending(_)
            | Effect::Votes(_)
            | Effect::Delivers { .. }
            | Effect::Seats(_) => {}
        }
    }
}
