//! What a keeper remembers of seats: their own parts, as it has looked at them.
ghost use Rattle.std.specs.Prelude.{◌≡◌, ◌∷◌, ◌++◌, [], ℕ, List, OnErr, OnOk, Some, bytes_eq, filter, if◌then◌else◌, map as each, nat_le, option_map, true};
ghost use Rattle.std.specs.List.{AllByRecursion};
ghost use Rattle.dip_desk_state.specs.ChangeRows as desk_rows;
ghost use Rattle.dip_desk_state.specs.Rows as rows;
ghost use Rattle.dip_desk_state.specs.State.{State, is_seat, own_at, own_effect, state_after};
ghost use Rattle.dip_store_memory.specs.Owns.{AreShort, HasOwn, MayForget, RecallsOwns, leaves_owns_known, is_short, many_owns, most_owns, own_among, own_after, owns_of, owns_with_room, papered};

use dip_desk_state::{Author, Change, Effect, Own, copy_standings};
use dip_map::Power;
use indexmap::IndexMap;
use std::alloc::{AllocError, Global};
use std::marker::Model;

/// The most own parts that are remembered.
const MOST_OWNS: usize = 1024;

/// The most bytes of a kept reply with which its own part is remembered.
const MOST_REPLY: usize = 4096;

/// Own parts of seats, each under its game's name: at most `MOST_OWNS`. Where one more comes, all others are forgotten. None has a
/// kept reply of more than `MOST_REPLY` bytes.
#[derive(Drop)]
pub struct SeenOwns {
    games: IndexMap<String, Vec<Own>>,
}

impl Model for SeenOwns {
    ghost use Rattle.std.specs.Prelude.{map, string_bytes};
    ghost use Rattle.dip_desk_state.specs.Rows as rows;
    ghost use Rattle.dip_store_memory.specs.Owns.{Owns};

    ghost Value = { Owns };

    ghost view = { λ s. map (λ e. (string_bytes e.0, map (λ o. rows.own o) e.1.items)) s.games.entries };
}

/// Whether an effect changes no own part but its author's, or is a paper.
fn leaves_owns_known(effect: &Effect) -> bool
    ensures { result ≡ leaves_owns_known (desk_rows.effect effect.now) }
{
    match effect {
        Effect::Nothing | Effect::Pending(_) | Effect::Votes(_) | Effect::Publishes { .. } => true,
        Effect::Delivers { .. } | Effect::Opens { .. } | Effect::Seats(_) => false,
    }
}

/// Whether a change is the letter of the seat of that power.
fn is_author(author: Author, power: Power) -> bool
    ensures { result ≡ is_seat (desk_rows.author author) power }
{
    match author {
        Author::Seat(seat) => seat == power,
        Author::Nobody | Author::TheMaster => false,
    }
}

/// Whether what an own part keeps of a letter is short enough to be remembered.
fn has_short_reply(own: &Own) -> bool
    ensures { result ≡ is_short (rows.own own.now).kept }
{
    match &own.kept {
        None => true,
        Some(kept) => kept.reply.len() <= MOST_REPLY,
    }
}

/// Those that are short enough to be remembered.
fn short_owns(mut owns: Vec<Own>) -> Vec<Own>
    ensures { each (λ o. rows.own o) result.items
        ≡ filter (λ o. is_short o.kept) (each (λ o. rows.own o) owns.items) }
{
    owns.retain(|own| has_short_reply(own));
    owns
}

/// The own part of that power.
pub fn own_in(owns: &[Own], power: Power) -> Option<&Own>
    ensures { option_map (λ o. rows.own o.now) result
        ≡ own_among power (each (λ o. rows.own o) owns.entry.now) }
{
    for own in owns {
        if own.power == power {
            return Some(own);
        }
    }
    None
}

/// Puts an own part after others, with no more room than it takes: most games have one that is remembered.
fn push_exact(owns: &mut Vec<Own>, own: Own) -> Result<(), AllocError>
    ensures { OnOk result (owns.new.items ≡ owns.old.items ++ own ∷ []) }
{
    owns.reserve_exact(1)?;
    owns.push(own)?;
    Ok(())
}

/// What a letter of its own makes of an own part.
fn take_letter(alloc: Global, change: &Change, own: &mut Own) -> Result<(), AllocError>
    requires { leaves_owns_known (desk_rows.effect change.now.effect) ≡ true }
    ensures { OnOk result (rows.own own.new ≡ own_effect (desk_rows.effect change.now.effect)
        (record (rows.own own.old) { kept = Some (rows.kept change.now.kept) })) }
{
    own.kept = Some(change.kept.copy()?);
    match &change.effect {
        Effect::Pending(orders) => own.pending = copy_standings(alloc, orders.as_slice())?,
        Effect::Votes(vote) => own.vote = vote.copy(alloc)?,
        Effect::Nothing
        | Effect::Delivers { .. }
        | Effect::Opens { .. }
        | Effect::Publishes { .. }
        | Effect::Seats(_) => {}
    }
    Ok(())
}

/// What a paper makes of an own part of its game: where a phase was played, no order stands any more.
fn take_paper(alloc: Global, effect: &Effect, own: &mut Own)
    ensures { rows.own own.new ≡ papered (desk_rows.effect effect.now) (rows.own own.old) }
{
    match effect {
        Effect::Publishes { played, .. } => {
            if *played {
                own.pending = Vec::new(alloc);
            }
        }
        Effect::Nothing
        | Effect::Pending(_)
        | Effect::Votes(_)
        | Effect::Delivers { .. }
        | Effect::Opens { .. }
        | Effect::Seats(_) => {}
    }
}

/// What a letter makes of an own part of its game, whose author is of this seat or of another.
fn reach_own(alloc: Global, change: &Change, own: &mut Own) -> Result<(), AllocError>
    requires { leaves_owns_known (desk_rows.effect change.now.effect) ≡ true }
    ensures { OnOk result
        (rows.own own.new ≡ own_after (desk_rows.change change.now) (rows.own own.old)) }
{
    if is_author(change.author, own.power) {
        take_letter(alloc, change, own)?;
    }
    take_paper(alloc, &change.effect, own);
    Ok(())
}

/// What a letter makes of own parts of its game.
fn reach_owns(alloc: Global, change: &Change, owns: &mut Vec<Own>) -> Result<(), AllocError>
    requires { leaves_owns_known (desk_rows.effect change.now.effect) ≡ true }
    ensures { OnOk result (each (λ o. rows.own o) owns.new.items
        ≡ each (own_after (desk_rows.change change.now)) (each (λ o. rows.own o) owns.old.items)) }
{
    for own in owns.iter_mut() {
        reach_own(alloc, change, own)?;
    }
    Ok(())
}

impl SeenOwns {
    /// Remembers no seat.
    pub fn new(alloc: Global) -> SeenOwns
        ensures { result ≡ [] }
    {
        SeenOwns {
            games: IndexMap::new(alloc),
        }
    }

    /// What is remembered of the seat of that power in the game of that name.
    pub fn find(&self, game: &str, power: Power) -> Option<&Own>
        ensures { option_map (λ o. rows.own o.now) result
            ≡ own_among power (owns_of game.now self.now) }
    {
        let owns = self.games.get(game)?;
        own_in(owns.as_slice(), power)
    }

    /// Whether no more may be remembered.
    fn is_full(&self) -> bool
        ensures { result ≡ nat_le most_owns (many_owns self.now) }
    {
        let mut many = 0;
        for owns in self.games.values() {
            many += owns.len();
            if many >= MOST_OWNS {
                return true;
            }
        }
        false
    }

    /// Forgets all own parts where there is no room for one more.
    fn make_room(&mut self)
        ensures { self.new ≡ owns_with_room self.old }
    {
        if self.is_full() {
            self.games.clear();
        }
    }

    /// Takes out what is remembered of a game's seats.
    pub fn take(&mut self, alloc: Global, game: &str) -> Vec<Own>
        ensures taken { each (λ o. rows.own o) result.items ≡ owns_of game.now self.old }
        ensures left { (other : List ℕ) → owns_of other self.new
            ≡ (if bytes_eq game.now other then [] else owns_of other self.old) }
    {
        let Some(owns) = self.games.swap_remove(game) else {
            return Vec::new(alloc);
        };
        owns
    }

    /// Puts own parts of a game's seats in place of what is remembered of them.
    fn put(&mut self, alloc: Global, game: &str, owns: Vec<Own>) -> Result<(), AllocError>
        ensures ok { OnOk result ((other : List ℕ) → owns_of other self.new
            ≡ (if bytes_eq game.now other then each (λ o. rows.own o) owns.items
            else owns_of other self.old)) }
        ensures err { OnErr result (self.new ≡ self.old) }
    {
        let key = String::from_str(alloc, game)?;
        self.games.insert(key, owns)?;
        Ok(())
    }

    /// Remembers a copy of an own part.
    fn note(&mut self, alloc: Global, game: &str, own: &Own) -> Result<(), AllocError>
        ensures ok { OnOk result ((other : List ℕ) → owns_of other self.new
            ≡ (if bytes_eq game.now other
            then owns_of other (owns_with_room self.old) ++ rows.own own.now ∷ []
            else owns_of other (owns_with_room self.old))) }
        ensures err { OnErr result (MayForget self.old self.new) }
    {
        let copy = own.copy(alloc)?;
        self.make_room();
        let mut owns = self.take(alloc, game);
        push_exact(&mut owns, copy)?;
        self.put(alloc, game, owns)
    }

    /// Remembers what a look found of a seat. Where memory is wanting for it, or where its kept reply is too long, it isn't
    /// remembered, and that is no fault.
    pub fn learn(&mut self, alloc: Global, game: &str, found: &Option<Own>)
        ensures recalls { (s : State) (power : ℕ) → RecallsOwns s self.old
            → option_map rows.own found.now ≡ own_at game.now power s → RecallsOwns s self.new }
        ensures short { AreShort self.old → AreShort self.new }
    {
        let Some(own) = found else {
            return;
        };
        if has_short_reply(own) {
            let _ = self.note(alloc, game, own);
        }
    }

    /// Remembers what a letter makes of own parts of its game.
    fn put_after(
        &mut self,
        alloc: Global,
        change: &Change,
        mut owns: Vec<Own>,
    ) -> Result<(), AllocError>
        requires { leaves_owns_known (desk_rows.effect change.now.effect) ≡ true }
        ensures recalls { (s : State)
            → RecallsOwns (state_after (desk_rows.change change.now) s) self.old
            → AllByRecursion (HasOwn s (desk_rows.change change.now).game)
            (each (λ o. rows.own o) owns.items)
            → RecallsOwns (state_after (desk_rows.change change.now) s) self.new }
        ensures short { AreShort self.old → AreShort self.new }
    {
        reach_owns(alloc, change, &mut owns)?;
        let short = short_owns(owns);
        if short.is_empty() {
            return Ok(());
        }
        self.put(alloc, change.game.as_str(), short)
    }

    /// Remembers again, after a change that is made, what it leaves of the own parts of its game that were taken out before it:
    /// none, where it is press, or changes a secret. Where memory is wanting for them they aren't remembered, and that is no fault.
    pub fn keep(&mut self, alloc: Global, change: &Change, owns: Vec<Own>)
        ensures recalls { (s : State)
            → RecallsOwns (state_after (desk_rows.change change.now) s) self.old
            → AllByRecursion (HasOwn s (desk_rows.change change.now).game)
            (each (λ o. rows.own o) owns.items)
            → RecallsOwns (state_after (desk_rows.change change.now) s) self.new }
        ensures short { AreShort self.old → AreShort self.new }
    {
        if leaves_owns_known(&change.effect) {
            let _ = self.put_after(alloc, change, owns);
        }
    }
}
