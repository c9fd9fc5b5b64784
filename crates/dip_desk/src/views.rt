//! What can be asked of a keeper for a letter: first whether its secret is its seat's; then for a seat's its own part, its inbox and the
//! public part of its game, and for the master's what it comes to by what its command needs.
ghost use Rattle.std.specs.Prelude.{◌≡◌, ◌<◌, Some, bytes_eq, is_some, length, option_map};
ghost use Rattle.dip_desk_keeper.specs.Keeping.{Looks};
ghost use Rattle.dip_desk.specs.Looked.{DecidesBy, IsOpened, is_of_master, is_of_seat, master_seen};
ghost use Rattle.dip_letters.specs.Views.{request};
ghost use Rattle.dip_desk_machine.specs.Machine.{DecidedBy, IsTimely, digest, has_seat, page_shown};
ghost use Rattle.dip_desk_machine.specs.Mail.{mail};
ghost use Rattle.dip_desk_machine.specs.Verdicts.{verdict};
ghost use Rattle.dip_desk_state.specs.ChangeRows as desk_rows;
ghost use Rattle.dip_desk_state.specs.Rows as rows;
ghost use Rattle.dip_desk_state.specs.State.{Part, game_at, own_at, part_at, public_at};

use dip_desk_keeper::Keeper;
use dip_desk_machine::{
    Verdict, decide_create, decide_notice, decide_power_command, decide_replace, decide_tick,
    digest_of,
};
use dip_desk_state::{Desk, Item, KeepFault, Kept, Own, Public};
use dip_letters::{Command, Letter, MasterCommand, PlayerCommand};
use dip_map::Map;
use dip_names::Power;
use std::alloc::Global;
use std::rc::Rc;

/// A keeper as a letter of a seat may ask it: what decides the letter can read the digest of that seat's secret, and where the letter's
/// secret has it, the seat's own part, ten items of its inbox and its game's public part; and nothing of another seat.
#[derive(Drop)]
pub(crate) struct SeatView<'k, 'm, 'n, 'l, K> {
    keeper: &'k mut K,
    map: &'m Map,
    letter: &'n Letter<'l>,
    power: Power,
}

impl<'k, 'm, 'n, 'l, K: Keeper> SeatView<'k, 'm, 'n, 'l, K> {
    pub(crate) fn new(
        keeper: &'k mut K,
        map: &'m Map,
        letter: &'n Letter<'l>,
        power: Power,
    ) -> SeatView<'k, 'm, 'n, 'l, K>
        ensures same_reference { result.keeper.ghost_name ≡ keeper.entry.ghost_name }
        ensures keeper { result.keeper.now ≡ keeper.old }
        ensures map { result.map.now ≡ map.now }
        ensures letter { result.letter.now ≡ letter.now }
        ensures power { result.power ≡ power }
    {
        SeatView {
            keeper,
            map,
            letter,
            power,
        }
    }

    /// Whether the letter's secret is that of its seat. Of all that is kept the digest of that secret alone is read.
    pub(crate) fn is_of_seat(&mut self) -> Result<bool, KeepFault>
        requires { self.old.power < length self.old.map.now.realms }
        ensures same_reference { self.new.keeper.ghost_name ≡ self.old.keeper.ghost_name }
        ensures map { self.new.map.now ≡ self.old.map.now }
        ensures letter { self.new.letter.now ≡ self.old.letter.now }
        ensures power { self.new.power ≡ self.old.power }
        ensures looks { Looks self.old.map.now K.book self.old.keeper.now self.new.keeper.now
            (λ b. b ≡ is_of_seat (mail self.old.letter.now) self.old.power
            (K.book.content self.old.map.now self.old.keeper.now)) ⊥ result }
    {
        let game = self.letter.game;
        match self.keeper.digest(self.map, game, self.power)? {
            None => Ok(false),
            Some(digest) => Ok(opens(self.letter, game, self.letter.sender, &digest)),
        }
    }

    /// The seat's own part, all but the items of its inbox; `None` where there is no such seat.
    pub(crate) fn own(&mut self) -> Result<Option<Own>, KeepFault>
        requires power { self.old.power < length self.old.map.now.realms }
        requires opened { IsOpened self.old.map.now K.book
            (is_of_seat (mail self.old.letter.now) self.old.power) self.old.keeper.now }
        ensures same_reference { self.new.keeper.ghost_name ≡ self.old.keeper.ghost_name }
        ensures map { self.new.map.now ≡ self.old.map.now }
        ensures letter { self.new.letter.now ≡ self.old.letter.now }
        ensures power { self.new.power ≡ self.old.power }
        ensures looks { Looks self.old.map.now K.book self.old.keeper.now self.new.keeper.now
            (λ o. option_map rows.own o ≡ own_at self.old.letter.now.game.now self.old.power
            (K.book.content self.old.map.now self.old.keeper.now)) ⊥ result }
    {
        self.keeper.own(self.map, self.letter.game, self.power)
    }

    /// The items of the seat's inbox that the letter's command shows: INBOX at most ten, from a number on, and no other any.
    pub(crate) fn page(&mut self, alloc: Global) -> Result<Vec<Rc<Item>>, KeepFault>
        requires power { self.old.power < length self.old.map.now.realms }
        requires opened { IsOpened self.old.map.now K.book
            (is_of_seat (mail self.old.letter.now) self.old.power) self.old.keeper.now }
        ensures same_reference { self.new.keeper.ghost_name ≡ self.old.keeper.ghost_name }
        ensures map { self.new.map.now ≡ self.old.map.now }
        ensures letter { self.new.letter.now ≡ self.old.letter.now }
        ensures power { self.new.power ≡ self.old.power }
        ensures looks { Looks self.old.map.now K.book self.old.keeper.now self.new.keeper.now
            (λ v. (s : Part) → part_at self.old.letter.now.game.now self.old.power
            (K.book.content self.old.map.now self.old.keeper.now) ≡ Some s
            → rows.items v.items ≡ page_shown (request self.old.letter.now.command) s.box) ⊥
            result }
    {
        let Command::Player(PlayerCommand::Inbox(first)) = &self.letter.command else {
            return Ok(Vec::new(alloc));
        };
        let game = self.letter.game;
        match self.keeper.items(self.map, game, self.power, *first, 10)? {
            None => Ok(Vec::new(alloc)),
            Some(items) => Ok(items),
        }
    }

    /// The public part of the seat's game; `None` where there is no such game.
    pub(crate) fn public(&mut self) -> Result<Option<Rc<Public>>, KeepFault>
        requires opened { IsOpened self.old.map.now K.book
            (is_of_seat (mail self.old.letter.now) self.old.power) self.old.keeper.now }
        ensures same_reference { self.new.keeper.ghost_name ≡ self.old.keeper.ghost_name }
        ensures map { self.new.map.now ≡ self.old.map.now }
        ensures letter { self.new.letter.now ≡ self.old.letter.now }
        ensures power { self.new.power ≡ self.old.power }
        ensures looks { Looks self.old.map.now K.book self.old.keeper.now self.new.keeper.now
            (λ p. option_map (λ r. rows.public r.value) p
            ≡ public_at self.old.letter.now.game.now
            (K.book.content self.old.map.now self.old.keeper.now)) ⊥ result }
    {
        self.keeper.public(self.map, self.letter.game)
    }
}

/// Whether the letter's secret has this digest.
pub(crate) fn opens(letter: &Letter<'_>, game: &str, sender: &str, kept: &[u8; 32]) -> bool
    ensures { result ≡ bytes_eq (digest game.now sender.now letter.now.secret.now) kept.now }
{
    let told = digest_of(game, sender, letter.secret);
    told.as_slice() == kept.as_slice()
}

/// A keeper of which nothing can be asked but the master's row, and what a letter of the master comes to.
#[derive(Drop)]
pub(crate) struct MasterView<'k, K> {
    keeper: &'k mut K,
    map: &'k Map,
}

/// Whether there is a game of that name, which is all that some commands need of it.
fn look_for_game<K: Keeper>(keeper: &mut K, map: &Map, game: &str) -> Result<bool, KeepFault>
    ensures { Looks map.now K.book keeper.old keeper.new
        (λ b. b ≡ is_some (game_at game.now (K.book.content map.now keeper.old))) ⊥ result }
{
    Ok(keeper.public(map, game)?.is_some())
}

/// Whether the power of that name has a seat in the game; `None` where there is no such game.
fn look_for_seat<K: Keeper>(
    keeper: &mut K,
    map: &Map,
    game: &str,
    name: &str,
) -> Result<Option<bool>, KeepFault>
    ensures { Looks map.now K.book keeper.old keeper.new
        (λ x. x ≡ option_map (has_seat map.now name.now)
        (game_at game.now (K.book.content map.now keeper.old))) ⊥ result }
{
    if !look_for_game(keeper, map, game)? {
        return Ok(None);
    }
    match map.power(name) {
        None => Ok(Some(false)),
        Some(power) => Ok(Some(keeper.own(map, game, power)?.is_some())),
    }
}

/// What a letter of the master comes to: its command is handed what it needs of the game, and nothing else is asked for.
fn decide_as_needed<K: Keeper>(
    alloc: Global,
    keeper: &mut K,
    map: &Map,
    letter: &Letter<'_>,
    kept: &Option<Kept>,
) -> Result<Verdict, KeepFault>
    requires { IsTimely (request letter.now.command) }
    ensures { DecidesBy map.now K.book keeper.old keeper.new (mail letter.now)
        (master_seen map.now (mail letter.now) (option_map rows.kept kept.now)
        (K.book.content map.now keeper.old))
        (λ sight v. DecidedBy map.now (mail letter.now) sight (verdict v)) result }
{
    match &letter.command {
        Command::Player(_) => {
            let is_there = look_for_game(keeper, map, letter.game)?;
            Ok(decide_power_command(alloc, letter, kept, is_there)?)
        }
        Command::Master(MasterCommand::Create(opening)) => {
            let is_there = look_for_game(keeper, map, letter.game)?;
            Ok(decide_create(alloc, map, letter, kept, opening, is_there)?)
        }
        Command::Master(MasterCommand::Tick(tick)) => {
            let whole = keeper.whole(map, letter.game)?;
            decide_tick(alloc, map, letter, kept, *tick, whole)
        }
        Command::Master(MasterCommand::Replace(seat)) => {
            let is_seated = look_for_seat(keeper, map, letter.game, seat.power)?;
            Ok(decide_replace(alloc, map, letter, kept, seat, is_seated)?)
        }
        Command::Master(MasterCommand::Notify(notice)) => {
            let public = keeper.public(map, letter.game)?;
            decide_notice(alloc, map, letter, kept, notice, public)
        }
    }
}

impl<'k, K: Keeper> MasterView<'k, K> {
    pub(crate) fn new(keeper: &'k mut K, map: &'k Map) -> MasterView<'k, K>
        ensures same_reference { result.keeper.ghost_name ≡ keeper.entry.ghost_name }
        ensures keeper { result.keeper.now ≡ keeper.old }
        ensures map { result.map.now ≡ map.now }
    {
        MasterView { keeper, map }
    }

    /// The master's row.
    pub(crate) fn desk(&mut self) -> Result<Desk, KeepFault>
        ensures same_reference { self.new.keeper.ghost_name ≡ self.old.keeper.ghost_name }
        ensures map { self.new.map.now ≡ self.old.map.now }
        ensures looks { Looks self.old.map.now K.book self.old.keeper.now self.new.keeper.now
            (λ d. desk_rows.desk d
            ≡ (K.book.content self.old.map.now self.old.keeper.now).desk) ⊥ result }
    {
        self.keeper.desk()
    }

    /// What a letter of the master comes to, by what its command needs of its game.
    pub(crate) fn verdict_of(
        &mut self,
        alloc: Global,
        letter: &Letter<'_>,
        kept: &Option<Kept>,
    ) -> Result<Verdict, KeepFault>
        requires timely { IsTimely (request letter.now.command) }
        requires opened { IsOpened self.old.map.now K.book (is_of_master (mail letter.now))
            self.old.keeper.now }
        ensures same_reference { self.new.keeper.ghost_name ≡ self.old.keeper.ghost_name }
        ensures decides { DecidesBy self.old.map.now K.book self.old.keeper.now
            self.new.keeper.now (mail letter.now) (master_seen self.old.map.now (mail letter.now)
            (option_map rows.kept kept.now) (K.book.content self.old.map.now self.old.keeper.now))
            (λ sight v. DecidedBy self.old.map.now (mail letter.now) sight (verdict v)) result }
    {
        decide_as_needed(alloc, self.keeper, self.map, letter, kept)
    }
}
