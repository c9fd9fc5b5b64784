//! What a change makes of the games.
ghost use Rattle.std.specs.Prelude.{◌≡◌, ◌∷◌, [], ◌++◌, ◌==◌, ℕ, List, Some, IfOk, IsErrOf, OnErr, OnOk, bytes_eq, IfSome, map as each, string_bytes, true};
ghost use Rattle.std.specs.List.{AllByRecursion, list_all, list_any};
ghost use Rattle.dip_desk_state.specs.Faults.{faults_after};
ghost use Rattle.dip_desk_memory.specs.Lacking.{LacksPlace};
ghost use Rattle.dip_desk_state.specs.Keyed.{at, change_at, place};
ghost use Rattle.dip_desk_state.specs.State as s;
ghost use Rattle.dip_desk_state.specs.ChangeRows as desk_rows;
ghost use Rattle.dip_desk_state.specs.Rows as rows;
ghost use Rattle.dip_desk_memory.specs.Stored as stored;

use crate::games::{GameRow, Games, SeatRow};
use crate::opening::add_game;
use dip_desk_state::{
    Author, Change, Effect, Item, KeepFault, Kept, MOST_ITEMS, MOST_PAPERS, MOST_SENT, Own, Public,
    Standing, Vote, copy_standings,
};
use dip_names::Power;
use std::alloc::{AllocError, Global};
use std::rc::Rc;

/// What an effect gives its author to keep. It is copied before anything is changed, since a copy wants memory.
#[derive(Drop)]
pub(crate) enum Given {
    Nothing,
    Pending(Vec<Standing>),
    Vote(Vote),
}

/// Where the power's seat stands in this list; its length, where the power has none.
fn seat_place(seats: &[SeatRow], power: Power) -> usize
    ensures { result ≡ place (λ a b. a == b) s.power_in power (stored.parts seats.now) }
{
    for (number, seat) in seats.iter().enumerate() {
        if seat.own.power == power {
            return number;
        }
    }
    seats.len()
}

/// What a letter of its own changes in a seat.
fn record_own(seat: &mut SeatRow, kept: Kept, effect: &Effect, given: Given)
    requires given { stored.given given ≡ stored.given_in (desk_rows.effect effect.now) }
    requires room { stored.MaySend (desk_rows.effect effect.now) (stored.part seat.old) }
    ensures { stored.part seat.new ≡ s.with_letter (rows.kept kept)
        (desk_rows.effect effect.now) (stored.part seat.old) }
{
    seat.own.kept = Some(kept);
    match given {
        Given::Pending(orders) => seat.own.pending = orders,
        Given::Vote(vote) => seat.own.vote = vote,
        Given::Nothing => {
            if let Effect::Delivers { .. } = effect {
                seat.own.sent += 1;
            }
        }
    }
}

fn record_seat(seats: &mut Vec<SeatRow>, power: Power, kept: Kept, effect: &Effect, given: Given)
    requires given { stored.given given ≡ stored.given_in (desk_rows.effect effect.now) }
    requires room { AllByRecursion
        (stored.AuthorMaySend (s.Seat power) (desk_rows.effect effect.now))
        (stored.parts seats.old.items) }
    ensures { stored.parts seats.new.items ≡ change_at (λ a b. a == b) s.power_in power
        (s.with_letter (rows.kept kept) (desk_rows.effect effect.now))
        (stored.parts seats.old.items) }
{
    let place = seat_place(seats.as_slice(), power);
    if place < seats.len() {
        record_own(&mut seats[place], kept, effect, given);
    }
}

/// What a letter changes in the seat of its author.
fn record_author(
    seats: &mut Vec<SeatRow>,
    author: Author,
    kept: Kept,
    effect: &Effect,
    given: Given,
)
    requires given { stored.given given ≡ stored.given_in (desk_rows.effect effect.now) }
    requires room { AllByRecursion
        (stored.AuthorMaySend (desk_rows.author author) (desk_rows.effect effect.now))
        (stored.parts seats.old.items) }
    ensures { stored.parts seats.new.items ≡ s.with_author (desk_rows.author author)
        (rows.kept kept) (desk_rows.effect effect.now) (stored.parts seats.old.items) }
{
    match author {
        Author::Seat(power) => record_seat(seats, power, kept, effect, given),
        Author::Nobody | Author::TheMaster => {}
    }
}

/// Whether the power is among the readers.
fn reads(readers: &[Power], power: Power) -> bool
    ensures { result ≡ list_any (λ p. p == power) readers.now }
{
    readers.iter().any(|reader| *reader == power)
}

/// What an effect changes in each seat of its game. Press has come into the inboxes before.
fn reach_own(seat: &mut SeatRow, effect: &Effect)
    ensures { stored.part seat.new ≡ stored.reached (desk_rows.effect effect.now)
        (stored.part seat.old) }
{
    match effect {
        Effect::Publishes { played, .. } => {
            if *played {
                seat.own.pending.clear();
            }
        }
        Effect::Seats(new) => {
            if new.power == seat.own.power {
                seat.own.digest = new.digest;
            }
        }
        Effect::Nothing
        | Effect::Pending(_)
        | Effect::Votes(_)
        | Effect::Delivers { .. }
        | Effect::Opens { .. } => {}
    }
}

fn reach_seats(seats: &mut Vec<SeatRow>, effect: &Effect)
    ensures { stored.parts seats.new.items ≡ each (stored.reached (desk_rows.effect effect.now))
        (stored.parts seats.old.items) }
{
    for seat in seats.iter_mut() {
        reach_own(seat, effect);
    }
}

/// Whether a seat may send one letter of press more, where it is the author.
fn may_send(author: &Author, own: &Own) -> bool
    ensures { result ≡ s.may_send (desk_rows.author author.now) (rows.own own.now) }
{
    match author {
        Author::Seat(power) => *power != own.power || own.sent < MOST_SENT,
        Author::Nobody | Author::TheMaster => true,
    }
}

/// Whether a seat's inbox may get one item more, where it is a reader.
fn may_get(readers: &[Power], own: &Own) -> bool
    ensures { result ≡ s.may_get readers.now (rows.own own.now) }
{
    !reads(readers, own.power) || own.items < MOST_ITEMS
}

/// Whether a seat's counts have room for a letter of press.
fn has_room(author: &Author, readers: &[Power], own: &Own) -> bool
    ensures { result ≡ s.has_room (desk_rows.author author.now) readers.now (rows.own own.now) }
{
    may_send(author, own) && may_get(readers, own)
}

/// Whether the counts of all seats have.
fn have_room(author: &Author, readers: &[Power], seats: &[SeatRow]) -> bool
    ensures { result ≡ s.have_room (desk_rows.author author.now) readers.now
        (stored.parts seats.now) }
{
    for seat in seats {
        if !has_room(author, readers, &seat.own) {
            return false;
        }
    }
    true
}

/// Whether the counts that the effect raises have room for it.
fn finds_room(author: &Author, effect: &Effect, seats: &[SeatRow]) -> bool
    ensures { result ≡ stored.finds_room (desk_rows.author author.now)
        (desk_rows.effect effect.now) (stored.parts seats.now) }
{
    match effect {
        Effect::Delivers { readers, .. } => have_room(author, readers.as_slice(), seats),
        Effect::Publishes { public, .. } => public.papers <= MOST_PAPERS,
        Effect::Nothing
        | Effect::Pending(_)
        | Effect::Votes(_)
        | Effect::Opens { .. }
        | Effect::Seats(_) => true,
    }
}

/// Press stands after what was in the inboxes of its readers, who share it. Before the first
/// inbox changes, each has room for it and a share of it: a seat takes its own after the rest.
fn deliver(seats: &mut [SeatRow], readers: &[Power], item: &Rc<Item>) -> Result<(), AllocError>
    requires { list_all (λ p. s.may_get readers.now p.own) (stored.parts seats.old) ≡ true }
    ensures ok { OnOk result (stored.parts seats.new ≡ each (s.with_effect
        (s.Delivers readers.now (rows.item item.now.value))) (stored.parts seats.old)) }
    ensures err { OnErr result (stored.parts seats.new ≡ stored.parts seats.old) }
{
    let Some((seat, rest)) = seats.split_first_mut() else {
        return Ok(());
    };
    if !reads(readers, seat.own.power) {
        return deliver(rest, readers, item);
    }
    seat.inbox.reserve(1)?;
    let share = item.clone()?;
    deliver(rest, readers, item)?;
    seat.inbox.push_reserved(share);
    seat.own.items += 1;
    Ok(())
}

/// A paper stands after the papers that were there, and the public part is the one after it.
fn put_page(
    alloc: Global,
    game: &mut GameRow,
    public: &Public,
    paper: &String,
) -> Result<(), AllocError>
    ensures public { OnOk result ((key : List ℕ) → (stored.game key game.new).public ≡ record
        (rows.public public.now) { game = key }) }
    ensures papers { OnOk result (rows.lines game.new.papers.items ≡ rows.lines
        game.old.papers.items ++ string_bytes paper.now ∷ []) }
    ensures seats { game.new.seats ≡ game.old.seats }
    ensures name { stored.name_in game.new ≡ stored.name_in game.old }
    ensures err { OnErr result ((key : List ℕ) → stored.game key game.new ≡ stored.game key
        game.old) }
{
    let next = Rc::new(alloc, public.copy_under(alloc, game.public.game.as_str())?)?;
    game.papers.push(paper.clone()?)?;
    game.public = next;
    Ok(())
}

/// What an effect brings into a game that is there: press or a paper. It alone wants memory.
fn put_content(alloc: Global, game: &mut GameRow, effect: &Effect) -> Result<(), AllocError>
    requires { stored.inboxes_have_room (desk_rows.effect effect.now)
        (stored.parts game.old.seats.items) ≡ true }
    ensures ok { OnOk result
        (stored.Brings (desk_rows.effect effect.now) game.old game.new) }
    ensures name { stored.name_in game.new ≡ stored.name_in game.old }
    ensures err { OnErr result ((key : List ℕ) → stored.game key game.new ≡ stored.game key
        game.old) }
{
    match effect {
        Effect::Delivers { readers, item } => {
            deliver(game.seats.as_mut_slice(), readers.as_slice(), item)
        }
        Effect::Publishes { public, paper, .. } => put_page(alloc, game, public, paper),
        Effect::Nothing
        | Effect::Pending(_)
        | Effect::Votes(_)
        | Effect::Opens { .. }
        | Effect::Seats(_) => Ok(()),
    }
}

/// A copy of what an effect gives its author to keep.
fn given_in(alloc: Global, effect: &Effect) -> Result<Given, AllocError>
    ensures { IfOk result
        (λ given. stored.given given ≡ stored.given_in (desk_rows.effect effect.now)) }
{
    match effect {
        Effect::Pending(orders) => { Ok(Given::Pending(copy_standings(alloc, orders.as_slice())?)) }
        Effect::Votes(vote) => Ok(Given::Vote(vote.copy(alloc)?)),
        Effect::Nothing
        | Effect::Delivers { .. }
        | Effect::Opens { .. }
        | Effect::Publishes { .. }
        | Effect::Seats(_) => Ok(Given::Nothing),
    }
}

/// What a change makes of the game that it names. What wants memory comes before the first change.
fn record_row(alloc: Global, game: &mut GameRow, change: &Change) -> Result<(), AllocError>
    requires { stored.finds_room (desk_rows.author change.now.author)
        (desk_rows.effect change.now.effect) (stored.parts game.old.seats.items) ≡ true }
    ensures ok { OnOk result ((key : List ℕ) → stored.game key game.new ≡ s.game_after
        (desk_rows.change change.now) (stored.game key game.old)) }
    ensures name { stored.name_in game.new ≡ stored.name_in game.old }
    ensures err { OnErr result ((key : List ℕ) → stored.game key game.new ≡ stored.game key
        game.old) }
{
    let kept = change.kept.copy()?;
    let given = given_in(alloc, &change.effect)?;
    put_content(alloc, game, &change.effect)?;
    record_author(&mut game.seats, change.author, kept, &change.effect, given);
    reach_seats(&mut game.seats, &change.effect);
    Ok(())
}

/// Makes the change in the game that it names, after a look whether each count that it raises has
/// room. Where one has none, the fault is `Damaged` and the game stays as it was.
fn record_fitting(alloc: Global, game: &mut GameRow, change: &Change) -> Result<(), KeepFault>
    ensures ok { OnOk result ((key : List ℕ) → stored.game key game.new ≡ s.game_after
        (desk_rows.change change.now) (stored.game key game.old)) }
    ensures name { stored.name_in game.new ≡ stored.name_in game.old }
    ensures err { OnErr result ((key : List ℕ) → stored.game key game.new ≡ stored.game key
        game.old) }
    ensures room { OnOk result (stored.finds_room (desk_rows.author change.now.author)
        (desk_rows.effect change.now.effect) (stored.parts game.old.seats.items) ≡ true) }
    ensures damaged { IsErrOf result KeepFault.Damaged → (key : List ℕ)
        → LacksPlace (string_bytes change.now.game) (desk_rows.author change.now.author)
        (desk_rows.effect change.now.effect) (Some (stored.game key game.old)) }
    ensures disk { faults_after result 0 ≡ 0 }
{
    if !finds_room(&change.author, &change.effect, game.seats.as_slice()) {
        return Err(KeepFault::Damaged);
    }
    record_row(alloc, game, change)?;
    Ok(())
}

/// What a change makes of the game that it names, where there is one.
fn record_game(alloc: Global, games: &mut Games, change: &Change) -> Result<(), KeepFault>
    ensures ok { OnOk result (stored.games games.new.entries ≡ change_at bytes_eq s.name_of
        (string_bytes change.now.game) (s.game_after (desk_rows.change change.now))
        (stored.games games.old.entries)) }
    ensures err { OnErr result
        (stored.games games.new.entries ≡ stored.games games.old.entries) }
    ensures named { stored.are_named games.old.entries ≡ true
        → stored.are_named games.new.entries ≡ true }
    ensures room { OnOk result (IfSome
        (at bytes_eq s.name_of (string_bytes change.now.game) (stored.games games.old.entries))
        (λ g. stored.finds_room (desk_rows.author change.now.author)
        (desk_rows.effect change.now.effect) g.seats ≡ true)) }
    ensures damaged { IsErrOf result KeepFault.Damaged
        → LacksPlace (string_bytes change.now.game) (desk_rows.author change.now.author)
        (desk_rows.effect change.now.effect)
        (at bytes_eq s.name_of (string_bytes change.now.game)
        (stored.games games.old.entries)) }
    ensures disk { faults_after result 0 ≡ 0 }
{
    let Some(place) = games.get_index_of(change.game.as_str()) else {
        return Ok(());
    };
    let game = &mut games[place];
    record_fitting(alloc, game, change)
}

/// What a change does to the games: a new one stands last, where its name is the change's and free.
pub fn record_games(alloc: Global, games: &mut Games, change: &Change) -> Result<(), KeepFault>
    ensures ok { OnOk result (stored.games games.new.entries ≡ stored.games_after
        (desk_rows.change change.now) (stored.games games.old.entries)) }
    ensures err { OnErr result
        (stored.games games.new.entries ≡ stored.games games.old.entries) }
    ensures named { stored.are_named games.old.entries ≡ true
        → stored.are_named games.new.entries ≡ true }
    ensures placed { OnOk result
        (LacksPlace (string_bytes change.now.game) (desk_rows.author change.now.author)
        (desk_rows.effect change.now.effect)
        (at bytes_eq s.name_of (string_bytes change.now.game)
        (stored.games games.old.entries)) → ⊥) }
    ensures damaged { IsErrOf result KeepFault.Damaged
        → LacksPlace (string_bytes change.now.game) (desk_rows.author change.now.author)
        (desk_rows.effect change.now.effect)
        (at bytes_eq s.name_of (string_bytes change.now.game)
        (stored.games games.old.entries)) }
    ensures disk { faults_after result 0 ≡ 0 }
{
    match &change.effect {
        Effect::Opens {
            public,
            paper,
            seats,
        } => {
            if public.game.as_str() != change.game.as_str() || MOST_PAPERS < public.papers {
                return Err(KeepFault::Damaged);
            }
            add_game(alloc, games, public, paper, seats.as_slice())
        }
        Effect::Nothing
        | Effect::Pending(_)
        | Effect::Votes(_)
        | Effect::Delivers { .. }
        | Effect::Publishes { .. }
        | Effect::Seats(_) => record_game(alloc, games, change),
    }
}
