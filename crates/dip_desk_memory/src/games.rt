//! Games as they lie in memory, and what is found in them.
ghost use Rattle.std.specs.Prelude.{◌≡◌, ℕ, IfOk, IfSome, bytes_eq, drop, option_and_then, option_map, string_bytes, take, true};
ghost use Rattle.dip_desk_state.specs.Keyed.{at};
ghost use Rattle.dip_desk_state.specs.State as s;
ghost use Rattle.dip_desk_state.specs.Rows as rows;
ghost use Rattle.dip_desk_memory.specs.Stored as stored;

use crate::copying::{items_shared, owns_copy};
use dip_desk_state::{Item, Own, Public, Whole};
use dip_names::Power;
use indexmap::IndexMap;
use std::alloc::{AllocError, Global};
use std::rc::Rc;

/// A seat as it lies in memory: its own part and its inbox.
#[derive(Drop)]
pub struct SeatRow {
    pub own: Own,
    /// Its items in the order in which they came. Seats that have the same press share it.
    pub inbox: Vec<Rc<Item>>,
}

/// A game as it lies in memory, under its name.
#[derive(Drop)]
pub struct GameRow {
    /// Its public part. Whoever asks for it shares it, and a paper puts another in its place.
    pub public: Rc<Public>,
    pub papers: Vec<String>,
    pub seats: Vec<SeatRow>,
}

/// The games by their names, in the order in which they were opened.
pub type Games = IndexMap<String, GameRow>;

/// The game of that name, with the own parts of its seats.
pub fn whole_of(alloc: Global, name: &str, game: &GameRow) -> Result<Whole, AllocError>
    ensures { IfOk result (λ w. rows.whole w ≡ s.whole_of (stored.game name.now game.now)) }
{
    Ok(Whole {
        public: game.public.copy_under(alloc, name)?,
        seats: owns_copy(alloc, game.seats.as_slice())?,
    })
}

/// The game of that name, if one was opened.
pub fn find_game<'a>(games: &'a Games, name: &str) -> Option<&'a GameRow>
    ensures found { option_map (λ g. stored.game name.now g.now) result
        ≡ at bytes_eq s.name_of name.now (stored.games games.entry.now.entries) }
    ensures named { stored.are_named games.entry.now.entries ≡ true
        → IfSome result (λ g. stored.name_in g.now ≡ name.now) }
{
    games.get(name)
}

/// The first of these seats that the power plays, if it plays one.
fn seat_of(seats: &[SeatRow], power: Power) -> Option<&SeatRow>
    ensures { option_map (λ r. stored.part r.now) result ≡ s.seat_at power
        (stored.parts seats.entry.now) }
{
    for seat in seats {
        if seat.own.power == power {
            return Some(seat);
        }
    }
    None
}

/// The seat of that power in the game of that name.
pub fn find_seat<'a>(games: &'a Games, name: &str, power: Power) -> Option<&'a SeatRow>
    ensures own { option_map (λ r. rows.own r.now.own) result ≡ option_and_then
        (λ g. s.own_of (s.seat_at power g.seats))
        (at bytes_eq s.name_of name.now (stored.games games.entry.now.entries)) }
    ensures page { (first most : ℕ)
        → option_map (λ r. s.page_of first most (rows.items r.now.inbox.items)) result
        ≡ option_and_then (λ g. option_map (λ p. s.page_of first most p.box)
        (s.seat_at power g.seats))
        (at bytes_eq s.name_of name.now (stored.games games.entry.now.entries)) }
{
    let game = find_game(games, name)?;
    seat_of(game.seats.as_slice(), power)
}

/// The items after a place.
fn items_after(items: &[Rc<Item>], place: usize) -> &[Rc<Item>]
    ensures { result.now ≡ drop place items.entry.now }
{
    if items.len() <= place {
        return &items[items.len()..];
    }
    &items[place..]
}

/// The first items, at most so many.
fn first_items(items: &[Rc<Item>], most: usize) -> &[Rc<Item>]
    ensures { result.now ≡ take most items.entry.now }
{
    if items.len() <= most {
        return items;
    }
    &items[..most]
}

/// The items of an inbox from a number on, at most so many. The first has the number 1.
pub fn page_of(
    alloc: Global,
    inbox: &[Rc<Item>],
    first: u32,
    most: u32,
) -> Result<Vec<Rc<Item>>, AllocError>
    ensures { IfOk result
        (λ v. rows.items v.items ≡ s.page_of first most (rows.items inbox.now)) }
{
    let place = first.saturating_sub(1) as usize;
    items_shared(alloc, first_items(items_after(inbox, place), most as usize))
}

/// The paper of that number. The first has the number 1.
fn paper_numbered(papers: &[String], number: u32) -> Option<&String>
    ensures { option_map (λ p. string_bytes p.now) result ≡ s.paper_numbered number
        (rows.lines papers.now) }
{
    if number == 0 {
        return None;
    }
    papers.get(number as usize - 1)
}

/// The paper of that number in the game of that name.
pub fn find_paper<'a>(games: &'a Games, name: &str, number: u32) -> Option<&'a String>
    ensures { option_map (λ p. string_bytes p.now) result ≡ option_and_then
        (λ g. s.paper_numbered number g.papers)
        (at bytes_eq s.name_of name.now (stored.games games.entry.now.entries)) }
{
    let game = find_game(games, name)?;
    paper_numbered(game.papers.as_slice(), number)
}
