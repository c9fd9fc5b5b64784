//! What CREATE comes to.
ghost use Rattle.std.specs.Prelude.{◌≡◌, ◌==◌, Option, IfOk, count_by, is_some, map as each, option_map};
ghost use Rattle.dip_letters.specs.Letters.{is_on};
ghost use Rattle.dip_letters.specs.Views.{seat_note, seats_in};
ghost use Rattle.dip_desk_state.specs.State as s;
ghost use Rattle.dip_desk_machine.specs.MasterCommands as c;
ghost use Rattle.dip_desk_state.specs.Fitting.{are_complete};
ghost use Rattle.dip_desk_state.specs.ChangeRows as desk_rows;
ghost use Rattle.dip_desk_games.specs.Verdicts.{verdict};
ghost use Rattle.dip_desk_state.specs.Rows as rows;

use crate::digests::digest_of;
use dip_desk_games::{Verdict, refusal_verdict};
use dip_desk_state::{Effect, NewSeat, Public, Status};
use dip_letters::{Opening, Seat, Seats};
use dip_map::{Board, Map};
use dip_names::Power;
use dip_reports::{Refusal, opening_paper_text, paper_line};
use std::alloc::{AllocError, Global};
use std::rc::Rc;

/// The seat of a power, where its name is one of the map's.
pub fn new_seat(map: &Map, game: &str, seat: &Seat<'_>) -> Option<NewSeat>
    ensures { option_map desk_rows.new_seat result
        ≡ c.new_seat map.now game.now (seat_note seat.now) }
{
    let power = map.power(seat.power)?;
    Some(NewSeat {
        power,
        digest: digest_of(game, seat.power, seat.secret),
    })
}

/// The seats of a new game, where each power is one of the map.
fn new_seats(
    alloc: Global,
    map: &Map,
    game: &str,
    seats: Seats<'_>,
) -> Result<Option<Vec<NewSeat>>, AllocError>
    ensures { IfOk result
        (λ found. option_map (λ v. each desk_rows.new_seat v.items) found
        ≡ c.new_seats map.now game.now
        (seats_in seats.entry)) }
{
    let mut found = Vec::new(alloc);
    for seat in seats {
        match new_seat(map, game, &seat) {
            None => return Ok(None),
            Some(next) => found.push(next)?,
        }
    }
    Ok(Some(found))
}

/// How many of the seats are the power's.
fn seats_of(seats: &[NewSeat], power: Power) -> usize
    ensures { result ≡ count_by (λ s. s.power == power) (each desk_rows.new_seat seats.now) }
{
    seats.iter().filter(|seat| seat.power == power).count()
}

/// Whether just one of the seats is the power's.
fn has_one_seat(seats: &[NewSeat], power: Power) -> bool
    ensures { result ≡ (count_by (λ s. s.power == power) (each desk_rows.new_seat seats.now) == 1) }
{
    seats_of(seats, power) == 1
}

/// Whether each power of the map has one seat.
fn are_complete(map: &Map, seats: &[NewSeat]) -> bool
    ensures { result ≡ are_complete map.now (each desk_rows.new_seat seats.now) }
{
    for power in map.each_power() {
        if !has_one_seat(seats, power) {
            return false;
        }
    }
    true
}

/// The public part of a new game.
fn opening_public(
    alloc: Global,
    map: &Map,
    game: &str,
    opening: &Opening<'_>,
) -> Result<Public, AllocError>
    ensures { IfOk result
        (λ p. rows.public p ≡ c.opening_public map.now game.now opening.now.due opening.now.period
        opening.now.grey (is_on opening.now.intent)) }
{
    Ok(Public {
        game: String::from_str(alloc, game)?,
        board: Rc::new(
            alloc,
            Board::opening(alloc, map)?.with_intent(opening.has_intent()),
        )?,
        status: Status::Running,
        due: opening.due,
        period: opening.period,
        grey: opening.grey,
        papers: 1,
    })
}

/// A new game, where its name is free.
fn open_game(
    alloc: Global,
    map: &Map,
    public: Public,
    seats: Vec<NewSeat>,
    is_there: bool,
) -> Result<Verdict, AllocError>
    ensures { IfOk result
        (λ v. (game : Option s.Game) → is_there ≡ is_some game
        → verdict v ≡ c.open_game map.now (rows.public public) (each desk_rows.new_seat seats.items)
        game) }
{
    if is_there {
        return refusal_verdict(alloc, Refusal::NameTaken);
    }
    let paper = opening_paper_text(alloc, map, &public)?;
    Ok(Verdict::Taken(
        paper_line(alloc, 1)?,
        Effect::Opens {
            public,
            paper,
            seats,
        },
    ))
}

/// What CREATE comes to, by its seats and whether there is a game of its name.
pub fn creation(
    alloc: Global,
    map: &Map,
    game: &str,
    opening: &Opening<'_>,
    is_there: bool,
) -> Result<Verdict, AllocError>
    ensures { IfOk result
        (λ v. (known : Option s.Game) → is_there ≡ is_some known
        → verdict v ≡ c.creation map.now
        (c.opening_public map.now game.now opening.now.due opening.now.period opening.now.grey
        (is_on opening.now.intent))
        (c.new_seats map.now game.now (seats_in opening.now.seats)) known) }
{
    let Some(seats) = new_seats(alloc, map, game, opening.seats)? else {
        return refusal_verdict(alloc, Refusal::Malformed);
    };
    if !are_complete(map, seats.as_slice()) {
        return refusal_verdict(alloc, Refusal::Malformed);
    }
    let public = opening_public(alloc, map, game, opening)?;
    open_game(alloc, map, public, seats, is_there)
}
