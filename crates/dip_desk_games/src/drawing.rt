//! When a game is drawn, and between whom: every survivor asks for the same powers, and all of these survive.
ghost use Rattle.std.specs.Prelude.{◌≡◌, ◌==◌, ◌&&◌, IfOk, map as each, option_map};
ghost use Rattle.std.specs.List.{list_all, list_any};
ghost use Rattle.dip_desk_games.specs.Among.{is_among};
ghost use Rattle.dip_desk_games.specs.Drawing as d;
ghost use Rattle.dip_desk_state.specs.Rows as rows;

use crate::among::is_among;
use dip_desk_state::{Own, Vote, Whole, copy_powers};
use dip_map::{Board, Dislodged, Map};
use dip_names::{Power, Unit};
use std::alloc::{AllocError, Global};

/// Whether one of these units is the power's.
fn has_standing(units: &[Unit], power: Power) -> bool
    ensures { result ≡ list_any (λ u. u.power == power) units.now }
{
    units.iter().any(|unit| unit.power == power)
}

/// Whether one of these dislodged units is the power's.
fn has_dislodged(dislodged: &[Dislodged], power: Power) -> bool
    ensures { result ≡ list_any (λ d. d.unit.power == power) dislodged.now }
{
    dislodged.iter().any(|gone| gone.unit.power == power)
}

/// Whether the power has a unit, standing or dislodged.
fn has_unit(board: &Board, power: Power) -> bool
    ensures { result ≡ d.has_unit board.now power }
{
    has_standing(board.units(), power) || has_dislodged(board.dislodged(), power)
}

/// Whether the power owns a centre.
fn has_centre(map: &Map, board: &Board, power: Power) -> bool
    ensures { result ≡ d.has_centre map.now board.now power }
{
    for prov in map.each_province() {
        if board.owns(power, prov) {
            return true;
        }
    }
    false
}

/// Whether the power has a unit or an owned centre.
pub fn survives(map: &Map, board: &Board, power: Power) -> bool
    ensures { result ≡ d.survives map.now board.now power }
{
    has_unit(board, power) || has_centre(map, board, power)
}

/// All powers with a unit or an owned centre.
fn survivors(alloc: Global, map: &Map, board: &Board) -> Result<Vec<Power>, AllocError>
    ensures { IfOk result (λ v. v.items ≡ d.survivors map.now board.now) }
{
    let mut found = Vec::new(alloc);
    for power in map.each_power() {
        if survives(map, board, power) {
            found.push(power)?;
        }
    }
    Ok(found)
}

/// Whether a vote asks for a draw between exactly these powers.
fn asks_for(survivors: &[Power], vote: &Vote, set: &[Power]) -> bool
    ensures { result ≡ d.is_set set.now (d.asked survivors.now (rows.vote vote.now)) }
{
    match vote {
        Vote::No => false,
        Vote::Yes => survivors == set,
        Vote::For(powers) => powers.as_slice() == set,
    }
}

/// Whether the seat of the power asks for one between them.
fn seat_asks_for(survivors: &[Power], seats: &[Own], set: &[Power], power: Power) -> bool
    ensures { result ≡ d.is_set set.now
        (d.asked survivors.now (d.vote_of (each (λ o. rows.own o) seats.now) power)) }
{
    for seat in seats {
        if seat.power == power {
            return asks_for(survivors, &seat.vote, set);
        }
    }
    false
}

/// Whether each of these powers asks for one between them.
fn all_ask_for(survivors: &[Power], seats: &[Own], set: &[Power], powers: &[Power]) -> bool
    ensures { result ≡ list_all (λ p. d.is_set set.now
        (d.asked survivors.now (d.vote_of (each (λ o. rows.own o) seats.now) p))) powers.now }
{
    for power in powers {
        if !seat_asks_for(survivors, seats, set, *power) {
            return false;
        }
    }
    true
}

/// Whether each power of a set survives.
fn all_survive(survivors: &[Power], set: &[Power]) -> bool
    ensures { result ≡ list_all (λ p. is_among p survivors.now) set.now }
{
    for power in set {
        if !is_among(*power, survivors) {
            return false;
        }
    }
    true
}

/// Whether this set is agreed on: each survivor's vote asks for a draw between exactly these
/// powers, and all of them survive.
fn is_agreed(survivors: &[Power], seats: &[Own], set: &[Power]) -> bool
    ensures { result ≡ d.is_agreed survivors.now (each (λ o. rows.own o) seats.now) set.now }
{
    all_ask_for(survivors, seats, set, survivors) && all_survive(survivors, set)
}

/// The powers between which a vote asks for a draw, if it asks for one.
fn asked_powers(
    alloc: Global,
    survivors: &[Power],
    vote: &Vote,
) -> Result<Option<Vec<Power>>, AllocError>
    ensures { IfOk result (λ found. option_map (λ v. v.items) found
        ≡ d.asked survivors.now (rows.vote vote.now)) }
{
    let set = match vote {
        Vote::No => return Ok(None),
        Vote::Yes => survivors,
        Vote::For(powers) => powers.as_slice(),
    };
    Ok(Some(copy_powers(alloc, set)?))
}

/// The powers between which the seat of a power asks for a draw, if it asks for one.
fn asked_by(
    alloc: Global,
    survivors: &[Power],
    seats: &[Own],
    power: Power,
) -> Result<Option<Vec<Power>>, AllocError>
    ensures { IfOk result (λ found. option_map (λ v. v.items) found
        ≡ d.asked survivors.now (d.vote_of (each (λ o. rows.own o) seats.now) power)) }
{
    for seat in seats {
        if seat.power == power {
            return asked_powers(alloc, survivors, &seat.vote);
        }
    }
    Ok(None)
}

/// The powers on whom these survivors agree, if they do.
fn agreed_powers(
    alloc: Global,
    survivors: &[Power],
    seats: &[Own],
) -> Result<Option<Vec<Power>>, AllocError>
    ensures { IfOk result (λ found. option_map (λ v. v.items) found
        ≡ d.agreed survivors.now (each (λ o. rows.own o) seats.now)) }
{
    let Some(first) = survivors.first() else {
        return Ok(None);
    };
    let Some(set) = asked_by(alloc, survivors, seats, *first)? else {
        return Ok(None);
    };
    if is_agreed(survivors, seats, set.as_slice()) {
        Ok(Some(set))
    } else {
        Ok(None)
    }
}

/// The powers between which a game is drawn, if it is.
pub fn drawn_between(
    alloc: Global,
    map: &Map,
    whole: &Whole,
) -> Result<Option<Vec<Power>>, AllocError>
    ensures { IfOk result (λ found. option_map (λ v. v.items) found
        ≡ d.drawn_between map.now (rows.whole whole.now)) }
{
    let survivors = survivors(alloc, map, &whole.public.board)?;
    agreed_powers(alloc, survivors.as_slice(), whole.seats.as_slice())
}
