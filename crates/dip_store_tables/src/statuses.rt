//! How a game stands, read from the words of its line.
ghost use Rattle.std.specs.Prelude.{◌≡◌, [], codes, drop, IfOk, IfSome, IfNone, map as each};
ghost use Rattle.dip_store_tables.specs.Boards.{power_in};
ghost use Rattle.dip_desk_state.specs.Rows as rows;
ghost use Rattle.dip_store_tables.specs.Reading.{status_in, status_of};
ghost use Rattle.dip_store_tables.specs.Columns.{ArePowers, IsStatusText, IsToldBy};

use crate::cuts::pieces_of;
use dip_desk_state::Status;
use dip_map::Map;
use dip_names::Power;
use std::alloc::{AllocError, Global};

/// The powers of these names; none where one isn't a power of the map.
pub(crate) fn powers_of(
    alloc: Global,
    map: &Map,
    names: &[String],
) -> Result<Option<Vec<Power>>, AllocError>
    ensures value { IfOk result (λ o. IfSome o (λ v.
        v.items ≡ each (power_in map.now) (rows.lines names.now))) }
    ensures none { IfOk result (λ o. IfNone o (ArePowers map.now (rows.lines names.now) → ⊥)) }
{
    map.facts();
    let mut powers = Vec::new(alloc);
    for name in names {
        let Some(power) = map.power(name.as_str()) else {
            return Ok(None);
        };
        powers.push(power)?;
    }
    Ok(Some(powers))
}

/// Who has won, by the first of these names.
fn winner(map: &Map, names: &[String]) -> Option<Status>
    ensures value { IfSome result (λ s.
        rows.status s ≡ status_in map.now (codes "won") (rows.lines names.now)) }
    ensures none { IfNone result (ArePowers map.now (rows.lines names.now) → names.now ≡ []) }
{
    map.facts();
    let power = map.power(names.first()?.as_str())?;
    Some(Status::Won(power))
}

/// How a game stands by its first word and the names after the second.
#[tactic(auto, using(crate::proofs::StatusLemmas::drawn_powers))]
fn told_by(
    alloc: Global,
    map: &Map,
    word: &str,
    names: &[String],
) -> Result<Option<Status>, AllocError>
    ensures value { IfOk result (λ o. IfSome o (λ s.
        rows.status s ≡ status_in map.now word.now (rows.lines names.now))) }
    ensures none { IfOk result (λ o. IfNone o (
        IsToldBy map.now word.now (rows.lines names.now) → ⊥)) }
{
    if word == "paused" {
        return Ok(Some(Status::Paused));
    }
    if word == "closed" {
        return Ok(Some(Status::Closed));
    }
    if word == "ended" {
        return Ok(Some(Status::Ended));
    }
    if word == "won" {
        return Ok(winner(map, names));
    }
    if word == "drawn" {
        return match powers_of(alloc, map, names)? {
            Some(powers) => Ok(Some(Status::Drawn(powers))),
            None => Ok(None),
        };
    }
    if word == "running" {
        return Ok(Some(Status::Running));
    }
    Ok(None)
}

fn without_first(words: &[String]) -> &[String]
    ensures { result.now ≡ drop 1 words.now }
{
    match words.split_first() {
        Some((_, others)) => others,
        None => words,
    }
}

/// How a game stands by the words of its line: `running`, `paused`, `closed`, `ended`, `won by` and a power, or `drawn by` and
/// the powers that share it. None where these aren't such words.
///
/// # Errors
/// Want of memory.
pub fn read_status(alloc: Global, map: &Map, text: &str) -> Result<Option<Status>, AllocError>
    ensures value { IfOk result (λ o. IfSome o (λ s. rows.status s ≡ status_of map.now text.now)) }
    ensures none { IfOk result (λ o. IfNone o (IsStatusText map.now text.now → ⊥)) }
{
    map.facts();
    let words = pieces_of(alloc, text, ' ')?;
    let Some((word, more)) = words.as_slice().split_first() else {
        return Ok(None);
    };
    told_by(alloc, map, word.as_str(), without_first(more))
}
