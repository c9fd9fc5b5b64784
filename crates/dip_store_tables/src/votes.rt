//! A seat's vote and the text of its ballot.
ghost use Rattle.std.specs.Prelude.{◌≡◌, ◌++◌, ◌∷◌, ◌↔◌, IfOk, IfSome, IfNone, IsTrue, OnOk, flat_map, map as each, nat_lt, string_bytes};
ghost use Rattle.std.specs.List.{list_all};
ghost use Rattle.dip_map.specs.Boards.{are_ascending};
ghost use Rattle.dip_desk_state.specs.Rows as rows;
ghost use Rattle.dip_desk_state.specs.Writable.{IsVoteOf};
ghost use Rattle.dip_store_tables.specs.Boards.{power_name};
ghost use Rattle.dip_store_tables.specs.Texts.{joined};
ghost use Rattle.dip_store_tables.specs.Votes.{IsBallotText, ballot_text, vote_of};

use crate::cuts::pieces_of;
use crate::statuses::powers_of;
use crate::writable_parts::are_powers;
use dip_desk_state::Vote;
use dip_map::Map;
use dip_names::Power;
use std::alloc::{AllocError, Global};

/// Appends the names of powers, each after a space.
fn push_names(map: &Map, powers: &[Power], out: &mut String) -> Result<(), AllocError>
    ensures { OnOk result (string_bytes out.new
        ≡ string_bytes out.old ++ flat_map (λ p. 32 ∷ power_name map.now p) powers.now) }
{
    for power in powers {
        out.push_str(" ")?;
        out.push_str(map.power_name(*power))?;
    }
    Ok(())
}

/// The names of powers, joined by spaces.
#[tactic(auto, using(crate::proofs::VoteLemmas::names_joined))]
fn names_text(alloc: Global, map: &Map, powers: &[Power]) -> Result<String, AllocError>
    ensures { IfOk result (λ t.
        string_bytes t ≡ joined 32 (each (power_name map.now) powers.now)) }
{
    let mut text = String::new(alloc);
    let Some((first, others)) = powers.split_first() else {
        return Ok(text);
    };
    text.push_str(map.power_name(*first))?;
    push_names(map, others, &mut text)?;
    Ok(text)
}

/// The text of a vote's ballot: `NO`, `YES`, or the names of the powers that it names, by alphabet, a space between two of them.
///
/// # Errors
/// Want of memory.
pub fn ballot_text(alloc: Global, map: &Map, vote: &Vote) -> Result<String, AllocError>
    ensures { IfOk result (λ t. string_bytes t ≡ ballot_text map.now (rows.vote vote.now)) }
{
    match vote {
        Vote::No => String::from_str(alloc, "NO"),
        Vote::Yes => String::from_str(alloc, "YES"),
        Vote::For(powers) => names_text(alloc, map, powers.as_slice()),
    }
}

/// The vote of a ballot's text; none where no vote of the map has it.
///
/// # Errors
/// Want of memory.
pub fn read_vote(alloc: Global, map: &Map, text: &str) -> Result<Option<Vote>, AllocError>
    ensures value { IfOk result (λ o. IfSome o (λ v. rows.vote v ≡ vote_of map.now text.now)) }
    ensures none { IfOk result (λ o. IfNone o (IsBallotText map.now text.now → ⊥)) }
{
    map.facts();
    if text.is_empty() {
        return Ok(None);
    }
    if text == "NO" {
        return Ok(Some(Vote::No));
    }
    if text == "YES" {
        return Ok(Some(Vote::Yes));
    }
    let names = pieces_of(alloc, text, ' ')?;
    match powers_of(alloc, map, names.as_slice())? {
        Some(powers) => Ok(Some(Vote::For(powers))),
        None => Ok(None),
    }
}

/// Whether the power comes before all of these.
fn is_before(power: Power, powers: &[Power]) -> bool
    ensures { result ≡ list_all (λ q. nat_lt power q) powers.now }
{
    powers.iter().all(|later| power < *later)
}

/// Whether each of these powers comes before all after it.
fn are_ascending(powers: &[Power]) -> bool
    ensures { result ≡ are_ascending powers.now }
{
    for (number, power) in powers.iter().enumerate() {
        if !is_before(*power, &powers[number + 1..]) {
            return false;
        }
    }
    true
}

/// Whether the powers that the vote names are of the map, ascend, and there is one at least.
pub(crate) fn is_vote(map: &Map, vote: &Vote) -> bool
    ensures { IsTrue result ↔ IsVoteOf map.now (rows.vote vote.now) }
{
    match vote {
        Vote::No | Vote::Yes => true,
        Vote::For(powers) => {
            let powers = powers.as_slice();
            are_powers(map, powers) && are_ascending(powers) && !powers.is_empty()
        }
    }
}
