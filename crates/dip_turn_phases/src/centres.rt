//! Centres: who owns them after Fall, and who has won.
ghost use Rattle.std.specs.Prelude.{◌≡◌, ◌==◌, IfOk, None, find, count_by, length};
ghost use Rattle.std.specs.List.{filter_map};
ghost use Rattle.dip_map.specs.Boards.{owner};
ghost use Rattle.dip_turn_phases.specs.Centres as c;

use crate::lines::CentreLine;
use dip_map::{Board, Map};
use dip_names::{Power, Prov, Unit};
use std::alloc::{AllocError, Global};

/// The unit that stands in a province.
fn holder(units: &[Unit], prov: Prov) -> Option<Unit>
    ensures { result ≡ c.holder units.now prov }
{
    for unit in units {
        if unit.place.prov == prov {
            return Some(*unit);
        }
    }
    None
}

/// Who owns a province after the centres changed hands: only a centre changes hands.
fn owner_after(map: &Map, units: &[Unit], prov: Prov, owner: Option<Power>) -> Option<Power>
    ensures { result ≡ c.owner_after map.now units.now prov owner }
{
    if !map.is_centre(prov) {
        return owner;
    }
    match holder(units, prov) {
        Some(unit) => Some(unit.power),
        None => owner,
    }
}

/// The owners of all provinces after the centres changed hands.
fn owners_after(alloc: Global, map: &Map, board: &Board) -> Result<Vec<Option<Power>>, AllocError>
    requires owners { length board.now.owners ≡ length map.now.provinces }
    ensures { IfOk result
        (λ v. v.items ≡ c.owners_after map.now board.now.units 0 board.now.owners) }
{
    map.facts();
    let mut owners = Vec::new(alloc);
    for (index, owner) in board.owners().iter().enumerate() {
        let prov = Prov::new(index as u8);
        owners.push(owner_after(map, board.units(), prov, *owner))?;
    }
    Ok(owners)
}

/// The board with centres in new hands.
pub(crate) fn with_owners(alloc: Global, map: &Map, board: &Board) -> Result<Board, AllocError>
    requires owners { length board.now.owners ≡ length map.now.provinces }
    ensures { IfOk result (λ b. b ≡ c.with_owners map.now board.now) }
{
    let units = board.units().to_vec(alloc)?;
    let dislodged = board.dislodged().to_vec(alloc)?;
    let standoff = board.standoff().to_vec(alloc)?;
    let owners = owners_after(alloc, map, board)?;
    Ok(Board::of(
        units,
        dislodged,
        standoff,
        owners,
        board.phase(),
        board.intent(),
    ))
}

/// How many centres the map has.
#[tactic(auto, using(crate::proofs::CentreLemmas::centres_counted, crate::proofs::CentreLemmas::length_provs))]
fn centres(map: &Map) -> usize
    ensures { result ≡ c.centres map.now }
{
    map.facts();
    let mut count: usize = 0;
    for prov in map.each_province() {
        if map.is_centre(prov) {
            count += 1;
        }
    }
    count
}

/// Whether a power owns more than half of all centres: the others are fewer than its own.
#[tactic(auto, using(crate::proofs::CentreLemmas::more_than_half))]
fn has_won(map: &Map, board: &Board, power: Power) -> bool
    ensures { result ≡ c.has_won map.now board.now power }
{
    let owned = board.centres_owned(power);
    centres(map).saturating_sub(owned) < owned
}

/// Who has won, if anybody has.
pub(crate) fn winner(map: &Map, board: &Board) -> Option<Power>
    ensures { result ≡ c.winner map.now board.now }
{
    for power in map.each_power() {
        if has_won(map, board, power) {
            return Some(power);
        }
    }
    None
}

/// Whether the two are one power, or nobody.
fn is_same_owner(one: Option<Power>, other: Option<Power>) -> bool
    ensures { result ≡ c.is_same_owner one other }
{
    match (one, other) {
        (None, None) => true,
        (Some(one), Some(other)) => one == other,
        (None, Some(_)) | (Some(_), None) => false,
    }
}

/// The line of a province that another power owns than before.
fn centre_line(board: &Board, new: &Board, prov: Prov) -> Option<CentreLine>
    ensures { result ≡ c.centre_line board.now new.now prov }
{
    if is_same_owner(board.owner(prov), new.owner(prov)) {
        return None;
    }
    match new.owner(prov) {
        Some(power) => Some(CentreLine { prov, power }),
        None => None,
    }
}

/// The centres that changed hands from one board to the next, by code.
pub fn centre_lines(
    alloc: Global,
    map: &Map,
    board: &Board,
    new: &Board,
) -> Result<Vec<CentreLine>, AllocError>
    ensures { IfOk result (λ v. v.items ≡ c.centre_lines map.now board.now new.now) }
{
    let mut lines = Vec::new(alloc);
    for prov in map.each_province() {
        if let Some(line) = centre_line(board, new, prov) {
            lines.push(line)?;
        }
    }
    Ok(lines)
}
