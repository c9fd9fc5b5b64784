//! The owners of centres, and the provinces that a standoff left, read from rows.
ghost use Rattle.std.specs.Prelude.{◌≡◌, ◌≤◌, length, take, drop, map as each, IfNone, IfOk, IfSome};
ghost use Rattle.std.specs.List.{AllByRecursion};
ghost use Rattle.dip_store_tables.specs.Boards.{owner_at, owner_in, standoff_of};
ghost use Rattle.dip_store_tables.specs.WrittenBoards.{IsCentreRow, IsStandoffText};

use crate::board_columns::CentreColumns;
use dip_map::Map;
use dip_names::{Power, Prov};
use std::alloc::{AllocError, Global};

/// The owner of a province: of its first row, nobody where there is none. None where the owner isn't a power of the map.
fn owner_of(map: &Map, rows: &[CentreColumns], p: Prov) -> Option<Option<Power>>
    ensures value { IfSome result (λ o. o ≡ owner_at map.now rows.now p) }
    ensures none { IfNone result (AllByRecursion (IsCentreRow map.now) rows.now → ⊥) }
{
    map.facts();
    for row in rows {
        if row.province.as_str() == map.code(p) {
            let owner = map.power(row.power.as_str())?;
            return Some(Some(owner));
        }
    }
    Some(None)
}

/// The owner of each province of the map, by its number.
#[tactic(auto, using(crate::proofs::Listed::owners_listed))]
pub(crate) fn owners(
    alloc: Global,
    map: &Map,
    rows: &[CentreColumns],
) -> Result<Option<Vec<Option<Power>>>, AllocError>
    ensures value { IfOk result (λ o. IfSome o (λ v.
        v.items ≡ each (λ p. owner_in map.now rows.now p.code) map.now.provinces)) }
    ensures none { IfOk result (λ o. IfNone o (AllByRecursion (IsCentreRow map.now) rows.now → ⊥)) }
{
    let mut owners = Vec::new(alloc);
    for prov in map.each_province() {
        let Some(owner) = owner_of(map, rows, prov) else {
            return Ok(None);
        };
        owners.push(owner)?;
    }
    Ok(Some(owners))
}

fn front(text: &[u8]) -> &[u8]
    requires { 3 ≤ length text.now }
    ensures { result.now ≡ take 3 text.now }
{
    &text[..3]
}

fn after_code(text: &[u8]) -> &[u8]
    requires { 4 ≤ length text.now }
    ensures { result.now ≡ drop 4 text.now }
{
    &text[4..]
}

/// The provinces of a text of codes, three bytes each and a space between two.
#[tactic(auto, using(crate::proofs::Listed::turn, crate::proofs::Listed::standoff_last, crate::proofs::Listed::standoff_short, crate::proofs::Listed::text_code))]
pub(crate) fn standoff(
    alloc: Global,
    map: &Map,
    text: &str,
) -> Result<Option<Vec<Prov>>, AllocError>
    ensures value { IfOk result (λ o. IfSome o (λ v. v.items ≡ standoff_of map.now text.now)) }
    ensures none { IfOk result (λ o. IfNone o (IsStandoffText map.now text.now → ⊥)) }
{
    map.facts();
    let mut provs = Vec::new(alloc);
    let mut rest = text.as_bytes();
    while rest.len() >= 3 {
        let Some(prov) = map.prov(front(rest)) else {
            return Ok(None);
        };
        provs.push(prov)?;
        if rest.len() == 3 {
            break;
        }
        rest = after_code(rest);
    }
    Ok(Some(provs))
}
