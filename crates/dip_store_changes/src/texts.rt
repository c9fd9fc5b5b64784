//! Texts of columns.
ghost use Rattle.std.specs.Prelude.{◌≡◌, ◌≤◌, ◌++◌, IfOk, OnOk, codes, drop, flat_map, length, string_bytes};
ghost use Rattle.dip_store_tables.specs.Boards.{code, standoff_text};
ghost use Rattle.dip_desk_state.specs.Rows as records;
ghost use Rattle.dip_desk_state.specs.Texts.{status_text};

use dip_desk_state::{Status, push_status};
use dip_map::Map;
use dip_names::Prov;
use std::alloc::{AllocError, Global};

/// The text of a status, as the column of a game has it.
pub fn status_text(alloc: Global, map: &Map, status: &Status) -> Result<String, AllocError>
    ensures { IfOk result (λ t. string_bytes t ≡ status_text map.now (records.status status.now)) }
{
    let mut out = String::new(alloc);
    push_status(map, status, &mut out)?;
    Ok(out)
}

/// Appends the codes of provinces, each after a space.
fn push_codes(map: &Map, provs: &[Prov], out: &mut String) -> Result<(), AllocError>
    ensures { OnOk result (string_bytes out.new
        ≡ string_bytes out.old ++ flat_map (λ p. codes " " ++ code map.now p) provs.now) }
{
    for prov in provs {
        out.push_str(" ")?;
        out.push_str(map.code(*prov))?;
    }
    Ok(())
}

fn rest(provs: &[Prov]) -> &[Prov]
    requires { 1 ≤ length provs.now }
    ensures { result.now ≡ drop 1 provs.now }
{
    &provs[1..]
}

/// The codes of provinces, joined by spaces.
#[tactic(auto, using(crate::proofs::Joining::codes_none))]
pub fn standoff_text(alloc: Global, map: &Map, provs: &[Prov]) -> Result<String, AllocError>
    ensures { IfOk result (λ t. string_bytes t ≡ standoff_text map.now provs.now) }
{
    let mut out = String::new(alloc);
    if provs.len() == 0 {
        return Ok(out);
    }
    out.push_str(map.code(provs[0]))?;
    push_codes(map, rest(provs), &mut out)?;
    Ok(out)
}
