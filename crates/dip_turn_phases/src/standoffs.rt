//! Standoff provinces.
ghost use Rattle.std.specs.Prelude.{◌≡◌, ◌==◌, IfOk, nat_lt};
ghost use Rattle.std.specs.List.{list_any};
ghost use Rattle.dip_decide_rules.specs.Matching.{situation};
ghost use Rattle.dip_decide_rules.specs.Movement.{has_path, prevent};
ghost use Rattle.dip_decide_rules.specs.Results.{values_in};
ghost use Rattle.dip_turn_phases.specs.Moving as m;

use crate::moving::has_moved;
use crate::orders::{destination, is_at, is_convoyed_from, is_head_to_head, is_listed};
use dip_decide_rules::Resolution;
use dip_map::Map;
use dip_names::{Prov, Unit};
use dip_orders_placed::PlacedOrder;
use std::alloc::{AllocError, Global};

/// Whether the move of the unit in a province goes by land, or has a path.
pub(crate) fn has_path(
    map: &Map,
    resolution: &Resolution,
    orders: &[PlacedOrder],
    prov: Prov,
) -> bool
    ensures { result ≡ has_path (situation map.now orders.now) (values_in resolution.now) prov }
{
    !is_convoyed_from(map, orders, prov) || is_listed(resolution.paths.as_slice(), prov)
}

/// Whether the move from one province to the other has strength to prevent others.
#[tactic(auto, using(crate::proofs::MovingLemmas::prevents))]
fn prevents(
    map: &Map,
    resolution: &Resolution,
    orders: &[PlacedOrder],
    from: Prov,
    to: Prov,
) -> bool
    ensures { result ≡ nat_lt 0
        (prevent (situation map.now orders.now) (values_in resolution.now) from to) }
{
    has_path(map, resolution, orders, from)
        && !(is_head_to_head(map, orders, from, to) && is_listed(resolution.moves.as_slice(), to))
}

/// Whether a move fails to come to the province, where it has strength to prevent others.
fn contends(
    map: &Map,
    resolution: &Resolution,
    orders: &[PlacedOrder],
    prov: Prov,
    placed: &PlacedOrder,
) -> bool
    ensures { result ≡ m.contends map.now (values_in resolution.now) orders.now prov placed.now }
{
    is_at(destination(&placed.order), prov)
        && !has_moved(resolution, placed)
        && prevents(map, resolution, orders, placed.unit.place.prov, prov)
}

/// Whether one of these units stands in the province.
fn is_held_by(units: &[Unit], prov: Prov) -> bool
    ensures { result ≡ list_any (λ u. u.place.prov == prov) units.now }
{
    units.iter().any(|unit| unit.place.prov == prov)
}

/// Whether a move into the province failed that had strength to prevent others.
fn is_contended(map: &Map, resolution: &Resolution, orders: &[PlacedOrder], prov: Prov) -> bool
    ensures { result ≡ list_any (m.contends map.now (values_in resolution.now) orders.now prov)
        orders.now }
{
    orders
        .iter()
        .any(|placed| contends(map, resolution, orders, prov, placed))
}

/// Whether a standoff closes the province: a failed move into it had strength to prevent others,
/// and nobody stands there after the movement.
fn is_standoff_after(
    map: &Map,
    resolution: &Resolution,
    orders: &[PlacedOrder],
    units: &[Unit],
    prov: Prov,
) -> bool
    ensures { result ≡ m.is_standoff_after map.now (values_in resolution.now) orders.now units.now
        prov }
{
    is_contended(map, resolution, orders, prov) && !is_held_by(units, prov)
}

/// The standoff provinces, by code, where these units stand.
pub(crate) fn standoffs_after(
    alloc: Global,
    map: &Map,
    resolution: &Resolution,
    orders: &[PlacedOrder],
    units: &[Unit],
) -> Result<Vec<Prov>, AllocError>
    ensures { IfOk result
        (λ v. v.items ≡ m.standoffs_after map.now (values_in resolution.now) orders.now units.now) }
{
    let mut found = Vec::new(alloc);
    for prov in map.each_province() {
        if is_standoff_after(map, resolution, orders, units, prov) {
            found.push(prov)?;
        }
    }
    Ok(found)
}
