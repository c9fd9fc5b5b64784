//! Codes, places and units as a file writes them.
ghost use Rattle.std.specs.Prelude.{◌≡◌, map};
ghost use Rattle.toml.specs.View.{view, array_view};
ghost use Rattle.dip_map_file.specs.Fields.{each_item};
ghost use Rattle.dip_names.specs.Results.{Gives};
ghost use Rattle.dip_map_file.specs.Files.{code_at, coast_in, site_in, site_at, unit_in, unit_at, codes_at, sites_at, units_at};

use crate::drafts::{Site, UnitDraft};
use crate::fields::{array_in, text_in};
use dip_names::{Kind, MapFault, is_coast_name, is_code};
use std::alloc::Global;
use toml::value::{Array, Value};

/// The code that a value spells.
#[tactic(auto, unfolding(crate::specs::Files::code_at))]
fn code_of(value: &Value) -> Result<&str, MapFault>
    ensures { Gives (λ s. s.now) result (code_at (view value.now)) }
{
    let text = text_in(value)?;
    if is_code(text.as_bytes()) {
        return Ok(text);
    }
    Err(MapFault::WrongField)
}

/// What stands after a place's code: nothing, or `/` and the name of a coast.
fn coast_of(text: &[u8]) -> Result<&[u8], MapFault>
    ensures { Gives (λ s. s.now) result (coast_in text.now) }
{
    let Some((first, name)) = text.split_first() else {
        return Ok(&[]);
    };
    if *first == b'/' && is_coast_name(name) {
        return Ok(name);
    }
    Err(MapFault::WrongField)
}

/// A code, and a coast or none.
#[tactic(auto, unfolding(crate::specs::Files::site_in))]
fn site_of_text(text: &[u8]) -> Result<Site<'_>, MapFault>
    ensures { Gives (λ s. s) result (site_in text.now) }
{
    if text.len() < 3 {
        return Err(MapFault::WrongField);
    }
    let (code, behind) = text.split_at(3);
    if !is_code(code) {
        return Err(MapFault::WrongField);
    }
    let coast = coast_of(behind)?;
    Ok(Site { code, coast })
}

/// A place that a value writes: a code, and a coast or none.
#[tactic(auto, unfolding(crate::specs::Files::site_at))]
fn site_of(value: &Value) -> Result<Site<'_>, MapFault>
    ensures { Gives (λ s. s) result (site_at (view value.now)) }
{
    let text = text_in(value)?;
    site_of_text(text.as_bytes())
}

/// `A`, a space and a code, or `F`, a space and a place.
fn unit_of_text(text: &[u8]) -> Result<UnitDraft<'_>, MapFault>
    ensures { Gives (λ u. u) result (unit_in text.now) }
{
    let [kind, b' ', place @ ..] = text else {
        return Err(MapFault::WrongField);
    };
    let site = site_of_text(place)?;
    if *kind == b'F' {
        return Ok(UnitDraft {
            kind: Kind::Fleet,
            site,
        });
    }
    if *kind == b'A' && site.coast.is_empty() {
        return Ok(UnitDraft {
            kind: Kind::Army,
            site,
        });
    }
    Err(MapFault::WrongField)
}

/// The unit that a value spells.
#[tactic(auto, unfolding(crate::specs::Files::unit_at))]
fn unit_of(value: &Value) -> Result<UnitDraft<'_>, MapFault>
    ensures { Gives (λ u. u) result (unit_at (view value.now)) }
{
    let text = text_in(value)?;
    unit_of_text(text.as_bytes())
}

/// The codes that the values of an array spell.
fn codes_in<'a>(alloc: Global, array: &'a Array) -> Result<Vec<&'a str>, MapFault>
    ensures { Gives (λ v. map (λ s. s.now) v.items) result
        (each_item code_at (array_view array.now)) }
{
    let mut codes = Vec::new(alloc);
    for value in array.iter() {
        let code = code_of(value)?;
        codes.push(code)?;
    }
    Ok(codes)
}

/// The places that the values of an array spell.
fn sites_in<'a>(alloc: Global, array: &'a Array) -> Result<Vec<Site<'a>>, MapFault>
    ensures { Gives (λ v. v.items) result (each_item site_at (array_view array.now)) }
{
    let mut sites = Vec::new(alloc);
    for value in array.iter() {
        let site = site_of(value)?;
        sites.push(site)?;
    }
    Ok(sites)
}

/// The units that the values of an array spell.
fn units_in<'a>(alloc: Global, array: &'a Array) -> Result<Vec<UnitDraft<'a>>, MapFault>
    ensures { Gives (λ v. v.items) result (each_item unit_at (array_view array.now)) }
{
    let mut units = Vec::new(alloc);
    for value in array.iter() {
        let unit = unit_of(value)?;
        units.push(unit)?;
    }
    Ok(units)
}

/// An array of provinces' codes; `WrongField` where it has anything else.
#[tactic(auto, unfolding(crate::specs::Files::codes_at))]
pub(crate) fn codes_of(alloc: Global, value: &Value) -> Result<Vec<&str>, MapFault>
    ensures { Gives (λ v. map (λ s. s.now) v.items) result (codes_at (view value.now)) }
{
    let array = array_in(value)?;
    codes_in(alloc, array)
}

/// An array of places; `WrongField` where it has anything else.
#[tactic(auto, unfolding(crate::specs::Files::sites_at))]
pub(crate) fn sites_of(alloc: Global, value: &Value) -> Result<Vec<Site<'_>>, MapFault>
    ensures { Gives (λ v. v.items) result (sites_at (view value.now)) }
{
    let array = array_in(value)?;
    sites_in(alloc, array)
}

/// An array of units; `WrongField` where it has anything else.
#[tactic(auto, unfolding(crate::specs::Files::units_at))]
pub(crate) fn units_of(alloc: Global, value: &Value) -> Result<Vec<UnitDraft<'_>>, MapFault>
    ensures { Gives (λ v. v.items) result (units_at (view value.now)) }
{
    let array = array_in(value)?;
    units_in(alloc, array)
}
