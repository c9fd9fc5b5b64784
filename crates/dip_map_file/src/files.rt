//! Provinces and powers as a file writes them, and the file as a whole.
ghost use Rattle.std.specs.Prelude.{◌≡◌, ◌≤◌, length, map, IfOk};
ghost use Rattle.toml.specs.Data.{get_member};
ghost use Rattle.toml.specs.View.{view, table_view};
ghost use Rattle.dip_map_file.specs.Fields.{each_member, keys_are_among};
ghost use Rattle.dip_names.specs.Results.{Gives};
ghost use Rattle.dip_map_file.specs.Files.{name_at, terrain_in, keys_of, army_at, only_shore_at, shore_at, shores_in, shores_at, may_be_centre, is_sound, province_at, power_at, draft_at, file_in};

use crate::drafts::{Draft, PowerDraft, ProvinceDraft, ShoreDraft};
use crate::fields::{field_of, flag_in, has_keys_among, member, table_in, table_of, text_of};
use crate::places::{codes_of, sites_of, units_of};
use dip_names::{MapFault, Terrain, is_coast_name, is_code, is_full_name, is_power_name};
use std::alloc::Global;
use toml::value::{Table, Value};

/// The tables of a text that is TOML, whatever its fields are; `NotToml` where it is none.
#[tactic(auto, unfolding(crate::specs::Files::file_in))]
pub fn tables_of(alloc: Global, text: &str) -> Result<Table, MapFault>
    ensures { Gives (λ t. table_view t) result (file_in text.now) }
{
    match toml::table_from_str(alloc, text) {
        Ok(table) => Ok(table),
        Err(error) if error.is_memory() => Err(MapFault::Memory),
        Err(_) => Err(MapFault::NotToml),
    }
}

/// A province's full name.
#[tactic(auto, unfolding(crate::specs::Files::name_at))]
fn name_of(fields: &Table) -> Result<&str, MapFault>
    ensures { Gives (λ s. s.now) result (name_at (table_view fields.now)) }
{
    let name = text_of(fields, "name")?;
    if is_full_name(name) {
        return Ok(name);
    }
    Err(MapFault::WrongField)
}

/// What a province is, by its word.
#[tactic(auto, unfolding(crate::specs::Files::terrain_in))]
fn terrain_of(word: &str) -> Result<Terrain, MapFault>
    ensures { Gives (λ g. g) result (terrain_in word.now) }
{
    match word {
        "inland" => Ok(Terrain::Inland),
        "coast" => Ok(Terrain::Coast),
        "sea" => Ok(Terrain::Sea),
        _ => Err(MapFault::WrongField),
    }
}

/// Whether the fields of a province have only keys that its terrain may have.
fn has_keys_of(terrain: Terrain, fields: &Table) -> bool
    ensures { result ≡ keys_are_among (keys_of terrain) (table_view fields.now) }
{
    match terrain {
        Terrain::Inland => has_keys_among(fields, &["name", "kind", "centre", "army"]),
        Terrain::Coast => {
            has_keys_among(
                fields,
                &["name", "kind", "centre", "army", "fleet", "coasts"],
            )
        }
        Terrain::Sea => has_keys_among(fields, &["name", "kind", "centre", "fleet"]),
    }
}

/// Whether a province of this terrain may be a centre.
fn may_be_centre(terrain: Terrain) -> bool
    ensures { result ≡ may_be_centre terrain }
{
    match terrain {
        Terrain::Inland | Terrain::Coast => true,
        Terrain::Sea => false,
    }
}

/// Whether a province has a code, no field but its own, and is a centre only on land.
fn is_sound(code: &str, terrain: Terrain, centre: bool, fields: &Table) -> bool
    ensures { result ≡ is_sound code.now terrain centre (table_view fields.now) }
{
    is_code(code.as_bytes()) && has_keys_of(terrain, fields) && (!centre || may_be_centre(terrain))
}

/// Where an army goes; a sea has no such list.
fn army_of(alloc: Global, terrain: Terrain, fields: &Table) -> Result<Vec<&str>, MapFault>
    ensures { Gives (λ v. map (λ s. s.now) v.items) result
        (army_at terrain (table_view fields.now)) }
{
    match terrain {
        Terrain::Inland | Terrain::Coast => {
            let codes = field_of(fields, "army")?;
            codes_of(alloc, codes)
        }
        Terrain::Sea => Ok(Vec::new(alloc)),
    }
}

/// The one coast of a province that has no coasts of its own.
#[tactic(auto, unfolding(crate::specs::Files::only_shore_at))]
fn only_shore_of(alloc: Global, value: &Value) -> Result<Vec<ShoreDraft<'_>>, MapFault>
    ensures value { Gives (λ v. v.items) result (only_shore_at (view value.now)) }
    ensures few { IfOk result (λ v. length v.items ≤ 4) }
{
    let next = sites_of(alloc, value)?;
    let mut shores = Vec::new(alloc);
    shores.push(ShoreDraft { name: "", next })?;
    Ok(shores)
}

/// A coast by its name of two letters, and the places where a fleet goes from it.
#[tactic(auto, unfolding(crate::specs::Files::shore_at))]
fn shore_of<'a>(alloc: Global, name: &'a str, value: &'a Value) -> Result<ShoreDraft<'a>, MapFault>
    ensures { Gives (λ s. s) result (shore_at name.now (view value.now)) }
{
    let next = sites_of(alloc, value)?;
    if is_coast_name(name.as_bytes()) {
        return Ok(ShoreDraft { name, next });
    }
    Err(MapFault::WrongField)
}

/// The coasts of a table, by their names.
fn each_shore(alloc: Global, coasts: &Table) -> Result<Vec<ShoreDraft<'_>>, MapFault>
    ensures { Gives (λ v. v.items) result (each_member shore_at (table_view coasts.now)) }
{
    let mut shores = Vec::new(alloc);
    for (name, value) in coasts.iter() {
        let shore = shore_of(alloc, name.as_str(), value)?;
        shores.push(shore)?;
    }
    Ok(shores)
}

/// The 2 to 4 coasts of a province.
#[tactic(auto, unfolding(crate::specs::Files::shores_in))]
fn named_shores_of(alloc: Global, value: &Value) -> Result<Vec<ShoreDraft<'_>>, MapFault>
    ensures value { Gives (λ v. v.items) result (shores_in (view value.now)) }
    ensures few { IfOk result (λ v. length v.items ≤ 4) }
{
    let coasts = table_in(value)?;
    let shores = each_shore(alloc, coasts)?;
    if 2 <= shores.len() && shores.len() <= 4 {
        return Ok(shores);
    }
    Err(MapFault::WrongField)
}

/// The coasts of a province. A coastal one has either `fleet` or `coasts`.
fn shores_of(
    alloc: Global,
    terrain: Terrain,
    fields: &Table,
) -> Result<Vec<ShoreDraft<'_>>, MapFault>
    ensures value { Gives (λ v. v.items) result (shores_at terrain (table_view fields.now)) }
    ensures few { IfOk result (λ v. length v.items ≤ 4) }
{
    match terrain {
        Terrain::Inland => Ok(Vec::new(alloc)),
        Terrain::Coast => match (member(fields, "fleet"), member(fields, "coasts")) {
            (Some(fleet), None) => only_shore_of(alloc, fleet),
            (None, Some(coasts)) => named_shores_of(alloc, coasts),
            _ => Err(MapFault::WrongField),
        },
        Terrain::Sea => {
            let fleet = field_of(fields, "fleet")?;
            only_shore_of(alloc, fleet)
        }
    }
}

/// A province by its code and its table: the keys that its kind has, and no others.
#[tactic(auto, unfolding(crate::specs::Files::province_at))]
fn province_of<'a>(
    alloc: Global,
    code: &'a str,
    value: &'a Value,
) -> Result<ProvinceDraft<'a>, MapFault>
    ensures { Gives (λ p. p) result (province_at code.now (view value.now)) }
{
    let fields = table_in(value)?;
    let name = name_of(fields)?;
    let word = text_of(fields, "kind")?;
    let terrain = terrain_of(word)?;
    let centre = flag_in(fields, "centre")?;
    let army = army_of(alloc, terrain, fields)?;
    let shores = shores_of(alloc, terrain, fields)?;
    if !is_sound(code, terrain, centre, fields) {
        return Err(MapFault::WrongField);
    }
    Ok(ProvinceDraft {
        code,
        name,
        terrain,
        centre,
        army,
        shores,
    })
}

/// A power by its name and its table: `home` and `units`, and no other keys.
#[tactic(auto, unfolding(crate::specs::Files::power_at))]
fn power_of<'a>(alloc: Global, name: &'a str, value: &'a Value) -> Result<PowerDraft<'a>, MapFault>
    ensures { Gives (λ p. p) result (power_at name.now (view value.now)) }
{
    let fields = table_in(value)?;
    let codes = field_of(fields, "home")?;
    let home = codes_of(alloc, codes)?;
    let standings = field_of(fields, "units")?;
    let units = units_of(alloc, standings)?;
    if is_power_name(name) && has_keys_among(fields, &["home", "units"]) {
        return Ok(PowerDraft { name, home, units });
    }
    Err(MapFault::WrongField)
}

/// The provinces that the file states, in its order.
fn provinces_of(alloc: Global, lands: &Table) -> Result<Vec<ProvinceDraft<'_>>, MapFault>
    ensures { Gives (λ v. v.items) result (each_member province_at (table_view lands.now)) }
{
    let mut provinces = Vec::new(alloc);
    for (code, value) in lands.iter() {
        let province = province_of(alloc, code.as_str(), value)?;
        provinces.push(province)?;
    }
    Ok(provinces)
}

/// The powers that the file states, in its order.
fn powers_of(alloc: Global, realms: &Table) -> Result<Vec<PowerDraft<'_>>, MapFault>
    ensures { Gives (λ v. v.items) result (each_member power_at (table_view realms.now)) }
{
    let mut powers = Vec::new(alloc);
    for (name, value) in realms.iter() {
        let power = power_of(alloc, name.as_str(), value)?;
        powers.push(power)?;
    }
    Ok(powers)
}

/// All that a map's file writes; `WrongField` where a field is missing, isn't known, or is of the wrong type or form.
#[tactic(auto, unfolding(crate::specs::Files::draft_at))]
pub fn draft_of(alloc: Global, file: &Table) -> Result<Draft<'_>, MapFault>
    ensures { Gives (λ d. d) result (draft_at (table_view file.now)) }
{
    let name = text_of(file, "name")?;
    let realms = table_of(file, "powers")?;
    let powers = powers_of(alloc, realms)?;
    let lands = table_of(file, "provinces")?;
    let provinces = provinces_of(alloc, lands)?;
    if !has_keys_among(file, &["name", "powers", "provinces"]) {
        return Err(MapFault::WrongField);
    }
    Ok(Draft {
        name,
        powers,
        provinces,
    })
}
