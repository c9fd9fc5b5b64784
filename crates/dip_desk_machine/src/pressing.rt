//! What PRESS comes to: whom it reaches, and what its readers are shown.
ghost use Rattle.std.specs.Prelude.{◌≡◌, ◌==◌, not, IfOk, filter, option_map, string_bytes};
ghost use Rattle.std.specs.List.{list_any};
ghost use Rattle.dip_map.specs.Charts.{powers};
ghost use Rattle.dip_letters.specs.Views.{names_in, texts_in};
ghost use Rattle.dip_desk_machine.specs.PlayerCommands as c;
ghost use Rattle.dip_desk_machine.specs.Pressing as p;
ghost use Rattle.dip_desk_games.specs.Verdicts.{verdict};
ghost use Rattle.dip_desk_state.specs.Rows as rows;

use dip_desk_games::{Verdict, is_among, is_over, refusal_verdict};
use dip_desk_state::{Effect, Item, MOST_SENT, Own, Public};
use dip_letters::{Names, Press, Texts};
use dip_map::Map;
use dip_names::Power;
use dip_reports::{Refusal, press_line};
use std::alloc::{AllocError, Global};
use std::rc::Rc;

/// The names, as texts of their own.
pub fn names_of(alloc: Global, names: Names<'_>) -> Result<Vec<String>, AllocError>
    ensures { IfOk result (λ v. rows.lines v.items ≡ names_in names.entry) }
{
    let mut found = Vec::new(alloc);
    for name in names {
        found.push(String::from_str(alloc, name)?)?;
    }
    Ok(found)
}

/// The lines, as texts of their own.
fn texts_of(alloc: Global, lines: Texts<'_>) -> Result<Vec<String>, AllocError>
    ensures { IfOk result (λ v. rows.lines v.items ≡ texts_in lines.entry) }
{
    let mut found = Vec::new(alloc);
    for line in lines {
        found.push(String::from_str(alloc, line)?)?;
    }
    Ok(found)
}

/// Whether the name stands for all other powers.
fn names_all(name: &String) -> bool
    ensures { result ≡ p.names_all (string_bytes name.now) }
{
    name.as_str() == "all"
}

/// Whether the names are `all` alone.
fn is_to_all(names: &[String]) -> bool
    ensures { result ≡ p.is_to_all (rows.lines names.now) }
{
    names.len() == 1 && names_all(&names[0])
}

/// Whether one of the names is `all`.
fn has_all(names: &[String]) -> bool
    ensures { result ≡ list_any p.names_all (rows.lines names.now) }
{
    for name in names {
        if names_all(name) {
            return true;
        }
    }
    false
}

/// Every power of the map but this one.
fn other_powers(alloc: Global, map: &Map, power: Power) -> Result<Vec<Power>, AllocError>
    ensures { IfOk result (λ v. v.items ≡ p.other_powers map.now power) }
{
    let mut others = Vec::new(alloc);
    for other in map.each_power() {
        if other != power {
            others.push(other)?;
        }
    }
    Ok(others)
}

/// The powers of these names, where each is one of the map's.
pub fn named_powers(
    alloc: Global,
    map: &Map,
    names: &[String],
) -> Result<Option<Vec<Power>>, AllocError>
    ensures { IfOk result
        (λ found. option_map (λ v. v.items) found ≡ p.named_powers map.now (rows.lines names.now)) }
{
    let mut found = Vec::new(alloc);
    for name in names {
        match map.power(name.as_str()) {
            None => return Ok(None),
            Some(power) => found.push(power)?,
        }
    }
    Ok(Some(found))
}

/// Whether no power stands twice.
pub fn are_distinct(powers: &[Power]) -> bool
    ensures { result ≡ p.are_distinct powers.now }
{
    let mut rest = powers;
    while let Some((first, more)) = rest.split_first() {
        if is_among(*first, more) {
            return false;
        }
        rest = more;
    }
    true
}

/// Whether a writer may send to these powers.
fn may_read(writer: Power, readers: &[Power]) -> bool
    ensures { result ≡ p.may_read writer readers.now }
{
    are_distinct(readers) && !is_among(writer, readers)
}

/// Whom a power's press reaches by its addressees, where they can be its readers.
fn readers_of(
    alloc: Global,
    map: &Map,
    writer: Power,
    names: &[String],
) -> Result<Option<Vec<Power>>, AllocError>
    ensures { IfOk result
        (λ found. option_map (λ v. v.items) found
        ≡ p.readers_of map.now writer (rows.lines names.now)) }
{
    if is_to_all(names) {
        return Ok(Some(other_powers(alloc, map, writer)?));
    }
    if has_all(names) {
        return Ok(None);
    }
    let Some(readers) = named_powers(alloc, map, names)? else {
        return Ok(None);
    };
    if may_read(writer, readers.as_slice()) {
        Ok(Some(readers))
    } else {
        Ok(None)
    }
}

/// What the readers are shown.
fn item_of(
    alloc: Global,
    map: &Map,
    writer: Power,
    grey: bool,
    names: Vec<String>,
    text: Vec<String>,
) -> Result<Item, AllocError>
    ensures { IfOk result
        (λ i. rows.item i ≡ p.item_of map.now writer grey (rows.lines names.items)
        (rows.lines text.items)) }
{
    if grey {
        return Ok(Item::Grey {
            to_all: is_to_all(names.as_slice()),
            text,
        });
    }
    Ok(Item::White {
        writer: String::from_str(alloc, map.power_name(writer))?,
        addressees: names,
        text,
    })
}

/// Press to these readers, where nothing stands against it.
fn press_to(
    alloc: Global,
    map: &Map,
    press: &Press<'_>,
    public: &Public,
    own: &Own,
    names: Vec<String>,
    readers: Vec<Power>,
) -> Result<Verdict, AllocError>
    ensures { IfOk result
        (λ v. verdict v ≡ c.press_to (rows.public public.now) (rows.own own.now) press.now.grey
        (p.item_of map.now own.now.power press.now.grey (rows.lines names.items)
        (texts_in press.now.text)) readers.items) }
{
    if is_over(&public.status) {
        return refusal_verdict(alloc, Refusal::GameOver);
    }
    if press.grey && !public.grey {
        return refusal_verdict(alloc, Refusal::NoGrey);
    }
    if MOST_SENT <= own.sent {
        return refusal_verdict(alloc, Refusal::QuotaUsed);
    }
    let text = texts_of(alloc, press.text)?;
    let item = item_of(alloc, map, own.power, press.grey, names, text)?;
    Ok(Verdict::Taken(
        press_line(alloc)?,
        Effect::Delivers {
            readers,
            item: Rc::new(alloc, item)?,
        },
    ))
}

/// What PRESS comes to, by the public part and the writer's own part alone.
pub fn press_verdict(
    alloc: Global,
    map: &Map,
    press: &Press<'_>,
    public: &Public,
    own: &Own,
) -> Result<Verdict, AllocError>
    ensures { IfOk result
        (λ v. verdict v ≡ c.addressed (p.readers_of map.now own.now.power
        (names_in press.now.addressees))
        (c.press_to (rows.public public.now) (rows.own own.now) press.now.grey
        (p.item_of map.now own.now.power press.now.grey (names_in press.now.addressees)
        (texts_in press.now.text)))) }
{
    let names = names_of(alloc, press.addressees)?;
    match readers_of(alloc, map, own.power, names.as_slice())? {
        None => refusal_verdict(alloc, Refusal::Malformed),
        Some(readers) => press_to(alloc, map, press, public, own, names, readers),
    }
}
