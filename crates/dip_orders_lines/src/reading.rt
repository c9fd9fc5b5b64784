//! A line read as a form, by the number of its tokens.
ghost use Rattle.std.specs.Prelude.{◌≡◌, map, IfSome, IfNone};
ghost use Rattle.dip_orders_lines.specs.Reading.{three_at, four_at, five_at, six_at, seven_at, done_at, form_at};
ghost use Rattle.dip_orders_lines.specs.Forms.{Says};
ghost use Rattle.dip_orders_lines.specs.Reading.{form_in};
ghost use Rattle.dip_orders_lines.specs.declared.forms.Form.{Form};

use crate::forms::{Form, Mention};
use crate::parts::{is_any_case, mention_of, spot_of};
use crate::words::tokens;

/// The order that three words say, as `BUILD A par`, `REMOVE A par`, `A par H` or `A mun D`, if they say one.
fn three_of(a: &[u8], b: &[u8], c: &[u8]) -> Option<Form>
    ensures { result ≡ three_at a.now b.now c.now }
{
    if is_any_case(a, b"build") {
        let unit = mention_of(b, c)?;
        return Some(Form::Build { unit });
    }
    if is_any_case(a, b"remove") {
        let unit = mention_of(b, c)?;
        return Some(Form::Remove { unit });
    }
    let unit = mention_of(a, b)?;
    if is_any_case(c, b"h") {
        return Some(Form::Hold { unit });
    }
    if is_any_case(c, b"d") {
        return Some(Form::Disband { unit });
    }
    None
}

/// The order that four words say, as `A par - bur` or `A mun R boh`, if they say one.
fn four_of(unit: Mention, verb: &[u8], to: &[u8]) -> Option<Form>
    ensures { result ≡ four_at unit verb.now to.now }
{
    let to = spot_of(to)?;
    if is_any_case(verb, b"-") {
        return Some(Form::Move {
            unit,
            to,
            via: false,
        });
    }
    if is_any_case(verb, b"r") {
        return Some(Form::Retreat { unit, to });
    }
    None
}

/// The order that five words say, as `A mar S A par` or `A lon - bel VIA`, if they say one.
fn five_of(unit: Mention, verb: &[u8], a: &[u8], b: &[u8]) -> Option<Form>
    ensures { result ≡ five_at unit verb.now a.now b.now }
{
    if is_any_case(verb, b"s") {
        let other = mention_of(a, b)?;
        return Some(Form::SupportHold {
            unit,
            other,
            held: false,
        });
    }
    let to = spot_of(a)?;
    if is_any_case(verb, b"-") && is_any_case(b, b"via") {
        return Some(Form::Move {
            unit,
            to,
            via: true,
        });
    }
    None
}

/// The order that six words say, as `A mar S A par H`, if they say one.
fn six_of(unit: Mention, verb: &[u8], kind: &[u8], at: &[u8], last: &[u8]) -> Option<Form>
    ensures { result ≡ six_at unit verb.now kind.now at.now last.now }
{
    let other = mention_of(kind, at)?;
    if is_any_case(verb, b"s") && is_any_case(last, b"h") {
        return Some(Form::SupportHold {
            unit,
            other,
            held: true,
        });
    }
    None
}

/// The order that seven words say, as `A mar S A par - bur` or `F nth C A lon - bel`, if they say one.
fn seven_of(
    unit: Mention,
    verb: &[u8],
    kind: &[u8],
    at: &[u8],
    sign: &[u8],
    to: &[u8],
) -> Option<Form>
    ensures { result ≡ seven_at unit verb.now kind.now at.now sign.now to.now }
{
    let other = mention_of(kind, at)?;
    let to = spot_of(to)?;
    if !is_any_case(sign, b"-") {
        return None;
    }
    if is_any_case(verb, b"s") {
        return Some(Form::SupportMove { unit, other, to });
    }
    if is_any_case(verb, b"c") && is_any_case(kind, b"a") {
        return Some(Form::Convoy {
            unit,
            army: other.at,
            to,
        });
    }
    None
}

/// A unit, what it does, and the tokens after.
#[tactic(auto, using(crate::proofs::FormLaws::done_long))]
fn done_of(unit: Mention, verb: &[u8], behind: &[&[u8]]) -> Option<Form>
    ensures { result ≡ done_at unit verb.now (map (λ t. t.now) behind.now) }
{
    match behind {
        [to] => four_of(unit, verb, to),
        [a, b] => five_of(unit, verb, a, b),
        [kind, at, last] => six_of(unit, verb, kind, at, last),
        [kind, at, sign, to] => seven_of(unit, verb, kind, at, sign, to),
        _ => None,
    }
}

/// The form of an order that these tokens have.
fn form_of(tokens: &[&[u8]]) -> Option<Form>
    ensures { result ≡ form_at (map (λ t. t.now) tokens.now) }
{
    match tokens {
        [a, b, c] => three_of(a, b, c),
        [kind, at, verb, behind @ ..] => {
            let unit = mention_of(kind, at)?;
            done_of(unit, verb, behind)
        }
        _ => None,
    }
}

/// What a line says, if it has the form of an order.
#[tactic(auto, unfolding(crate::specs::Reading::form_in))]
pub fn form_of_line(line: &str) -> Option<Form>
    ensures value { result ≡ form_in line.now }
    ensures found { IfSome result (λ d. Says line.now d) }
    ensures none { IfNone result ((d : Form) → Says line.now d → ⊥) }
{
    match tokens(line) {
        Some(tokens) => form_of(tokens.as_slice()),
        None => None,
    }
}
