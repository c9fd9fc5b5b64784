//! Parts of a form: kinds, codes, places, units.
ghost use Rattle.std.specs.Prelude.{◌≡◌};
ghost use Rattle.dip_orders_lines.specs.Reading.{is_any_case, letter_at, code_at, coast_at, spot_at, kind_at, mention_at};
ghost use Rattle.dip_orders_lines.specs.Forms.{small};

use crate::forms::{Mention, Spot};
use dip_names::Kind;

/// The small letter that a byte is, of either case.
fn letter_of(b: u8) -> Option<u8>
    ensures { result ≡ letter_at b }
{
    let small = b.to_ascii_lowercase();
    if small.is_ascii_lowercase() {
        Some(small)
    } else {
        None
    }
}

/// The code that three bytes spell.
fn code_of(a: u8, b: u8, c: u8) -> Option<[u8; 3]>
    ensures { result ≡ code_at a b c }
{
    let a = letter_of(a)?;
    let b = letter_of(b)?;
    let c = letter_of(c)?;
    Some([a, b, c])
}

/// The coast that two bytes spell.
fn coast_of(a: u8, b: u8) -> Option<[u8; 2]>
    ensures { result ≡ coast_at a b }
{
    let a = letter_of(a)?;
    let b = letter_of(b)?;
    Some([a, b])
}

/// The place that a token is, if it is one.
pub fn spot_of(token: &[u8]) -> Option<Spot>
    ensures { result ≡ spot_at token.now }
{
    match token {
        [a, b, c] => {
            let code = code_of(*a, *b, *c)?;
            Some(Spot { code, coast: None })
        }
        [a, b, c, slash, d, e] => {
            if *slash != b'/' {
                return None;
            }
            let code = code_of(*a, *b, *c)?;
            let coast = coast_of(*d, *e)?;
            Some(Spot {
                code,
                coast: Some(coast),
            })
        }
        _ => None,
    }
}

/// Whether a token is this word, whatever the case.
pub fn is_any_case(token: &[u8], word: &[u8]) -> bool
    ensures { result ≡ is_any_case token.now (small word.now) }
{
    token.eq_ignore_ascii_case(word)
}

/// The kind of unit that a word names.
fn kind_of(token: &[u8]) -> Option<Kind>
    ensures { result ≡ kind_at token.now }
{
    if is_any_case(token, b"a") {
        return Some(Kind::Army);
    }
    if is_any_case(token, b"f") {
        return Some(Kind::Fleet);
    }
    None
}

/// The unit that two tokens are, if they are one.
pub fn mention_of(kind: &[u8], at: &[u8]) -> Option<Mention>
    ensures { result ≡ mention_at kind.now at.now }
{
    let kind = kind_of(kind)?;
    let at = spot_of(at)?;
    Some(Mention { kind, at })
}
