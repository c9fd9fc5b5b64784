//! The tick at which a phase was played, by the due tick that its paper prints.
ghost use Rattle.std.specs.Prelude.{◌≡◌, ◌≤◌, ◌<◌, ◌+◌, ◌^◌, ◌++◌, ◌∷◌, [], ℕ, List, Some, codes, option_map};
ghost use Rattle.std.specs.Fmt.{decimal};
ghost use Rattle.dip_letters.specs.Lines.{Lacks, cut_at};
ghost use Rattle.dip_letters.specs.Reading.{after_name};

use crate::lines::{after, word_of};
use dip_desk_state::Public;

/// The last tick that a letter may name.
pub const LAST_TICK: u64 = 999_999_999_999;

/// What is before the first U, and what is after it.
fn at_u(text: &str) -> Option<(&str, &str)>
    ensures { option_map (λ p. (p.0.now, p.1.now)) result ≡ cut_at 85 text.now }
{
    text.split_once('U')
}

/// What follows in a text where a paper has its last U; nothing where the text differs from the paper before it.
fn after_last_u<'a>(paper: &str, text: &'a str) -> Option<&'a str>
    ensures { (head tail : List ℕ) → paper.entry.now ≡ head ++ 85 ∷ tail → Lacks 85 tail
        → option_map (λ s. s.now) result ≡ after_name (head ++ 85 ∷ []) text.entry.now }
{
    let mut at = paper;
    let mut left = text;
    while let Some((before, rest)) = at_u(at) {
        let more = after(before, left)?;
        left = after("U", more)?;
        at = rest;
    }
    Some(left)
}

/// The due tick that a text prints where a paper prints its own. Its ` DUE ` has the last U of a paper: none is in its later words, in
/// names of powers or in codes.
fn due_told(paper: &str, text: &str) -> Option<u64>
    ensures { (head tail rest : List ℕ) (due : ℕ)
        → paper.now ≡ head ++ 85 ∷ tail → Lacks 85 tail
        → text.now ≡ head ++ 85 ∷ (codes "E " ++ (decimal due ++ 32 ∷ rest)) → due < 2 ^ 64
        → result ≡ Some due }
{
    let rest = after("E ", after_last_u(paper, text)?)?;
    let (number, _rest) = word_of(rest)?;
    number.parse::<u64>().ok()
}

/// The tick a period before a due tick, and at least the due one before it; the last that a letter may name where it is later.
fn tick_before(before: &Public, due: u64) -> u64
    requires { before.now.due ≤ 999999999999 }
    ensures timely { result ≤ 999999999999 }
    ensures due { before.now.due ≤ result }
    ensures period { before.now.period < 2 ^ 32 }
    ensures told { (tick : ℕ) → before.now.due ≤ tick → tick ≤ 999999999999
        → due ≡ tick + before.now.period → result ≡ tick }
{
    let tick = due.saturating_sub(u64::from(before.period));
    if tick < before.due {
        return before.due;
    }
    if LAST_TICK < tick {
        return LAST_TICK;
    }
    tick
}

/// The tick at which a phase was played, by the due tick that a text prints where this paper of the phase prints its own; the first or
/// the last where none leads to that.
pub fn tick_told(before: &Public, paper: &str, text: &str) -> u64
    requires { before.now.due ≤ 999999999999 }
    ensures timely { result ≤ 999999999999 }
    ensures due { before.now.due ≤ result }
    ensures told { (head tail rest : List ℕ) (tick : ℕ) → paper.now ≡ head ++ 85 ∷ tail
        → Lacks 85 tail → text.now
        ≡ head ++ 85 ∷ (codes "E " ++ (decimal (tick + before.now.period) ++ 32 ∷ rest))
        → before.now.due ≤ tick → tick ≤ 999999999999 → result ≡ tick }
{
    tick_before(before, due_told(paper, text).unwrap_or(0))
}
