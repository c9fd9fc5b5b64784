//! The numbers among the options' values.
ghost use Rattle.std.specs.Prelude.{◌≡◌, ◌≤◌, ℕ, IfSome, IfNone};
ghost use Rattle.std.specs.Fmt.{decimal};

/// The number from 1 to the greatest one that the text is, in decimal digits, the first of them not 0.
pub fn number_of(text: &str, most: u32) -> Option<u32>
    ensures some { IfSome result (λ n. (text.now ≡ decimal n) × (1 ≤ n) × (n ≤ most)) }
    ensures none { IfNone result ((n : ℕ) → text.now ≡ decimal n → 1 ≤ n → n ≤ most → ⊥) }
{
    let bytes = text.as_bytes();
    if bytes.is_empty() {
        return None;
    }
    if bytes[0] < b'1' {
        return None;
    }
    let Ok(number) = text.parse::<u32>() else {
        return None;
    };
    if most < number {
        return None;
    }
    Some(number)
}
