//! The tokens of a line.
ghost use Rattle.std.specs.Prelude.{◌≡◌, ◌+◌, ◌<◌, ◌∷◌, ◌++◌, [], length, map, option_map, IfSome, IfNone};
ghost use Rattle.std.specs.Prelude.{List, ℕ};
ghost use Rattle.dip_orders_lines.specs.Tokens.{is_word_byte, Spells};
ghost use Rattle.dip_orders_lines.specs.Scan.{tokens_at, word_length, IsFront, few};

use std::marker::Model;

/// The tokens of a line, at most 8, in order: each is the slice of its span.
#[derive(Drop)]
pub struct TokenList<'a> {
    slots: [&'a [u8]; 8],
    count: usize,
}

impl<'a> Model for TokenList<'a> {
    ghost use Rattle.std.specs.Prelude.{List, ℕ, map, take, ◌≤◌};

    ghost Value = { List (List ℕ) };

    ghost view = { λ t. map (λ s. s.now) (take t.count t.slots) };

    ghost invariant = { λ t. t.count ≤ 8 };
}

impl<'a> TokenList<'a> {
    /// No tokens.
    fn new() -> TokenList<'a>
        ensures { result ≡ [] }
    {
        TokenList {
            slots: [b""; 8],
            count: 0,
        }
    }

    /// Whether eight tokens are there, which no order exceeds.
    fn is_full(&self) -> bool
        ensures { result ≡ nat_le 8 (length self.now) }
    {
        self.count >= 8
    }

    /// Adds a token at the end.
    fn push(&mut self, token: &'a [u8])
        requires { length self.old < 8 }
        ensures { self.new ≡ self.old ++ token.entry.now ∷ [] }
    {
        self.slots[self.count] = token;
        self.count += 1;
    }

    /// The tokens in the line's order.
    pub fn as_slice(&self) -> &[&'a [u8]]
        ensures { map (λ t. t.now) result.now ≡ self.now }
    {
        &self.slots[..self.count]
    }
}

ghost use Rattle.std.specs.Prelude.{nat_le};

/// What stands at the front of a text.
#[derive(Clone, Copy)]
enum Front<'a> {
    /// A token, and what is after it.
    Token(&'a [u8], &'a [u8]),
    /// Spaces alone, or nothing.
    End,
    /// A byte of no token after the spaces.
    Stray,
}

/// Whether the byte is one of a word: a letter or a slash.
fn is_word_byte(b: u8) -> bool
    ensures { result ≡ is_word_byte b }
{
    b.is_ascii_alphabetic() || b == b'/'
}

/// The text after its first spaces.
fn skip_spaces(text: &[u8]) -> &[u8]
    ensures same { tokens_at result.now ≡ tokens_at text.now }
    ensures shorter { length result.now ≤ length text.now }
    ensures starts { IfSome (slice_get result.now 0) (λ b. b ≢ 32) }
{
    let mut rest = text;
    while let [b' ', behind @ ..] = rest {
        rest = behind;
    }
    rest
}

ghost use Rattle.std.specs.Prelude.{◌≤◌, ◌≢◌, slice_get};

/// How many bytes the word has with which the text begins.
fn word_len(text: &[u8]) -> usize
    ensures value { result ≡ word_length text.now }
    ensures bound { result ≤ length text.now }
{
    let mut length = 0;
    for b in text {
        if !is_word_byte(*b) {
            return length;
        }
        length += 1;
    }
    length
}

/// The word with which the text begins, and what follows it.
fn word_front(text: &[u8]) -> Front<'_>
    requires { 1 ≤ word_length text.now }
    ensures { IsFront text.now result }
{
    let parts = text.split_at(word_len(text));
    Front::Token(parts.0, parts.1)
}

/// The token with which the text begins, and what follows it.
#[tactic(auto, using(crate::proofs::TokenLaws::word_first))]
fn front_of(text: &[u8]) -> Front<'_>
    ensures { IsFront text.now result }
{
    let text = skip_spaces(text);
    match text {
        [] => Front::End,
        [b'-', ..] => Front::Token(&text[..1], &text[1..]),
        [first, ..] => {
            if !is_word_byte(*first) {
                return Front::Stray;
            }
            word_front(text)
        }
    }
}

/// The tokens of a line; nothing where a byte is of none, or there are too many.
fn scan(line: &[u8]) -> Option<TokenList<'_>>
    ensures { option_map (λ ts. ts) result ≡ few (tokens_at line.now) }
{
    let mut found = TokenList::new();
    let mut rest = line;
    loop {
        match front_of(rest) {
            Front::End => return Some(found),
            Front::Stray => return None,
            Front::Token(token, behind) => {
                if found.is_full() {
                    return None;
                }
                found.push(token);
                rest = behind;
            }
        }
    }
}

/// The tokens of a line: words of letters and `/`, and single minus signs; spaces part them.
///
/// None where another byte stands in the line, or where there are more than 8 tokens, as in no order.
pub fn tokens(line: &str) -> Option<TokenList<'_>>
    ensures value { option_map (λ ts. ts) result ≡ few (tokens_at line.now) }
    ensures found { IfSome result (λ ts. Spells line.now ts) }
    ensures none { IfNone result ((ts : List (List ℕ)) → Spells line.now ts → 8 < length ts) }
{
    scan(line.as_bytes())
}
