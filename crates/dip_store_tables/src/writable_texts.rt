//! Whether words and lines can be found again in one text.
ghost use Rattle.std.specs.Prelude.{◌↔◌, IsTrue, string_bytes};
ghost use Rattle.std.specs.List.{AllByRecursion};
ghost use Rattle.dip_desk_state.specs.ChangeRows as desk_rows;
ghost use Rattle.dip_desk_state.specs.Rows as rows;
ghost use Rattle.dip_desk_state.specs.Writable.{IsPlainItem, IsWord, Lacks};

use dip_desk_state::Item;

/// Whether the byte doesn't stand in the text.
pub(crate) fn lacks(text: &str, byte: u8) -> bool
    ensures { IsTrue result ↔ Lacks byte text.now }
{
    text.as_bytes().iter().all(|b| *b != byte)
}

/// Whether the text is a word: it has a byte, and none is the space.
fn is_word(text: &str) -> bool
    ensures { IsTrue result ↔ IsWord 32 text.now }
{
    !text.is_empty() && lacks(text, b' ')
}

/// Whether each text is a word.
fn are_words(texts: &[String]) -> bool
    ensures { IsTrue result ↔ AllByRecursion (λ t. IsWord 32 (string_bytes t)) texts.now }
{
    texts.iter().all(|text| is_word(text.as_str()))
}

/// Whether no text has a line end.
fn are_lines(texts: &[String]) -> bool
    ensures { IsTrue result ↔ AllByRecursion (λ t. Lacks 10 (string_bytes t)) texts.now }
{
    texts.iter().all(|text| lacks(text.as_str(), b'\n'))
}

/// Whether the addressees of an item are words, and its lines have no line end.
pub(crate) fn is_plain(item: &Item) -> bool
    ensures { IsTrue result ↔ IsPlainItem (rows.item item.now) }
{
    match item {
        Item::White {
            addressees,
            text,
            ..
        } => are_words(addressees.as_slice()) && are_lines(text.as_slice()),
        Item::Grey { text, .. } => are_lines(text.as_slice()),
    }
}
