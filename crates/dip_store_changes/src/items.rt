//! Texts of an item's columns.
ghost use Rattle.std.specs.Prelude.{◌≡◌, ◌≤◌, ◌++◌, codes, drop, length, ℕ, List, IfOk, OnOk, flat_map, string_bytes};
ghost use Rattle.dip_desk_state.specs.Rows as records;
ghost use Rattle.dip_store_tables.specs.Texts.{ended, joined};
ghost use Rattle.dip_store_tables.specs.Writing.{box_row};
ghost use Rattle.dip_store_changes.specs.Items.{boxed, readers_word};

use dip_desk_state::Item;
use std::alloc::{AllocError, Global};

/// A press item as its row has it: names in one text, and lines in another.
#[derive(Drop)]
pub struct ItemTexts {
    pub grey: bool,
    pub writer: String,
    pub addressees: String,
    pub body: String,
}

/// Appends words, each after a space.
fn push_words(words: &[String], out: &mut String) -> Result<(), AllocError>
    ensures { OnOk result (string_bytes out.new
        ≡ string_bytes out.old ++ flat_map (λ v. codes " " ++ v) (records.lines words.now)) }
{
    for word in words {
        out.push_str(" ")?;
        out.push_str(word.as_str())?;
    }
    Ok(())
}

fn rest(words: &[String]) -> &[String]
    requires { 1 ≤ length words.now }
    ensures { result.now ≡ drop 1 words.now }
{
    &words[1..]
}

/// The words with a space between any two; nothing where there are none.
#[tactic(auto, using(crate::proofs::Joining::words_none))]
fn words_text(alloc: Global, words: &[String]) -> Result<String, AllocError>
    ensures { IfOk result (λ t. string_bytes t ≡ joined 32 (records.lines words.now)) }
{
    let mut out = String::new(alloc);
    if words.len() == 0 {
        return Ok(out);
    }
    out.push_str(words[0].as_str())?;
    push_words(rest(words), &mut out)?;
    Ok(out)
}

/// The lines, each ended by LF.
fn lines_text(alloc: Global, lines: &[String]) -> Result<String, AllocError>
    ensures { IfOk result (λ t. string_bytes t ≡ ended 10 (records.lines lines.now)) }
{
    let mut out = String::new(alloc);
    for line in lines {
        out.push_str(line.as_str())?;
        out.push_str("\n")?;
    }
    Ok(out)
}

fn readers_word(to_all: bool) -> &'static str
    ensures { result.now ≡ readers_word to_all }
{
    if to_all { "all" } else { "you" }
}

/// Makes the columns of an item's row. Grey press has an empty writer, and `all` or `you` in the
/// place of its addressees.
pub fn item_texts(alloc: Global, item: &Item) -> Result<ItemTexts, AllocError>
    ensures { IfOk result (λ x. (game power : List ℕ) (number : ℕ)
        → boxed game power number x ≡ box_row game power number (records.item item.now)) }
{
    match item {
        Item::White {
            writer,
            addressees,
            text,
        } => {
            let writer = String::from_str(alloc, writer.as_str())?;
            let addressees = words_text(alloc, addressees.as_slice())?;
            let body = lines_text(alloc, text.as_slice())?;
            Ok(ItemTexts {
                grey: false,
                writer,
                addressees,
                body,
            })
        }
        Item::Grey { to_all, text } => {
            let addressees = String::from_str(alloc, readers_word(*to_all))?;
            let body = lines_text(alloc, text.as_slice())?;
            Ok(ItemTexts {
                grey: true,
                writer: String::new(alloc),
                addressees,
                body,
            })
        }
    }
}
