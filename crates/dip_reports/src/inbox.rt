//! What INBOX answers.
ghost use Rattle.std.specs.Prelude.{◌≡◌, ◌++◌, IfOk, OnOk, string_bytes};
ghost use Rattle.dip_reports.specs.Texts.{inbox_text, item_lines, item_text, item_title, items_text, marked_lines, spaced};
ghost use Rattle.dip_desk_state.specs.Rows as rows;

use crate::paper_parts::push_marked_line;
use dip_desk_state::Item;
use std::alloc::{AllocError, Global};
use std::rc::Rc;

/// Appends names, each after a space.
fn push_names(names: &[String], out: &mut String) -> Result<(), AllocError>
    ensures { OnOk result
        (string_bytes out.new ≡ string_bytes out.old ++ spaced (rows.lines names.now)) }
{
    for name in names {
        out.push_str(" ")?;
        out.push_str(name.as_str())?;
    }
    Ok(())
}

/// Appends the lines of a text, each after its mark.
fn push_marked(text: &[String], out: &mut String) -> Result<(), AllocError>
    ensures { OnOk result
        (string_bytes out.new ≡ string_bytes out.old ++ marked_lines (rows.lines text.now)) }
{
    for line in text {
        push_marked_line(line.as_str(), out)?;
    }
    Ok(())
}

/// Appends what its reader is told of press: white from whom and to whom, grey whether to the reader alone or to all.
fn push_title(item: &Item, out: &mut String) -> Result<(), AllocError>
    ensures { OnOk result
        (string_bytes out.new ≡ string_bytes out.old ++ item_title (rows.item item.now)) }
{
    match item {
        Item::White {
            writer,
            addressees,
            ..
        } => {
            out.push_str("white from ")?;
            out.push_str(writer.as_str())?;
            out.push_str(" to")?;
            push_names(addressees.as_slice(), out)
        }
        Item::Grey { to_all: true, .. } => out.push_str("grey to all"),
        Item::Grey { to_all: false, .. } => out.push_str("grey to you"),
    }
}

/// The lines of an item.
fn text_of(item: &Item) -> &[String]
    ensures { rows.lines result.now ≡ item_lines (rows.item item.now) }
{
    match item {
        Item::White { text, .. } => text.as_slice(),
        Item::Grey { text, .. } => text.as_slice(),
    }
}

/// Appends an item of an inbox under its number.
#[tactic(auto, unfolding(crate::specs::Texts::item_text))]
fn push_item(number: u64, item: &Item, out: &mut String) -> Result<(), AllocError>
    ensures { OnOk result
        (string_bytes out.new ≡ string_bytes out.old ++ item_text number (rows.item item.now)) }
{
    write!(out, "ITEM {number} ")?;
    push_title(item, out)?;
    out.push_str("\n")?;
    push_marked(text_of(item), out)
}

/// Appends items one after the other, numbered from this number on.
fn push_items(first: u32, items: &[Rc<Item>], out: &mut String) -> Result<(), AllocError>
    ensures { OnOk result
        (string_bytes out.new ≡ string_bytes out.old ++ items_text first (rows.items items.now)) }
{
    let first = u64::from(first);
    for (index, item) in items.iter().enumerate() {
        push_item(first + index as u64, item, out)?;
    }
    Ok(())
}

/// What INBOX answers: how many items the inbox has, and those shown. The first of these has this
/// number.
pub fn inbox_text(
    alloc: Global,
    total: u32,
    first: u32,
    items: &[Rc<Item>],
) -> Result<String, AllocError>
    ensures { IfOk result
        (λ text. string_bytes text ≡ inbox_text total first (rows.items items.now)) }
{
    let mut out = format!(in alloc; "INBOX {total}\n")?;
    push_items(first, items, &mut out)?;
    Ok(out)
}
