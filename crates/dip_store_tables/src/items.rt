//! Items of an inbox.
ghost use Rattle.std.specs.Prelude.{◌≡◌, IfOk};
ghost use Rattle.dip_desk_state.specs.Rows as rows;
ghost use Rattle.dip_store_tables.specs.Reading.{item_of};

use crate::cuts::pieces_of;
use dip_desk_state::Item;
use std::alloc::{AllocError, Global};
use std::marker::Model;

/// A row of the boxes' table, without its game, its power and its number.
///
/// Grey press is told by 1, and has no writer; its addressees are `all` or `you`.
#[derive(Drop)]
pub struct ItemColumns {
    pub grey: u32,
    pub writer: String,
    pub addressees: String,
    pub body: String,
}

impl Model for ItemColumns {
    ghost use Rattle.std.specs.Prelude.{string_bytes, []};
    ghost use Rattle.dip_store_rows.specs.Tables.{BoxRow};

    ghost Value = { BoxRow };

    ghost view = { λ r. record { game = []; power = []; number = 0; grey = r.grey; writer = string_bytes r.writer; addressees = string_bytes r.addressees; body = string_bytes r.body } };
}

/// The item of a row. Its lines are those of the body, its addressees the words between spaces.
///
/// # Errors
/// Want of memory.
pub fn read_item(alloc: Global, row: ItemColumns) -> Result<Item, AllocError>
    ensures { IfOk result (λ i. rows.item i ≡ item_of row) }
{
    let text = pieces_of(alloc, row.body.as_str(), '\n')?;
    if row.grey == 1 {
        return Ok(Item::Grey {
            to_all: row.addressees.as_str() == "all",
            text,
        });
    }
    Ok(Item::White {
        writer: row.writer,
        addressees: pieces_of(alloc, row.addressees.as_str(), ' ')?,
        text,
    })
}
