//! Replies as text.
ghost use Rattle.std.specs.Prelude.{◌≡◌, IfOk, string_bytes};
ghost use Rattle.std.specs.List.{flat_map};
ghost use Rattle.dip_desk_state.specs.Texts.{reply_text};
ghost use Rattle.dip_desk_state.specs.Rows as rows;

use crate::records::Reply;
use itoa::Buffer;
use std::alloc::{AllocError, Global};

/// Bytes at first for a reply's head and its END: more than they take.
const HEAD_ROOM: usize = 64;

/// The text of a reply in pieces, from `REPLY` to the LF of `END`, for whoever has no memory for the whole; `digits` holds those of
/// the letter's number.
pub fn reply_pieces<'a>(reply: &'a Reply, digits: &'a mut Buffer) -> [&'a str; 9]
    ensures { flat_map (λ piece. piece.now) result ≡ reply_text (rows.reply reply.now) }
{
    let text = reply.text.as_str();
    match &reply.head {
        None => ["REPLY ", "nobody", " ", "0", "\n", text, "END\n", "", ""],
        Some(head) => {
            let number = digits.format(head.number);
            let game = head.game.as_str();
            let sender = head.sender.as_str();
            [
                "REPLY ", game, " ", sender, " ", number, "\n", text, "END\n",
            ]
        }
    }
}

/// The text of a reply, from `REPLY` to the LF of `END`.
pub fn reply_text(alloc: Global, reply: &Reply) -> Result<String, AllocError>
    ensures { IfOk result (λ text. string_bytes text ≡ reply_text (rows.reply reply.now)) }
{
    let mut digits = Buffer::new();
    let pieces = reply_pieces(reply, &mut digits);
    let mut out = String::with_capacity(alloc, reply.text.len().saturating_add(HEAD_ROOM))?;
    for piece in &pieces {
        out.push_str(piece)?;
    }
    Ok(out)
}
