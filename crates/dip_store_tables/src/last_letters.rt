//! The last letter of an author.
ghost use Rattle.std.specs.Prelude.{◌≡◌, ◌++◌, codes, List, ℕ, IfOk, IfSome, IfNone, option_map};
ghost use Rattle.dip_desk_state.specs.Rows as rows;
ghost use Rattle.dip_store_tables.specs.Reading.{kept_of, reply_lines};
ghost use Rattle.dip_store_tables.specs.Columns.{IsPrinted};

use crate::cuts::cut_at;
use dip_desk_state::Kept;
use std::alloc::{AllocError, Global};
use std::rc::Rc;

/// The lines of a printed reply, which stand after its first line and before its `END`; none where it hasn't both.
#[tactic(auto, using(crate::proofs::KeptLines::lines_told, crate::proofs::KeptLines::no_line, crate::proofs::KeptLines::no_end))]
fn lines_of(printed: &str) -> Option<&str>
    ensures value { IfSome result (λ t. t.now ≡ reply_lines printed.now) }
    ensures none { IfNone result (IsPrinted printed.now → ⊥) }
{
    let (_, more) = cut_at(printed, '\n')?;
    before_end(more)
}

/// What stands before `END`, the last line.
fn before_end(text: &str) -> Option<&str>
    ensures some { IfSome result (λ t. text.now ≡ t.now ++ codes "END\n") }
    ensures none { IfNone result ((t : List ℕ) → text.now ≡ t ++ codes "END\n" → ⊥) }
{
    text.strip_suffix("END\n")
}

/// An author's last letter, by its number, the SHA-256 of its bytes and its printed reply; none of it before the first letter,
/// whose number is then 0. None where the reply isn't a printed one.
///
/// # Errors
/// Want of memory.
pub fn read_kept(
    alloc: Global,
    last: u32,
    sum: [u8; 32],
    printed: &str,
) -> Result<Option<Option<Kept>>, AllocError>
    ensures value { IfOk result (λ o. IfSome o (λ k.
        option_map rows.kept k ≡ kept_of last sum printed.now)) }
    ensures none { IfOk result (λ o. IfNone o (IsPrinted printed.now → ⊥)) }
{
    if last == 0 {
        return Ok(Some(None));
    }
    let Some(lines) = lines_of(printed) else {
        return Ok(None);
    };
    let reply = Rc::new(alloc, String::from_str(alloc, lines)?)?;
    Ok(Some(Some(Kept {
        number: last,
        sum,
        reply,
    })))
}
