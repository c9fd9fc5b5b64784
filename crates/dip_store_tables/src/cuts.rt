//! A text cut at its spaces or its line ends.
ghost use Rattle.std.specs.Prelude.{◌≡◌, ◌<◌, ◌++◌, ◌∷◌, IfNone, IfOk, IfSome};
ghost use Rattle.dip_desk_state.specs.Writable.{Lacks};
ghost use Rattle.dip_desk_state.specs.Rows as rows;
ghost use Rattle.dip_store_tables.specs.Texts.{pieces};

use std::alloc::{AllocError, Global};

/// What stands before the first such mark, and what stands after it.
pub(crate) fn cut_at(text: &str, mark: char) -> Option<(&str, &str)>
    requires { mark < 128 }
    ensures some { IfSome result (λ p.
        Lacks mark p.0.now × (text.now ≡ p.0.now ++ mark ∷ p.1.now)) }
    ensures none { IfNone result (Lacks mark text.now) }
{
    text.split_once(mark)
}

/// What stands before each such mark, and what stands after the last, if anything does.
#[tactic(auto, using(crate::proofs::Cutting::turn, crate::proofs::Cutting::last))]
pub(crate) fn pieces_of(alloc: Global, text: &str, mark: char) -> Result<Vec<String>, AllocError>
    requires { mark < 128 }
    ensures { IfOk result (λ v. rows.lines v.items ≡ pieces mark text.now) }
{
    let mut found = Vec::new(alloc);
    let mut rest = text;
    while let Some((piece, more)) = cut_at(rest, mark) {
        found.push(String::from_str(alloc, piece)?)?;
        rest = more;
    }
    if rest.is_empty() {
        return Ok(found);
    }
    found.push(String::from_str(alloc, rest)?)?;
    Ok(found)
}
