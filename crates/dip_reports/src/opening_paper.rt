//! The opening paper.
ghost use Rattle.std.specs.Prelude.{◌≡◌, IfOk, string_bytes};
ghost use Rattle.dip_reports.specs.Texts.{opening_paper};
ghost use Rattle.dip_desk_state.specs.Rows as rows;

use crate::game_line::GAME_ROOM;
use crate::paper_parts::push_paper_end;
use dip_desk_state::Public;
use dip_map::Map;
use std::alloc::{AllocError, Global};

/// The text of a game's first paper.
pub fn opening_paper_text(alloc: Global, map: &Map, public: &Public) -> Result<String, AllocError>
    ensures { IfOk result
        (λ text. string_bytes text ≡ opening_paper map.now (rows.public public.now)) }
{
    let mut out = String::with_capacity(alloc, GAME_ROOM)?;
    out.push_str("PAPER 1 opening\n")?;
    push_paper_end(alloc, map, public, &mut out)?;
    Ok(out)
}
