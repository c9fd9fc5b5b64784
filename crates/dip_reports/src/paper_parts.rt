//! What papers share: their title, the marks of a text's lines, and how they end.
ghost use Rattle.std.specs.Prelude.{◌≡◌, ◌++◌, OnOk, string_bytes};
ghost use Rattle.dip_reports.specs.Texts.{marked_line, paper_end, paper_title};
ghost use Rattle.dip_desk_state.specs.Rows as rows;

use crate::board_lines::push_board_lines;
use crate::game_line::push_game_line;
use dip_desk_state::Public;
use dip_map::Map;
use std::alloc::{AllocError, Global};

/// Appends the first line of a paper that tells of no phase: its number and its kind.
pub fn push_paper_title(number: u32, kind: &str, out: &mut String) -> Result<(), AllocError>
    ensures { OnOk result
        (string_bytes out.new ≡ string_bytes out.old ++ paper_title number kind.now) }
{
    write!(out, "PAPER {number} {kind}\n")
}

/// Appends a line of a text, after its mark.
pub fn push_marked_line(line: &str, out: &mut String) -> Result<(), AllocError>
    ensures { OnOk result (string_bytes out.new ≡ string_bytes out.old ++ marked_line line.now) }
{
    write!(out, "> {line}\n")
}

/// Appends how a paper ends: the game as it stands after it.
pub fn push_paper_end(
    alloc: Global,
    map: &Map,
    public: &Public,
    out: &mut String,
) -> Result<(), AllocError>
    ensures { OnOk result
        (string_bytes out.new ≡ string_bytes out.old ++ paper_end map.now
        (rows.public public.now)) }
{
    push_game_line(map, public, out)?;
    push_board_lines(alloc, map, &public.board, out)?;
    out.push_str("END\n")
}
