//! Papers in which no phase is played: notices and draws.
ghost use Rattle.std.specs.Prelude.{◌≡◌, ◌++◌, IfOk, OnOk, string_bytes};
ghost use Rattle.dip_letters.specs.Views.{notice_request, texts_in};
ghost use Rattle.dip_reports.specs.Texts.{draw_paper, marked_lines, notice_lines, notice_paper};
ghost use Rattle.dip_desk_state.specs.Rows as rows;

use crate::game_line::GAME_ROOM;
use crate::paper_parts::{push_marked_line, push_paper_end, push_paper_title};
use dip_desk_state::Public;
use dip_letters::{Notice, Texts};
use dip_map::Map;
use std::alloc::{AllocError, Global};

/// Appends the lines of an announcement, each after its mark.
fn push_announcement(text: Texts<'_>, out: &mut String) -> Result<(), AllocError>
    ensures { OnOk result
        (string_bytes out.new ≡ string_bytes out.old ++ marked_lines (texts_in text.entry)) }
{
    for line in text {
        push_marked_line(line, out)?;
    }
    Ok(())
}

/// Appends the lines of a notice, each after its mark: the announcement, or what was done with the game.
fn push_notice(notice: Notice<'_>, out: &mut String) -> Result<(), AllocError>
    ensures { OnOk result
        (string_bytes out.new ≡ string_bytes out.old ++ marked_lines
        (notice_lines (notice_request notice.entry))) }
{
    match notice {
        Notice::Pause => push_marked_line("paused", out),
        Notice::Resume => push_marked_line("resumed", out),
        Notice::Period(period) => write!(out, "> period {period}\n"),
        Notice::Announce(text) => push_announcement(text, out),
        Notice::Close => push_marked_line("closed", out),
    }
}

/// The paper of a notice: its title, what the notice makes known, and the public part after it.
pub fn notice_paper_text(
    alloc: Global,
    map: &Map,
    notice: Notice<'_>,
    public: &Public,
) -> Result<String, AllocError>
    ensures { IfOk result
        (λ text. string_bytes text ≡ notice_paper map.now (notice_request notice.entry)
        (rows.public public.now)) }
{
    let mut out = String::with_capacity(alloc, GAME_ROOM)?;
    push_paper_title(public.papers, "notice", &mut out)?;
    push_notice(notice, &mut out)?;
    push_paper_end(alloc, map, public, &mut out)?;
    Ok(out)
}

/// The paper of a draw: its title and the public part after it, whose status names those who share
/// it.
pub fn draw_paper_text(alloc: Global, map: &Map, public: &Public) -> Result<String, AllocError>
    ensures { IfOk result
        (λ text. string_bytes text ≡ draw_paper map.now (rows.public public.now)) }
{
    let mut out = String::with_capacity(alloc, GAME_ROOM)?;
    push_paper_title(public.papers, "draw", &mut out)?;
    push_paper_end(alloc, map, public, &mut out)?;
    Ok(out)
}
