//! The paper of an announcement.
ghost use Rattle.std.specs.Prelude.{◌≡◌, ◌++◌, ◌<◌, IfOk, OnOk, [], map as each, string_bytes, true, false};
ghost use Rattle.std.specs.List.{list_all};
ghost use Rattle.dip_check_papers.specs.Checks.{IsAnnounced, IsJudgedNext};
ghost use Rattle.dip_desk_games.specs.Noting.{public_noted};
ghost use Rattle.dip_desk_state.specs.Bounds.{most_papers};
ghost use Rattle.dip_desk_state.specs.Rows as rows;
ghost use Rattle.dip_letters.specs.Letters.{FitsText};
ghost use Rattle.dip_letters.specs.Notes.NoticeRequest.{Announce};
ghost use Rattle.dip_letters.specs.Words.{is_text};
ghost use Rattle.dip_map.specs.Boards.{IsOf};
ghost use Rattle.dip_names.specs.Forms.{is_printable};
ghost use Rattle.dip_reports.specs.Texts.{marked_lines, notice_paper, paper_end};

use crate::differences::{comparison_verdict, fault_at};
use crate::titles::line_of;
use crate::verdict::{Verdict, Wanted};
use dip_desk_state::Public;
use dip_map::Map;
use dip_reports::{push_board_lines, push_game_line};
use std::alloc::{AllocError, Global};

/// The most lines of an announcement, and the most bytes of one.
const MOST_LINES: usize = 80;

const MOST_BYTES: usize = 200;

/// Whether each byte is printable.
fn are_printable(bytes: &[u8]) -> bool
    ensures { result ≡ list_all is_printable bytes.now }
{
    bytes.iter().all(|b| b' ' <= *b && *b <= b'~')
}

/// Whether a text is a line of an announcement, without its mark.
fn is_text(line: &str) -> bool
    ensures { result ≡ is_text line.now }
{
    let bytes = line.as_bytes();
    bytes.len() <= MOST_BYTES && are_printable(bytes)
}

/// Whether each line can be a line of an announced text.
fn are_texts(lines: &[&str]) -> bool
    ensures { result ≡ list_all (λ l. is_text l.now) lines.now }
{
    lines.iter().all(|line| is_text(line))
}

/// Whether these are the lines of an announcement that a letter may ask for.
fn fits(lines: &[&str]) -> bool
    ensures fit { result ≡ true → FitsText (each (λ l. l.now) lines.now) }
    ensures unfit { result ≡ false → FitsText (each (λ l. l.now) lines.now) → ⊥ }
{
    1 <= lines.len() && lines.len() <= MOST_LINES && are_texts(lines)
}

/// Appends lines, each after its mark.
fn push_marked_lines(lines: &[&str], out: &mut String) -> Result<(), AllocError>
    ensures { OnOk result (string_bytes out.new
        ≡ string_bytes out.old ++ marked_lines (each (λ l. l.now) lines.now)) }
{
    for line in lines {
        write!(out, "> {line}\n")?;
    }
    Ok(())
}

/// Appends the game line, the board lines and `END`.
fn push_paper_end(
    alloc: Global,
    map: &Map,
    after: &Public,
    out: &mut String,
) -> Result<(), AllocError>
    ensures { OnOk result (string_bytes out.new
        ≡ string_bytes out.old ++ paper_end map.now (rows.public after.now)) }
{
    push_game_line(map, after, out)?;
    push_board_lines(alloc, map, &after.board, out)?;
    out.push_str("END\n")
}

/// The paper that announces these lines, with the public part after it.
fn announcement_text(
    alloc: Global,
    map: &Map,
    lines: &[&str],
    after: &Public,
) -> Result<String, AllocError>
    ensures { IfOk result (λ text. string_bytes text
        ≡ notice_paper map.now (Announce (each (λ l. l.now) lines.now)) (rows.public after.now)) }
{
    let mut out = String::new(alloc);
    let number = after.papers;
    write!(out, "PAPER {number} notice\n")?;
    push_marked_lines(lines, &mut out)?;
    push_paper_end(alloc, map, after, &mut out)?;
    Ok(out)
}

/// The public part after an announcement, of any lines.
fn public_announced(alloc: Global, before: &Public) -> Result<Public, AllocError>
    requires { before.now.papers < most_papers }
    ensures { IfOk result (λ p. rows.public p
        ≡ public_noted (Announce []) (rows.public before.now)) }
{
    Ok(Public {
        game: before.game.clone()?,
        board: before.board.clone()?,
        status: before.status.copy(alloc)?,
        due: before.due,
        period: before.period,
        grey: before.grey,
        papers: before.papers + 1,
    })
}

/// The number, in the paper, of the first of these lines that is no line of an announcement.
fn first_unfit(lines: &[&str]) -> usize {
    let mut number: usize = 2;
    for line in lines {
        if MOST_LINES + 1 < number || !is_text(line) {
            return number;
        }
        number = number.saturating_add(1);
    }
    number
}

/// What is said of a text that is to be the paper of an announcement of these lines.
pub(crate) fn check_announcement(
    alloc: Global,
    map: &Map,
    before: &Public,
    lines: &[&str],
    text: &str,
) -> Result<Verdict, AllocError>
    requires of_map { IsOf map.now before.now.board.value }
    requires room { before.now.papers < most_papers }
    ensures { IfOk result (λ v. IsJudgedNext map.now (rows.public before.now) text.now
        (IsAnnounced map.now (rows.public before.now) (each (λ l. l.now) lines.now) text.now) v) }
{
    if !fits(lines) {
        let number = first_unfit(lines);
        let fault = fault_at(alloc, number, line_of(text, number), Wanted::AText)?;
        return Ok(Verdict::Wrong(fault));
    }
    let after = public_announced(alloc, before)?;
    let wanted = announcement_text(alloc, map, lines, &after)?;
    comparison_verdict(alloc, text, wanted.as_str(), after)
}
