//! The paper of a notice: of a command of the master, or of an announcement.
ghost use Rattle.std.specs.Prelude.{◌≡◌, ◌<◌, ◌≤◌, ◌⊎◌, ◌∷◌, ◌++◌, [], ℕ, List, IfOk, MatchOption, codes, false};
ghost use Rattle.std.specs.Fmt.{decimal};
ghost use Rattle.dip_check_papers.specs.Checks.{IsAnnounced, IsCommand, IsJudgedNext, IsNoted};
ghost use Rattle.dip_check_papers.specs.Games.{IsNotice};
ghost use Rattle.dip_letters.specs.Notes.{NoticeRequest};
ghost use Rattle.dip_letters.specs.Notes.NoticeRequest.{Period};
ghost use Rattle.dip_reports.specs.Texts.{notice_lines};
ghost use Rattle.dip_desk_games.specs.Ticking.{is_over};
ghost use Rattle.dip_desk_state.specs.Bounds.{most_papers};
ghost use Rattle.dip_desk_state.specs.Rows as rows;
ghost use Rattle.dip_letters.specs.Views.{notice_request};
ghost use Rattle.dip_map.specs.Boards.{IsOf};
ghost use Rattle.dip_map.specs.Charts.{Chart};
ghost use Rattle.dip_desk_state.specs.Records as records;

use crate::announcing::check_announcement;
use crate::differences::comparison_verdict;
use crate::openings::LONGEST_PERIOD;
use crate::parts::{lines_of, lines_told, rest_after};
use crate::verdict::{Fault, Verdict};
use dip_desk_games::{is_over, public_noted};
use dip_desk_state::Public;
use dip_letters::Notice;
use dip_map::Map;
use dip_reports::notice_paper_text;
use std::alloc::{AllocError, Global};

/// The new period that a word says, where a letter may ask for it.
fn period_of(word: &str) -> Option<Notice<'static>>
    ensures command { MatchOption result (Unit {0}) (λ n. IsCommand (notice_request n)) }
    ensures told { (n : ℕ) → 1 ≤ n → n ≤ 999999 → word.now ≡ decimal n
        → MatchOption result ⊥ (λ r. notice_request r ≡ Period n) }
{
    match word.parse::<u32>() {
        Ok(period) => {
            if 1 <= period && period <= LONGEST_PERIOD {
                Some(Notice::Period(period))
            } else {
                None
            }
        }
        Err(_) => None,
    }
}

/// The new period that a line tells of, if it does.
fn period_told(line: &str) -> Option<Notice<'static>>
    ensures command { MatchOption result (Unit {0}) (λ n. IsCommand (notice_request n)) }
    ensures told { (n : ℕ) → 1 ≤ n → n ≤ 999999 → line.now ≡ codes "period " ++ decimal n
        → MatchOption result ⊥ (λ r. notice_request r ≡ Period n) }
{
    match rest_after("period ", line) {
        Some(word) => period_of(word),
        None => None,
    }
}

/// The command that a line tells of, if it does.
fn command_told(line: &str) -> Option<Notice<'static>>
    ensures command { MatchOption result (Unit {0}) (λ n. IsCommand (notice_request n)) }
    ensures told { (n : NoticeRequest) → IsCommand n → notice_lines n ≡ line.now ∷ []
        → MatchOption result ⊥ (λ r. notice_request r ≡ n) }
{
    if line == "paused" {
        return Some(Notice::Pause);
    }
    if line == "resumed" {
        return Some(Notice::Resume);
    }
    if line == "closed" {
        return Some(Notice::Close);
    }
    period_told(line)
}

/// What is said of a text that is to be the paper of a command in a game that isn't over.
fn check_command(
    alloc: Global,
    map: &Map,
    before: &Public,
    notice: &Notice<'_>,
    text: &str,
) -> Result<Verdict, AllocError>
    requires of_map { IsOf map.now before.now.board.value }
    requires room { before.now.papers < most_papers }
    requires command { IsCommand (notice_request notice.now) }
    requires going { is_over (rows.status before.now.status) ≡ false }
    ensures { IfOk result (λ v. IsJudgedNext map.now (rows.public before.now) text.now
        (IsNoted map.now (rows.public before.now) (notice_request notice.now) text.now) v) }
{
    let after = public_noted(alloc, notice, before)?;
    let wanted = notice_paper_text(alloc, map, *notice, &after)?;
    comparison_verdict(alloc, text, wanted.as_str(), after)
}

/// Of two faults the one whose text goes on further before it.
fn further(one: Fault, other: Fault) -> Fault {
    if one.line < other.line { other } else { one }
}

/// Of two verdicts the right one, or else the one whose text goes on further.
fn better(one: Verdict, other: Verdict) -> Verdict
    ensures { (m : Chart) (p : records.Public) (text : List ℕ) (lines : List (List ℕ))
        (n : NoticeRequest) → IsJudgedNext m p text (IsAnnounced m p lines text) one
        → IsJudgedNext m p text (IsNoted m p n text) other → IsJudgedNext m p text
        (λ new. IsAnnounced m p lines text new ⊎ IsNoted m p n text new) result }
{
    match one {
        Verdict::Right(public) => Verdict::Right(public),
        Verdict::Wrong(fault) => match other {
            Verdict::Right(public) => Verdict::Right(public),
            Verdict::Wrong(second) => Verdict::Wrong(further(fault, second)),
        },
    }
}

/// What is said of a text that is to be the paper of a notice: of a command that its one line tells of, while the game isn't over, or
/// of an announcement.
pub fn check_notice(
    alloc: Global,
    map: &Map,
    before: &Public,
    text: &str,
) -> Result<Verdict, AllocError>
    requires of_map { IsOf map.now before.now.board.value }
    requires room { before.now.papers < most_papers }
    ensures { IfOk result (λ v. IsJudgedNext map.now (rows.public before.now) text.now
        (IsNotice map.now (rows.public before.now) text.now) v) }
{
    let lines = lines_of(alloc, text)?;
    let told = lines_told(alloc, lines.as_slice())?;
    let announced = check_announcement(alloc, map, before, told.as_slice(), text)?;
    if told.len() != 1 || is_over(&before.status) {
        return Ok(announced);
    }
    match command_told(told[0]) {
        Some(notice) => {
            let commanded = check_command(alloc, map, before, &notice, text)?;
            Ok(better(announced, commanded))
        }
        None => Ok(announced),
    }
}
