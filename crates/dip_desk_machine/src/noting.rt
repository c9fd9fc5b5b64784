//! What a notice of the master comes to: a paper, and what it changes of the game.
ghost use Rattle.std.specs.Prelude.{◌≡◌, IfOk, IsErrOf};
ghost use Rattle.dip_letters.specs.Views.{notice_request};
ghost use Rattle.dip_desk_state.specs.Faults.{faults_after};
ghost use Rattle.dip_desk_machine.specs.MasterCommands as c;
ghost use Rattle.dip_desk_games.specs.Noting as n;
ghost use Rattle.dip_desk_games.specs.Verdicts.{verdict};
ghost use Rattle.dip_desk_state.specs.Rows as rows;

use dip_desk_games::{Verdict, is_over, public_noted, refusal_verdict};
use dip_desk_state::{Effect, KeepFault, MOST_PAPERS, Public};
use dip_letters::Notice;
use dip_map::Map;
use dip_reports::{Refusal, notice_paper_text, paper_line};
use std::alloc::{AllocError, Global};

/// Whether the notice is one that may come in a game that is over.
fn is_announcement(notice: &Notice<'_>) -> bool
    ensures { result ≡ n.is_announcement (notice_request notice.now) }
{
    match notice {
        Notice::Announce(_) => true,
        Notice::Pause | Notice::Resume | Notice::Period(_) | Notice::Close => false,
    }
}

/// The verdict that publishes the notice as the game's next paper. No phase is played, so that
/// orders and votes stay.
fn notice_paper_verdict(
    alloc: Global,
    map: &Map,
    notice: &Notice<'_>,
    public: Public,
) -> Result<Verdict, AllocError>
    ensures { IfOk result
        (λ v. verdict v
        ≡ c.notified map.now (notice_request notice.now) (rows.public public)) }
{
    let line = paper_line(alloc, public.papers)?;
    let paper = notice_paper_text(alloc, map, *notice, &public)?;
    Ok(Verdict::Taken(
        line,
        Effect::Publishes {
            public,
            paper,
            played: false,
        },
    ))
}

/// What a notice comes to in a game; `Damaged` where the game can't publish.
pub fn notice_verdict(
    alloc: Global,
    map: &Map,
    notice: &Notice<'_>,
    public: &Public,
) -> Result<Verdict, KeepFault>
    ensures value { IfOk result
        (λ v. verdict v
        ≡ c.notice_verdict map.now (notice_request notice.now) (rows.public public.now)) }
    ensures disk { faults_after result 0 ≡ 0 }
    ensures sane { IsErrOf result KeepFault.Damaged
        → n.CanPublish map.now (rows.public public.now) → ⊥ }
{
    if is_over(&public.status) && !is_announcement(notice) {
        return Ok(refusal_verdict(alloc, Refusal::GameOver)?);
    }
    if !public.board.is_of(map) || MOST_PAPERS <= public.papers {
        return Err(KeepFault::Damaged);
    }
    let after = public_noted(alloc, notice, public)?;
    Ok(notice_paper_verdict(alloc, map, notice, after)?)
}
