//! What a notice of the master changes of a game.
ghost use Rattle.std.specs.Prelude.{◌≡◌, ◌<◌, IfOk};
ghost use Rattle.dip_letters.specs.Views.{notice_request};
ghost use Rattle.dip_desk_state.specs.Bounds.{most_papers};
ghost use Rattle.dip_desk_games.specs.Noting as n;
ghost use Rattle.dip_desk_state.specs.Rows as rows;

use dip_desk_state::{Public, Status};
use dip_letters::Notice;
use std::alloc::{AllocError, Global};

/// How a game stands after the notice.
fn status_noted(alloc: Global, notice: &Notice<'_>, status: &Status) -> Result<Status, AllocError>
    ensures { IfOk result
        (λ s. rows.status s
        ≡ n.status_noted (notice_request notice.now) (rows.status status.now)) }
{
    match notice {
        Notice::Pause => Ok(Status::Paused),
        Notice::Resume => Ok(Status::Running),
        Notice::Close => Ok(Status::Closed),
        Notice::Period(_) | Notice::Announce(_) => status.copy(alloc),
    }
}

/// The ticks from one due tick to the next after the notice.
fn period_noted(notice: &Notice<'_>, period: u32) -> u32
    ensures { result ≡ n.period_noted (notice_request notice.now) period }
{
    match notice {
        Notice::Period(period) => *period,
        Notice::Pause | Notice::Resume | Notice::Announce(_) | Notice::Close => period,
    }
}

/// The public part after the notice.
pub fn public_noted(
    alloc: Global,
    notice: &Notice<'_>,
    public: &Public,
) -> Result<Public, AllocError>
    requires { public.now.papers < most_papers }
    ensures { IfOk result
        (λ p. rows.public p
        ≡ n.public_noted (notice_request notice.now) (rows.public public.now)) }
{
    Ok(Public {
        game: public.game.clone()?,
        board: public.board.clone()?,
        status: status_noted(alloc, notice, &public.status)?,
        due: public.due,
        period: period_noted(notice, public.period),
        grey: public.grey,
        papers: public.papers + 1,
    })
}
