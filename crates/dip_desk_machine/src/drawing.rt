//! What a due tick comes to that draws a game.
ghost use Rattle.std.specs.Prelude.{◌≡◌, ◌<◌, IfOk};
ghost use Rattle.dip_desk_games.specs.Drawing as d;
ghost use Rattle.dip_desk_machine.specs.MasterCommands as c;
ghost use Rattle.dip_desk_games.specs.Verdicts.{verdict};
ghost use Rattle.dip_desk_state.specs.Bounds.{most_papers};
ghost use Rattle.dip_desk_state.specs.Rows as rows;

use dip_desk_games::Verdict;
use dip_desk_state::{Effect, Public, Status};
use dip_map::Map;
use dip_names::Power;
use dip_reports::{draw_paper_text, paper_line};
use std::alloc::{AllocError, Global};

/// A game that these powers share: its paper is published, and no phase is played.
pub fn draw_verdict(
    alloc: Global,
    map: &Map,
    public: Public,
    powers: Vec<Power>,
) -> Result<Verdict, AllocError>
    requires { public.papers < most_papers }
    ensures { IfOk result
        (λ v. verdict v
        ≡ c.draw_verdict map.now (d.public_drawn powers.items (rows.public public))) }
{
    let after = Public {
        status: Status::Drawn(powers),
        papers: public.papers + 1,
        ..public
    };
    let line = paper_line(alloc, after.papers)?;
    let paper = draw_paper_text(alloc, map, &after)?;
    Ok(Verdict::Taken(
        line,
        Effect::Publishes {
            public: after,
            paper,
            played: false,
        },
    ))
}
