//! What REPLACE comes to: another digest for a seat that is there.
ghost use Rattle.std.specs.Prelude.{◌≡◌, IfOk};
ghost use Rattle.dip_letters.specs.Views.{seat_note};
ghost use Rattle.dip_desk_machine.specs.MasterCommands as c;
ghost use Rattle.dip_desk_games.specs.Verdicts.{verdict};

use crate::creating::new_seat;
use dip_desk_games::{Verdict, refusal_verdict};
use dip_desk_state::Effect;
use dip_letters::Seat;
use dip_map::Map;
use dip_reports::{Refusal, replaced_line};
use std::alloc::{AllocError, Global};

/// What REPLACE comes to, by whether the power that it names has a seat in the game.
pub fn replacement(
    alloc: Global,
    map: &Map,
    game: &str,
    seat: &Seat<'_>,
    is_there: bool,
) -> Result<Verdict, AllocError>
    ensures { IfOk result
        (λ v. verdict v ≡ c.replacement map.now game.now (seat_note seat.now) is_there) }
{
    if !is_there {
        return refusal_verdict(alloc, Refusal::Malformed);
    }
    match new_seat(map, game, seat) {
        None => refusal_verdict(alloc, Refusal::Malformed),
        Some(found) => {
            let line = replaced_line(alloc, seat.power)?;
            Ok(Verdict::Taken(line, Effect::Seats(found)))
        }
    }
}
