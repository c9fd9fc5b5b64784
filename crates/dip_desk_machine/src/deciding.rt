//! What is decided of a letter of a seat, by what the seat sees alone.
ghost use Rattle.std.specs.Prelude.{◌≡◌, Some, IfOk, IsErrOf, true};
ghost use Rattle.dip_letters.specs.Views.{player_request};
ghost use Rattle.dip_desk_games.specs.Ordering.{has_foreign};
ghost use Rattle.dip_desk_games.specs.Verdicts.{verdict};
ghost use Rattle.dip_desk_machine.specs.Mail.{mail};
ghost use Rattle.dip_desk_machine.specs.Machine as m;
ghost use Rattle.dip_desk_state.specs.Faults.{faults_after};
ghost use Rattle.dip_desk_state.specs.Rows as rows;

use crate::numbers::old_number;
use crate::ordering::{orders_in_game, withdraw_verdict};
use crate::pressing::press_verdict;
use crate::voting::{plain_vote, vote_for_verdict, vote_verdict};
use dip_desk_games::{Verdict, refusal_verdict};
use dip_desk_state::{Effect, Item, KeepFault, Own, Public};
use dip_letters::{Command, Letter, PlayerCommand};
use dip_map::Map;
use dip_reports::{Refusal, inbox_text, show_text};
use std::alloc::Global;
use std::rc::Rc;

/// What a command of a power comes to, by what its seat sees alone; the page is of its inbox, where the command shows one.
fn player_verdict(
    alloc: Global,
    map: &Map,
    command: &PlayerCommand<'_>,
    public: &Public,
    own: &Own,
    page: &[Rc<Item>],
) -> Result<Verdict, KeepFault>
    ensures value { IfOk result
        (λ v. verdict v ≡ m.player_verdict map.now (player_request command.now)
        (rows.public public.now) (rows.own own.now) (rows.items page.now)) }
    ensures disk { faults_after result 0 ≡ 0 }
    ensures sane { IsErrOf result KeepFault.Damaged
        → has_foreign map.now public.now.board.value own.now.power
        (rows.standings own.now.pending.items) ≡ true }
{
    match command {
        PlayerCommand::Orders(lines) => orders_in_game(alloc, map, public, own, *lines),
        PlayerCommand::Withdraw => Ok(withdraw_verdict(alloc, public, own)?),
        PlayerCommand::Press(press) => Ok(press_verdict(alloc, map, press, public, own)?),
        PlayerCommand::Vote(draw) => Ok(vote_verdict(alloc, map, public, plain_vote(*draw))?),
        PlayerCommand::VoteFor(names) => Ok(vote_for_verdict(alloc, map, public, *names)?),
        PlayerCommand::Show => {
            let text = show_text(alloc, map, public, own)?;
            Ok(Verdict::Taken(text, Effect::Nothing))
        }
        PlayerCommand::Inbox(first) => {
            let text = inbox_text(alloc, own.items, *first, page)?;
            Ok(Verdict::Taken(text, Effect::Nothing))
        }
    }
}

/// The verdict on a seat's letter. A number that isn't above the last one gets the old answer or is
/// refused; a new letter's command is decided by what the seat sees alone, and a command of the
/// master's is refused.
pub fn seat_verdict(
    alloc: Global,
    map: &Map,
    letter: &Letter<'_>,
    public: &Public,
    own: &Own,
    page: &[Rc<Item>],
) -> Result<Verdict, KeepFault>
    ensures value { IfOk result (λ v. verdict v
        ≡ m.seat_verdict map.now (mail letter.now) (rows.public public.now) (rows.own own.now)
        (rows.items page.now)) }
    ensures disk { faults_after result 0 ≡ 0 }
    ensures sane { IsErrOf result KeepFault.Damaged
        → m.IsForeignTo map.now (Some (rows.public public.now)) (Some (rows.own own.now)) }
{
    if let Some(old) = old_number(alloc, letter, &own.kept)? {
        return Ok(old);
    }
    match &letter.command {
        Command::Player(command) => player_verdict(alloc, map, command, public, own, page),
        Command::Master(_) => Ok(refusal_verdict(alloc, Refusal::WrongSender)?),
    }
}
