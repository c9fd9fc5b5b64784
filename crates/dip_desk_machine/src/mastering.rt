//! What is decided of a letter of the master: each command by what it needs of its game, which is all that it is handed.
ghost use Rattle.std.specs.Prelude.{◌≡◌, ◌≤◌, None, IfOk, IsErrOf, option_map};
ghost use Rattle.dip_map.specs.Charts.{Chart};
ghost use Rattle.dip_letters.specs.Notes.{PlayerRequest};
ghost use Rattle.dip_letters.specs.Notes.MasterRequest.{Create, Notify, Replace, Tick};
ghost use Rattle.dip_letters.specs.Notes.Request.{Master, Player};
ghost use Rattle.dip_letters.specs.Views.{notice_request, seat_note, seats_in};
ghost use Rattle.dip_desk_state.specs.Faults.{faults_after};
ghost use Rattle.dip_desk_machine.specs.Mail.{mail};
ghost use Rattle.dip_desk_machine.specs.Machine.{IsDamagedSight, MasterDecidesBy, OfMaster};
ghost use Rattle.dip_desk_machine.specs.Sights.{game_seen, public_seen, seating_seen, whole_seen};
ghost use Rattle.dip_desk_games.specs.Verdicts.{verdict};
ghost use Rattle.dip_desk_state.specs.Rows as rows;

use crate::creating::creation;
use crate::noting::notice_verdict;
use crate::numbers::old_number;
use crate::replacing::replacement;
use crate::ticking::tick_verdict;
use dip_desk_games::{Verdict, refusal_verdict};
use dip_desk_state::{KeepFault, Kept, Public, Whole};
use dip_letters::{Letter, Notice, Opening, Seat};
use dip_map::Map;
use dip_reports::Refusal;
use std::alloc::{AllocError, Global};
use std::rc::Rc;

/// What a power's command of the master comes to, by whether there is a game: it isn't for this sender.
pub fn decide_power_command(
    alloc: Global,
    letter: &Letter<'_>,
    kept: &Option<Kept>,
    is_there: bool,
) -> Result<Verdict, AllocError>
    ensures { IfOk result
        (λ v. (m : Chart) (command : PlayerRequest) → MasterDecidesBy m (mail letter.now)
        (option_map rows.kept kept.now) (Player command) (game_seen is_there) (verdict v)) }
{
    if !is_there {
        return Ok(Verdict::NotKnown);
    }
    match old_number(alloc, letter, kept)? {
        Some(old) => Ok(old),
        None => refusal_verdict(alloc, Refusal::WrongSender),
    }
}

/// What CREATE comes to, by whether there is a game of its name.
pub fn decide_create(
    alloc: Global,
    map: &Map,
    letter: &Letter<'_>,
    kept: &Option<Kept>,
    opening: &Opening<'_>,
    is_there: bool,
) -> Result<Verdict, AllocError>
    ensures { IfOk result
        (λ v. MasterDecidesBy map.now (mail letter.now) (option_map rows.kept kept.now)
        (Master (Create opening.now.due opening.now.period opening.now.grey opening.now.intent
        (seats_in opening.now.seats))) (game_seen is_there) (verdict v)) }
{
    match old_number(alloc, letter, kept)? {
        Some(old) => Ok(old),
        None => creation(alloc, map, letter.game, opening, is_there),
    }
}

/// What TICK comes to, by all of its game, if there is one.
pub fn decide_tick(
    alloc: Global,
    map: &Map,
    letter: &Letter<'_>,
    kept: &Option<Kept>,
    tick: u64,
    whole: Option<Whole>,
) -> Result<Verdict, KeepFault>
    requires timely { tick ≤ 999999999999 }
    ensures value { IfOk result
        (λ v. MasterDecidesBy map.now (mail letter.now) (option_map rows.kept kept.now)
        (Master (Tick tick)) (whole_seen (option_map rows.whole whole)) (verdict v)) }
    ensures disk { faults_after result 0 ≡ 0 }
    ensures sane { IsErrOf result KeepFault.Damaged
        → IsDamagedSight map.now (mail letter.now)
        (OfMaster (option_map rows.kept kept.now) (whole_seen (option_map rows.whole whole))) }
{
    let Some(whole) = whole else {
        return Ok(Verdict::NotKnown);
    };
    match old_number(alloc, letter, kept)? {
        Some(old) => Ok(old),
        None => tick_verdict(alloc, map, tick, whole),
    }
}

/// What REPLACE comes to, by whether the power that it names has a seat in its game, if there is one.
pub fn decide_replace(
    alloc: Global,
    map: &Map,
    letter: &Letter<'_>,
    kept: &Option<Kept>,
    seat: &Seat<'_>,
    is_seated: Option<bool>,
) -> Result<Verdict, AllocError>
    ensures { IfOk result
        (λ v. MasterDecidesBy map.now (mail letter.now) (option_map rows.kept kept.now)
        (Master (Replace (seat_note seat.now))) (seating_seen is_seated) (verdict v)) }
{
    let Some(is_seated) = is_seated else {
        return Ok(Verdict::NotKnown);
    };
    match old_number(alloc, letter, kept)? {
        Some(old) => Ok(old),
        None => replacement(alloc, map, letter.game, seat, is_seated),
    }
}

/// What a notice comes to, by the public part of its game, if there is one.
pub fn decide_notice(
    alloc: Global,
    map: &Map,
    letter: &Letter<'_>,
    kept: &Option<Kept>,
    notice: &Notice<'_>,
    public: Option<Rc<Public>>,
) -> Result<Verdict, KeepFault>
    ensures value { IfOk result
        (λ v. MasterDecidesBy map.now (mail letter.now) (option_map rows.kept kept.now)
        (Master (Notify (notice_request notice.now)))
        (public_seen (option_map (λ p. rows.public p.value) public)) (verdict v)) }
    ensures disk { faults_after result 0 ≡ 0 }
    ensures sane { IsErrOf result KeepFault.Damaged
        → IsDamagedSight map.now (mail letter.now) (OfMaster (option_map rows.kept kept.now)
        (public_seen (option_map (λ p. rows.public p.value) public))) }
{
    let Some(public) = public else {
        return Ok(Verdict::NotKnown);
    };
    match old_number(alloc, letter, kept)? {
        Some(old) => Ok(old),
        None => notice_verdict(alloc, map, notice, &public),
    }
}
