//! Looking up what the author of a letter sees, and deciding by that.
ghost use Rattle.std.specs.Prelude.{◌≡◌, ◌<◌, Some, IfOk, IsErrOf, length, true};
ghost use Rattle.dip_desk_keeper.specs.Keeping.{Looks};
ghost use Rattle.dip_desk.specs.Looked.{DecidedFor, DecidesBy, IsOpened, is_of_seat, seat_seen};
ghost use Rattle.dip_letters.specs.Views.{request};
ghost use Rattle.dip_desk_machine.specs.Machine.{IsDamagedSight, IsTimely, master_sight, power_sight, sight_of};
ghost use Rattle.dip_desk_machine.specs.Mail.{mail};
ghost use Rattle.dip_desk_machine.specs.Verdicts.{verdict};
ghost use Rattle.dip_desk_state.specs.ChangeRows as desk_rows;
ghost use Rattle.dip_desk_state.specs.Faults.{faults_after};
ghost use Rattle.dip_desk_state.specs.Rows as rows;

use crate::views::{MasterView, SeatView, opens};
use dip_desk_keeper::Keeper;
use dip_desk_machine::{Verdict, seat_verdict};
use dip_desk_state::{Author, Item, KeepFault, Own, Public};
use dip_letters::Letter;
use dip_map::Map;
use dip_names::Power;
use std::alloc::Global;
use std::rc::Rc;

/// What a seat sees: the public part of its game, its own part, and the page of its inbox that its command shows, if it shows one.
#[derive(Drop)]
pub struct SeatSight {
    pub public: Rc<Public>,
    pub own: Own,
    pub page: Vec<Rc<Item>>,
}

/// What is decided of a letter of the master, where its secret is the master's.
fn decide_as_master<K: Keeper>(
    alloc: Global,
    view: &mut MasterView<'_, K>,
    letter: &Letter<'_>,
) -> Result<(Author, Verdict), KeepFault>
    requires { IsTimely (request letter.now.command) }
    ensures same_reference { view.new.keeper.ghost_name ≡ view.old.keeper.ghost_name }
    ensures decides { DecidesBy view.old.map.now K.book view.old.keeper.now view.new.keeper.now
        (mail letter.now) (master_sight view.old.map.now (mail letter.now)
        (K.book.content view.old.map.now view.old.keeper.now))
        (λ sight d. DecidedFor view.old.map.now (mail letter.now) sight (desk_rows.author d.0)
        (verdict d.1)) result }
{
    let desk = view.desk()?;
    if !opens(letter, "desk", "master", &desk.digest) {
        return Ok((Author::Nobody, Verdict::NotKnown));
    }
    let decided = view.verdict_of(alloc, letter, &desk.kept)?;
    Ok((Author::TheMaster, decided))
}

/// What the seat of a power sees, where the letter is the seat's.
fn look_when_opened<K: Keeper>(
    alloc: Global,
    view: &mut SeatView<'_, '_, '_, '_, K>,
) -> Result<Option<SeatSight>, KeepFault>
    requires power { view.old.power < length view.old.map.now.realms }
    requires opened { IsOpened view.old.map.now K.book
        (is_of_seat (mail view.old.letter.now) view.old.power) view.old.keeper.now }
    ensures same_reference { view.new.keeper.ghost_name ≡ view.old.keeper.ghost_name }
    ensures looks { Looks view.old.map.now K.book view.old.keeper.now view.new.keeper.now
        (λ x. is_of_seat (mail view.old.letter.now) view.old.power
        (K.book.content view.old.map.now view.old.keeper.now) ≡ true
        → seat_seen view.old.power x
        ≡ power_sight (mail view.old.letter.now) (Some view.old.power)
        (K.book.content view.old.map.now view.old.keeper.now)) ⊥ result }
{
    let Some(own) = view.own()? else {
        return Ok(None);
    };
    let page = view.page(alloc)?;
    match view.public()? {
        None => Ok(None),
        Some(public) => Ok(Some(SeatSight { public, own, page })),
    }
}

/// What the seat of a power sees, where the letter is the seat's, which is looked at first.
fn look_as_seat<K: Keeper>(
    alloc: Global,
    view: &mut SeatView<'_, '_, '_, '_, K>,
) -> Result<Option<SeatSight>, KeepFault>
    requires power { view.old.power < length view.old.map.now.realms }
    ensures same_reference { view.new.keeper.ghost_name ≡ view.old.keeper.ghost_name }
    ensures looks { Looks view.old.map.now K.book view.old.keeper.now view.new.keeper.now
        (λ x. seat_seen view.old.power x
        ≡ power_sight (mail view.old.letter.now) (Some view.old.power)
        (K.book.content view.old.map.now view.old.keeper.now)) ⊥ result }
{
    if !view.is_of_seat()? {
        return Ok(None);
    }
    look_when_opened(alloc, view)
}

/// What is decided of a letter of a seat by what it sees.
fn decide_on(
    alloc: Global,
    map: &Map,
    letter: &Letter<'_>,
    power: Power,
    sight: &Option<SeatSight>,
) -> Result<(Author, Verdict), KeepFault>
    ensures value { IfOk result
        (λ d. DecidedFor map.now (mail letter.now) (seat_seen power sight.now)
        (desk_rows.author d.0) (verdict d.1)) }
    ensures disk { faults_after result 0 ≡ 0 }
    ensures sane { IsErrOf result KeepFault.Damaged
        → IsDamagedSight map.now (mail letter.now) (seat_seen power sight.now) }
{
    match sight {
        None => Ok((Author::Nobody, Verdict::NotKnown)),
        Some(sight) => {
            let page = sight.page.as_slice();
            let decided = seat_verdict(alloc, map, letter, &sight.public, &sight.own, page)?;
            Ok((Author::Seat(power), decided))
        }
    }
}

/// Who wrote the letter, and what is decided of it by what its author sees.
pub fn decide<K: Keeper>(
    alloc: Global,
    keeper: &mut K,
    map: &Map,
    letter: &Letter<'_>,
) -> Result<(Author, Verdict), KeepFault>
    requires { IsTimely (request letter.now.command) }
    ensures { DecidesBy map.now K.book keeper.old keeper.new (mail letter.now)
        (sight_of map.now (mail letter.now) (K.book.content map.now keeper.old))
        (λ sight d. DecidedFor map.now (mail letter.now) sight (desk_rows.author d.0)
        (verdict d.1)) result }
{
    if letter.sender == "master" {
        return decide_as_master(alloc, &mut MasterView::new(keeper, map), letter);
    }
    match map.power(letter.sender) {
        None => Ok((Author::Nobody, Verdict::NotKnown)),
        Some(power) => {
            let mut view = SeatView::new(keeper, map, letter, power);
            let sight = look_as_seat(alloc, &mut view)?;
            decide_on(alloc, map, letter, power, &sight)
        }
    }
}
