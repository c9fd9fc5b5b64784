//! One request and its answer.
ghost use Rattle.std.specs.Prelude.{◌≡◌, ◌<◌, ◌⊎◌, ℕ, List, Option, IfErr, IsErrOf, OnOk, length, true};
ghost use Rattle.std.specs.Io.KnownBytes.{Consumes, IsAtEnd};
ghost use Rattle.dip_desk_keeper.specs.Keeping.{IsOpen};
ghost use Rattle.dip_desk_machine.specs.Lawful.{IsLawful};
ghost use Rattle.dip_desk_state.specs.State.{State};
ghost use Rattle.dip_http_messages.specs.AnswerViews.{plan_view};
ghost use Rattle.dip_http.specs.Ends.{AnswersOne, Carried, CarriedBy, Responds, TakesBy, without_body};
ghost use Rattle.dip_http_messages.specs.Fronts.{IsFront, is_decided};

use crate::endings::refuse;
use crate::faults::HttpFault;
use crate::showing::{show_game, show_paper};
use crate::taking::take_letter;
use dip_desk_keeper::Keeper;
use dip_desk_state::KeepFault;
use dip_http_messages::{Front, HttpRefusal, Plan, Routes, front_of, is_quiet, plan_of};
use dip_map::Map;
use dip_streams::{ReadFault, read_more};
use std::alloc::Global;
use std::io::{Read, Write};

/// Carries out the plan for a request.
fn carry_out<R: Read, W: Write, K: Keeper>(
    alloc: Global,
    reader: &mut R,
    writer: &mut W,
    keeper: &mut K,
    map: &Map,
    plan: Plan<'_>,
    quiet: bool,
    start: &[u8],
) -> Result<(), HttpFault>
    ensures { Responds map.now K.book (without_body (plan_view plan.entry) quiet) keeper.old
        keeper.new (W.contents writer.old) (W.contents writer.new)
        (λ s t. Carried map.now (plan_view plan.entry) quiet start.now (R.remaining reader.old) s t
        (W.contents writer.old) (W.contents writer.new))
        (λ f s t. CarriedBy map.now f (plan_view plan.entry) quiet start.now
        (R.remaining reader.old) s t (W.contents writer.old) (W.contents writer.new))
        (λ s t. TakesBy map.now (plan_view plan.entry) start.now (R.remaining reader.old) s t)
        result }
{
    match plan {
        Plan::Refuse(why) => refuse(writer, why, quiet),
        Plan::Game(name) => show_game(alloc, writer, keeper, map, quiet, name),
        Plan::Paper(name, number) => show_paper(writer, keeper, map, quiet, name, number),
        Plan::Letter(size) => take_letter(alloc, reader, writer, keeper, map, start, size),
    }
}

/// Answers the bytes that were read of a connection, by what they begin with.
fn answer_front<R: Read, W: Write, K: Keeper>(
    alloc: Global,
    reader: &mut R,
    writer: &mut W,
    keeper: &mut K,
    map: &Map,
    routes: &Routes,
    bytes: &[u8],
    front: Front<'_>,
) -> Result<(), HttpFault>
    requires some { 0 < length bytes.now }
    requires is { IsFront bytes.now front }
    requires settled { IsAtEnd (R.remaining reader.old) ⊎ (is_decided front ≡ true) }
    ensures { (known : Option (List ℕ)) → Consumes known (R.remaining reader.old) bytes.now
        → AnswersOne map.now K.book known keeper.old keeper.new
        (W.contents writer.old) (W.contents writer.new) result }
{
    match front {
        Front::Head(head) => {
            let plan = plan_of(routes, &head);
            let quiet = is_quiet(head.method);
            let start = &bytes[head.size..];
            carry_out(alloc, reader, writer, keeper, map, plan, quiet, start)
        }
        Front::More | Front::NoHead => refuse(writer, HttpRefusal::BadRequest, false),
    }
}

/// Reads one request and answers it: with what was asked for, with the reply to a letter, or with a refusal. Where the input ends before
/// its first byte, nothing is written. Bytes after the request aren't looked at.
///
/// # Errors
/// `Read` and `Memory`: nothing was written, and no letter was taken. `Write`: a beginning of the answer was written, and a letter that was
/// taken stays taken. `Keep`: no letter was taken, and a 503 was written, or a beginning of it.
pub fn answer_one<R: Read, W: Write, K: Keeper>(
    alloc: Global,
    reader: &mut R,
    writer: &mut W,
    keeper: &mut K,
    map: &Map,
    routes: &Routes,
) -> Result<(), HttpFault>
    ensures { AnswersOne map.now K.book (R.remaining reader.old) keeper.old keeper.new
        (W.contents writer.old) (W.contents writer.new) result }
{
    let mut bytes = Vec::new(alloc);
    'reading: loop {
        let count = match read_more(reader, &mut bytes) {
            Ok(count) => count,
            Err(ReadFault::Read) => return Err(HttpFault::Read),
            Err(ReadFault::Memory) => return Err(HttpFault::Memory),
        };
        if bytes.is_empty() {
            return Ok(());
        }
        let front = front_of(bytes.as_slice());
        if count == 0 || front.is_decided() {
            let bytes = bytes.as_slice();
            return answer_front(alloc, reader, writer, keeper, map, routes, bytes, front);
        }
    }
}
