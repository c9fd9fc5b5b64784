//! What POST is answered: the letter that is its body is taken.
ghost use Rattle.std.specs.Prelude.{◌≡◌, ◌++◌, ◌⊎◌, ℕ, List, IfErr, IfNone, IfSome, IsErrOf, OnOk, false};
ghost use Rattle.dip_desk_machine.specs.Lawful.{IsLawful};
ghost use Rattle.dip_desk_machine.specs.Mail.{IsMail, Mail, mail};
ghost use Rattle.dip_desk_state.specs.State.{State};
ghost use Rattle.dip_http.specs.Answering.{IsOneLetter, status_of};
ghost use Rattle.dip_http.specs.Ends.{PostsTo, PostsToPart, ReadsBody, ReadsBodyPart, Responds, TakesBody, TakesMail};

use crate::endings::{refuse, unavailable, write_reply};
use crate::faults::HttpFault;
use dip_desk::{fault_reply, take};
use dip_desk_keeper::Keeper;
use dip_desk_machine::lawful_states_stay_lawful;
use dip_desk_state::{KeepFault, Outcome};
use dip_http_messages::HttpRefusal;
use dip_letters::{Letter, LetterFault, Next, next_letter, one_answer};
use dip_map::Map;
use dip_streams::{ReadFault, read_body};
use http::StatusCode;
use std::alloc::Global;
use std::io::{Read, Write};

/// The letter that a body is; `None` where it isn't one letter with nothing but empty lines around it.
fn letter_in(body: &[u8]) -> Option<Letter<'_>>
    ensures mail { IfSome result (λ l. IsMail (mail l)) }
    ensures some { IfSome result (λ l. IsOneLetter body.entry.now (mail l)) }
    ensures none { IfNone result ((n : Mail) → IsOneLetter body.entry.now n → ⊥) }
{
    one_answer();
    match next_letter(body) {
        Next::Taken(letter, rest) => match next_letter(rest) {
            Next::End => Some(letter),
            Next::Taken(_, _) | Next::Fault(_, _) => None,
        },
        Next::Fault(_, _) | Next::End => None,
    }
}

/// The status of a reply: 200 where the letter was done or refused by the rules, 403 where nobody
/// is known as its author, and 409 where its number is out of turn.
fn status_of(outcome: Outcome) -> StatusCode
    ensures { result ≡ status_of outcome }
{
    match outcome {
        Outcome::Done => StatusCode::OK,
        Outcome::Unknown => StatusCode::FORBIDDEN,
        Outcome::OutOfTurn => StatusCode::CONFLICT,
    }
}

/// Takes the letter that a body is, and writes its reply; any other body is answered as no letter.
fn take_body<W: Write, K: Keeper>(
    alloc: Global,
    writer: &mut W,
    keeper: &mut K,
    map: &Map,
    body: &[u8],
) -> Result<(), HttpFault>
    ensures { Responds map.now K.book false keeper.old keeper.new
        (W.contents writer.old) (W.contents writer.new)
        (λ s t. PostsTo map.now body.now s t (W.contents writer.old) (W.contents writer.new))
        (λ f s t. PostsToPart map.now f body.now s t (W.contents writer.old)
        (W.contents writer.new)) (λ s t. TakesMail map.now body.now s t) result }
{
    lawful_states_stay_lawful(map);
    match letter_in(body) {
        None => match fault_reply(alloc, LetterFault::Malformed) {
            Err(_) => Err(HttpFault::Memory),
            Ok(reply) => write_reply(writer, StatusCode::BAD_REQUEST, &reply),
        },
        Some(letter) => match take(alloc, keeper, map, &letter) {
            Err(fault) => Err(unavailable(writer, false, fault)),
            Ok(reply) => write_reply(writer, status_of(reply.outcome), &reply),
        },
    }
}

/// Reads a body of this size, which begins with what was read after the head, and takes the letter that it is; where the input ends
/// before, nothing is taken.
pub fn take_letter<R: Read, W: Write, K: Keeper>(
    alloc: Global,
    reader: &mut R,
    writer: &mut W,
    keeper: &mut K,
    map: &Map,
    start: &[u8],
    size: usize,
) -> Result<(), HttpFault>
    ensures { Responds map.now K.book false keeper.old keeper.new
        (W.contents writer.old) (W.contents writer.new)
        (λ s t. ReadsBody map.now size start.now (R.remaining reader.old) s t
        (W.contents writer.old) (W.contents writer.new))
        (λ f s t. ReadsBodyPart map.now f size start.now (R.remaining reader.old) s t
        (W.contents writer.old) (W.contents writer.new))
        (λ s t. TakesBody map.now size start.now (R.remaining reader.old) s t) result }
{
    match read_body(alloc, reader, start, size) {
        Err(ReadFault::Read) => Err(HttpFault::Read),
        Err(ReadFault::Memory) => Err(HttpFault::Memory),
        Ok(None) => refuse(writer, HttpRefusal::BadRequest, false),
        Ok(Some(body)) => take_body(alloc, writer, keeper, map, body.as_slice()),
    }
}
