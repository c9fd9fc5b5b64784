//! How a connection ends: what is written last.
ghost use Rattle.std.specs.Prelude.{◌≡◌, false, None, IfErr, OnErr, OnOk};
ghost use Rattle.std.specs.List.{flat_map};
ghost use Rattle.std.specs.Io.KnownBytes.{Appends};
ghost use Rattle.dip_desk_state.specs.Rows as rows;
ghost use Rattle.dip_desk_state.specs.Texts.{reply_text};
ghost use Rattle.dip_http_messages.specs.Answers.{IsPart, answer_bytes, plain, refusal};
ghost use Rattle.dip_http_messages.specs.AnswerViews.{allowed, status_number};

use crate::faults::HttpFault;
use dip_desk_state::{KeepFault, Reply, reply_pieces};
use dip_http_messages::{Answer, HttpRefusal, write_answer};
use http::StatusCode;
use itoa::Buffer;
use std::io::Write;

/// Writes a refusal as a whole answer; a quiet one leaves its body out. The only fault is the
/// writer's, which may leave a beginning of the answer.
pub fn refuse<W: Write>(writer: &mut W, why: HttpRefusal, quiet: bool) -> Result<(), HttpFault>
    ensures ok { OnOk result (Appends (W.contents writer.old) (W.contents writer.new)
        (refusal (status_number why) (allowed why) quiet)) }
    ensures err { OnErr result (IsPart (W.contents writer.old) (W.contents writer.new)
        (refusal (status_number why) (allowed why) quiet)) }
    ensures fault { IfErr result (λ f. f ≡ HttpFault.Write) }
{
    let answer = Answer {
        status: why.status(),
        kind: "text/plain",
        allow: why.allow(),
        quiet,
    };
    match write_answer(writer, &answer, &[why.body()]) {
        Ok(()) => Ok(()),
        Err(_) => Err(HttpFault::Write),
    }
}

/// Writes what was asked for, or a reply.
pub fn write_found<W: Write>(
    writer: &mut W,
    status: StatusCode,
    kind: &'static str,
    quiet: bool,
    body: &[&str],
) -> Result<(), HttpFault>
    ensures ok { OnOk result (Appends (W.contents writer.old) (W.contents writer.new)
        (answer_bytes status kind.now None quiet (flat_map (λ t. t.now) body.entry.now))) }
    ensures err { OnErr result (IsPart (W.contents writer.old) (W.contents writer.new)
        (answer_bytes status kind.now None quiet (flat_map (λ t. t.now) body.entry.now))) }
    ensures fault { IfErr result (λ f. f ≡ HttpFault.Write) }
{
    let answer = Answer {
        status,
        kind,
        allow: None,
        quiet,
    };
    match write_answer(writer, &answer, body) {
        Ok(()) => Ok(()),
        Err(_) => Err(HttpFault::Write),
    }
}

/// Writes a reply. It takes no memory, so that a letter that was taken is answered.
pub fn write_reply<W: Write>(
    writer: &mut W,
    status: StatusCode,
    reply: &Reply,
) -> Result<(), HttpFault>
    ensures ok { OnOk result (Appends (W.contents writer.old) (W.contents writer.new)
        (answer_bytes status plain None false (reply_text (rows.reply reply.now)))) }
    ensures err { OnErr result (IsPart (W.contents writer.old) (W.contents writer.new)
        (answer_bytes status plain None false (reply_text (rows.reply reply.now)))) }
    ensures fault { IfErr result (λ f. f ≡ HttpFault.Write) }
{
    let mut digits = Buffer::new();
    let pieces = reply_pieces(reply, &mut digits);
    write_found(writer, status, "text/plain", false, &pieces)
}

/// Says that the keeper gave no answer; its fault is told, whether or not that could be written.
pub fn unavailable<W: Write>(writer: &mut W, quiet: bool, fault: KeepFault) -> HttpFault
    ensures fault { result ≡ HttpFault.Keep fault }
    ensures written { IsPart (W.contents writer.old) (W.contents writer.new)
        (refusal 503 None quiet) }
{
    let _ = refuse(writer, HttpRefusal::Unavailable, quiet);
    HttpFault::Keep(fault)
}
