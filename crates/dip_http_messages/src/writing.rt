//! The bytes of an answer. Nothing here takes memory, so that a letter that was taken is answered.
ghost use Rattle.std.specs.Prelude.{◌≡◌, ◌++◌, OnOk, OnErr, length, option_map};
ghost use Rattle.std.specs.List.{flat_map};
ghost use Rattle.std.specs.Io.KnownBytes.{Appends};
ghost use Rattle.dip_http_messages.specs.Answers.{IsPart, allow_field, head_of};
ghost use Rattle.dip_http_messages.specs.AnswerViews.{answer_text, head_text};

use dip_streams::write_texts;
use http::StatusCode;
use itoa::Buffer;
use std::io::Write;

/// The writer failed; it may have taken a beginning of the bytes.
#[derive(Clone, Copy, Debug, PartialEq, Eq)]
pub struct Unwritten;

/// What is answered, but for its body.
#[derive(Clone, Copy)]
pub struct Answer {
    pub status: StatusCode,
    /// What the field Content-Type says: `application/json` of a game, `text/plain` of all else.
    pub kind: &'static str,
    /// The methods that are allowed, where another one was used.
    pub allow: Option<&'static str>,
    /// Whether the body is left out; its length is told all the same.
    pub quiet: bool,
}

/// Writes pieces one after the other, or a beginning of them.
fn write_pieces<W: Write>(writer: &mut W, pieces: &[&str]) -> Result<(), Unwritten>
    ensures ok { OnOk result (Appends (W.contents writer.old) (W.contents writer.new)
        (flat_map (λ t. t.now) pieces.entry.now)) }
    ensures err { OnErr result (IsPart (W.contents writer.old) (W.contents writer.new)
        (flat_map (λ t. t.now) pieces.entry.now)) }
{
    match write_texts(writer, pieces) {
        Ok(()) => Ok(()),
        Err(_) => Err(Unwritten),
    }
}

/// How many bytes texts have together: a number of 128 bits, since one text may stand many times.
fn size_of(texts: &[&str]) -> u128
    ensures { result ≡ length (flat_map (λ t. t.now) texts.entry.now) }
{
    let mut size = 0;
    'texts: for text in texts {
        size += text.len() as u128;
    }
    size
}

/// The status line and the fields of an answer, to the empty line, in pieces: of its status in digits, its phrase, its type, its size in
/// digits, and the field Allow by its name and its methods.
fn head_pieces<'a>(
    status: &'a str,
    phrase: &'a str,
    kind: &'a str,
    size: &'a str,
    allow: (&'a str, &'a str),
) -> [&'a str; 11]
    ensures { flat_map (λ piece. piece.now) result ≡ head_of status.entry.now phrase.entry.now
        kind.entry.now size.entry.now (allow.entry.0.now ++ allow.entry.1.now) }
{
    let (name, methods) = allow;
    [
        "HTTP/1.1 ",
        status,
        " ",
        phrase,
        "\r\nContent-Type: ",
        kind,
        "\r\nContent-Length: ",
        size,
        name,
        methods,
        "\r\nConnection: close\r\n\r\n",
    ]
}

/// The field Allow by its name and its methods; nothing where there are none.
fn allow_pieces(allow: Option<&'static str>) -> (&'static str, &'static str)
    ensures { result.0.now ++ result.1.now ≡ allow_field (option_map (λ m. m.now) allow.entry) }
{
    match allow {
        None => ("", ""),
        Some(methods) => ("\r\nAllow: ", methods),
    }
}

fn write_head<W: Write>(writer: &mut W, answer: &Answer, size: u128) -> Result<(), Unwritten>
    ensures ok { OnOk result (Appends (W.contents writer.old) (W.contents writer.new)
        (head_text answer.now size)) }
    ensures err { OnErr result (IsPart (W.contents writer.old) (W.contents writer.new)
        (head_text answer.now size)) }
{
    let mut code = Buffer::new();
    let mut digits = Buffer::new();
    let status = code.format(answer.status.as_u16());
    let phrase = answer.status.canonical_reason().unwrap_or("");
    let length = digits.format(size);
    let allow = allow_pieces(answer.allow);
    write_pieces(
        writer,
        &head_pieces(status, phrase, answer.kind, length, allow),
    )
}

/// Writes an answer with its body in pieces, or a beginning of it.
pub fn write_answer<W: Write>(
    writer: &mut W,
    answer: &Answer,
    body: &[&str],
) -> Result<(), Unwritten>
    ensures ok { OnOk result (Appends (W.contents writer.old) (W.contents writer.new)
        (answer_text answer.now (flat_map (λ t. t.now) body.entry.now))) }
    ensures err { OnErr result (IsPart (W.contents writer.old) (W.contents writer.new)
        (answer_text answer.now (flat_map (λ t. t.now) body.entry.now))) }
{
    write_head(writer, answer, size_of(body))?;
    if answer.quiet {
        return Ok(());
    }
    write_pieces(writer, body)
}
