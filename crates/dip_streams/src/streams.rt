//! A read, a write, and texts that are written.
ghost use Rattle.std.specs.Prelude.{◌≡◌, ◌≢◌, ℕ, true, false, OnOk, OnErr, IfErr, take as first};
ghost use Rattle.std.specs.Io.{ReadsAtMost, WritesAtMost};
ghost use Rattle.std.specs.List.{flat_map};
ghost use Rattle.std.specs.Io.KnownBytes.{Appends, ReadConsumes, WriteAppends};
ghost use Rattle.std.specs.IoError.{error_kind};

use std::io;
use std::io::{ErrorKind, Read, Write};

/// How often a read or a write is tried that a signal interrupts each time.
pub const MOST_TRIES: u32 = 1_000_000;

/// Whether a call failed for a signal alone, so that it is to be made again.
fn is_interrupted(error: &io::Error) -> bool
    ensures signal { result ≡ true → error_kind error.now ≡ ErrorKind.Interrupted }
    ensures other { result ≡ false → error_kind error.now ≢ ErrorKind.Interrupted }
{
    error.kind() == ErrorKind::Interrupted
}

/// What is told of a call that was interrupted each time.
fn interrupted_too_often() -> io::Error
    ensures { error_kind result ≢ ErrorKind.Interrupted }
{
    ErrorKind::TimedOut.into()
}

/// One read into a buffer, made again where a signal interrupts it.
///
/// # Errors
/// What the reader fails with. That it was interrupted is never told: `TimedOut` where it was so each of `MOST_TRIES` times.
pub fn read_some<R: Read>(reader: &mut R, buffer: &mut [u8]) -> io::Result<usize>
    ensures bound { ReadsAtMost result buffer.new }
    ensures bytes { ReadConsumes (R.remaining reader.old) (R.remaining reader.new) result
        buffer.new }
    ensures retried { IfErr result (λ e. error_kind e ≢ ErrorKind.Interrupted) }
{
    'tries: for _ in 0..MOST_TRIES {
        match reader.read(buffer) {
            Ok(count) => return Ok(count),
            Err(error) => {
                if !is_interrupted(&error) {
                    return Err(error);
                }
            }
        }
    }
    Err(interrupted_too_often())
}

/// One write of some bytes, made again where a signal interrupts it.
fn write_some<W: Write>(writer: &mut W, bytes: &[u8]) -> io::Result<usize>
    ensures bound { WritesAtMost result bytes.now }
    ensures bytes { WriteAppends (W.contents writer.old) (W.contents writer.new) result bytes.now }
    ensures retried { IfErr result (λ e. error_kind e ≢ ErrorKind.Interrupted) }
{
    'tries: for _ in 0..MOST_TRIES {
        match writer.write(bytes) {
            Ok(count) => return Ok(count),
            Err(error) => {
                if !is_interrupted(&error) {
                    return Err(error);
                }
            }
        }
    }
    Err(interrupted_too_often())
}

/// Writes all of a text, or a beginning of it.
///
/// # Errors
/// What the writer fails with, as of `read_some`; `WriteZero` where it takes nothing of what is left.
pub fn write_text<W: Write>(writer: &mut W, text: &[u8]) -> io::Result<()>
    ensures ok { OnOk result (Appends (W.contents writer.old) (W.contents writer.new) text.now) }
    ensures err { OnErr result
        ((size : ℕ)
        × Appends (W.contents writer.old) (W.contents writer.new) (first size text.now)) }
    ensures retried { IfErr result (λ e. error_kind e ≢ ErrorKind.Interrupted) }
{
    let mut at = 0;
    'writing: while at < text.len() {
        match write_some(writer, &text[at..]) {
            Ok(0) => return Err(ErrorKind::WriteZero.into()),
            Ok(count) => at += count,
            Err(error) => return Err(error),
        }
    }
    Ok(())
}

/// Writes texts one after the other, or a beginning of them.
///
/// # Errors
/// What the writer fails with, as of `write_text`.
pub fn write_texts<W: Write>(writer: &mut W, texts: &[&str]) -> io::Result<()>
    ensures ok { OnOk result (Appends (W.contents writer.old) (W.contents writer.new)
        (flat_map (λ t. t.now) texts.entry.now)) }
    ensures err { OnErr result ((size : ℕ) × Appends (W.contents writer.old) (W.contents writer.new)
        (first size (flat_map (λ t. t.now) texts.entry.now))) }
    ensures retried { IfErr result (λ e. error_kind e ≢ ErrorKind.Interrupted) }
{
    'texts: for text in texts {
        write_text(writer, text.as_bytes())?;
    }
    Ok(())
}
