//! A run over a reader and a writer: letters in, replies out.
ghost use Rattle.std.specs.Prelude.{◌≡◌, ◌<◌, ◌⊎◌, ℕ, List, IfOk, IfErr, IfSome, IfNone, OnOk, OnErr, IsErrOf, length, take as first};
ghost use Rattle.std.specs.Io.KnownBytes.{Appends};
ghost use Rattle.dip_letters.specs.Input.{IsNext};
ghost use Rattle.dip_desk_state.specs.Texts.{reply_text};
ghost use Rattle.dip_desk_state.specs.Rows as rows;
ghost use Rattle.dip_judge_runs.specs.Names.{run_name};
ghost use Rattle.dip_judge_runs.specs.Runs.{AnswersNext, FailsNext, IsReadWhole};
ghost use Rattle.dip_judge_runs.specs.RunFaults.{AnswersInput, IsReadingFault, RunsFile};

use crate::reading::{ReadFault, read_whole};
use dip_desk::{fault_reply, take};
use dip_desk_keeper::Keeper;
use dip_desk_machine::{lawful_states_stay_lawful, published_movements_are_decided};
use dip_desk_state::{KeepFault, Reply, reply_pieces, reply_text};
use dip_letters::{Next, next_letter};
use dip_map::Map;
use dip_streams::{write_text, write_texts};
use itoa::Buffer;
use std::alloc::Global;
use std::error::Error;
use std::fmt;
use std::io::{Read, Write};

/// The most bytes of an input, 16 MiB: of a longer one no letter is taken.
pub const MOST_INPUT: usize = 16_777_216;

/// Why a run ended early.
#[derive(Clone, Copy, Debug, PartialEq, Eq)]
pub enum RunFault {
    /// The reader failed, otherwise than by a signal that interrupts it; no letter was taken.
    Read,
    /// The input has more than `MOST_INPUT` bytes; no letter was taken.
    TooLong,
    /// The writer failed, otherwise than by a signal that interrupts it; what was taken stays taken.
    Write,
    /// Memory ran out, either for the input, and then no letter was taken, or between two letters.
    Memory,
    /// The keeper gave no answer to a letter, which wasn't taken.
    Keep(KeepFault),
}

impl RunFault {
    /// The fault's name, as the program tells it: a keeper's fault has its own.
    pub fn name(self) -> &'static str
        ensures { result.now ≡ run_name self }
    {
        match self {
            RunFault::Read => "Read",
            RunFault::TooLong => "TooLong",
            RunFault::Write => "Write",
            RunFault::Memory => "Memory",
            RunFault::Keep(fault) => fault.name(),
        }
    }
}

impl fmt::Display for RunFault {
    ghost use Rattle.std.specs.Prelude.{Some};

    ghost output = { λ fault. Some (run_name fault) };

    fn fmt<W: fmt::Write>(&self, f: &mut fmt::Formatter<W>) -> fmt::Result {
        f.write_str(self.name())
    }
}

impl Error for RunFault {}

/// All that the reader has, at most `MOST_INPUT` bytes.
///
/// # Errors
/// `Read`, `TooLong` or `Memory`.
pub fn read_input<R: Read>(alloc: Global, reader: &mut R) -> Result<Vec<u8>, RunFault>
    ensures whole { IfOk result
        (λ v. IsReadWhole (R.remaining reader.old) (R.remaining reader.new) v.items) }
    ensures long { IsErrOf result RunFault.TooLong
        → IfSome (R.remaining reader.old) (λ input. MOST_INPUT < length input) }
    ensures faults { IfErr result IsReadingFault }
{
    match read_whole(alloc, reader, MOST_INPUT) {
        Ok(input) => Ok(input),
        Err(ReadFault::Read) => Err(RunFault::Read),
        Err(ReadFault::TooLong) => Err(RunFault::TooLong),
        Err(ReadFault::Memory) => Err(RunFault::Memory),
    }
}

/// Writes all of a text, or a beginning of it.
fn write_piece<W: Write>(writer: &mut W, text: &[u8]) -> Result<(), RunFault>
    ensures ok { OnOk result (Appends (W.contents writer.old) (W.contents writer.new) text.now) }
    ensures err { OnErr result
        ((size : ℕ)
        × Appends (W.contents writer.old) (W.contents writer.new) (first size text.now)) }
    ensures fault { IfErr result (λ f. f ≡ RunFault.Write) }
{
    match write_text(writer, text) {
        Ok(()) => Ok(()),
        Err(_) => Err(RunFault::Write),
    }
}

/// Writes a reply, or a beginning of it, piece by piece. It needs no memory, so a letter that was taken is answered.
fn write_pieces<W: Write>(writer: &mut W, reply: &Reply) -> Result<(), RunFault>
    ensures ok { OnOk result (Appends (W.contents writer.old) (W.contents writer.new)
        (reply_text (rows.reply reply.now))) }
    ensures err { OnErr result ((size : ℕ) × Appends (W.contents writer.old) (W.contents writer.new)
        (first size (reply_text (rows.reply reply.now)))) }
    ensures fault { IfErr result (λ f. f ≡ RunFault.Write) }
{
    let mut digits = Buffer::new();
    match write_texts(writer, &reply_pieces(reply, &mut digits)) {
        Ok(()) => Ok(()),
        Err(_) => Err(RunFault::Write),
    }
}

/// Writes a reply, or a beginning of it: in one write where there is room for its text and the writer takes it whole.
fn write_reply<W: Write>(alloc: Global, writer: &mut W, reply: &Reply) -> Result<(), RunFault>
    ensures ok { OnOk result (Appends (W.contents writer.old) (W.contents writer.new)
        (reply_text (rows.reply reply.now))) }
    ensures err { OnErr result ((size : ℕ) × Appends (W.contents writer.old) (W.contents writer.new)
        (first size (reply_text (rows.reply reply.now)))) }
    ensures fault { IfErr result (λ f. f ≡ RunFault.Write) }
{
    match reply_text(alloc, reply) {
        Ok(text) => write_piece(writer, text.as_bytes()),
        Err(_) => write_pieces(writer, reply),
    }
}

/// Answers what stands next in the input, and gives what is after it.
fn step<'a, K: Keeper>(
    alloc: Global,
    keeper: &mut K,
    map: &Map,
    input: &'a [u8],
) -> Result<Option<(Reply, &'a [u8])>, RunFault>
    ensures answered { IfOk result (λ o. IfSome o (λ p. AnswersNext map.now K.book
        input.entry.now keeper.old keeper.new p.0 p.1.now)) }
    ensures shorter { IfOk result (λ o. IfSome o (λ p. length p.1.now < length input.entry.now)) }
    ensures none { IfOk result
        (λ o. IfNone o (IsNext input.entry.now Next.End × (keeper.new ≡ keeper.old))) }
    ensures failed { IfErr result
        (FailsNext map.now K.book input.entry.now keeper.old keeper.new) }
{
    match next_letter(input) {
        Next::End => Ok(None),
        Next::Fault(fault, rest) => match fault_reply(alloc, fault) {
            Ok(reply) => Ok(Some((reply, rest))),
            Err(_) => Err(RunFault::Memory),
        },
        Next::Taken(letter, rest) => match take(alloc, keeper, map, &letter) {
            Ok(reply) => Ok(Some((reply, rest))),
            Err(fault) => Err(RunFault::Keep(fault)),
        },
    }
}

/// Takes each letter of an input, and writes its reply before the next.
fn answer_all<W: Write, K: Keeper>(
    alloc: Global,
    input: &[u8],
    writer: &mut W,
    keeper: &mut K,
    map: &Map,
) -> Result<(), RunFault>
    ensures { AnswersInput map.now K.book input.now keeper.old keeper.new
        (W.contents writer.old) (W.contents writer.new) result }
{
    lawful_states_stay_lawful(map);
    published_movements_are_decided();
    let mut rest = input;
    'letters: loop {
        match step(alloc, keeper, map, rest)? {
            None => return Ok(()),
            Some((reply, after)) => {
                write_reply(alloc, writer, &reply)?;
                rest = after;
            }
        }
    }
}

/// Reads the whole input, and then takes each letter and writes its reply before the next.
///
/// A letter is taken only once the whole input was read and is no longer than `MOST_INPUT`.
pub fn run_file<R: Read, W: Write, K: Keeper>(
    alloc: Global,
    reader: &mut R,
    writer: &mut W,
    keeper: &mut K,
    map: &Map,
) -> Result<(), RunFault>
    ensures { RunsFile map.now K.book (R.remaining reader.old) (R.remaining reader.new) keeper.old
        keeper.new (W.contents writer.old) (W.contents writer.new) result }
{
    let input = read_input(alloc, reader)?;
    answer_all(alloc, input.as_slice(), writer, keeper, map)
}
