//! What the program does with its words: over any files, input and output.
ghost use Rattle.std.specs.Prelude.{map as each, IfErr, OnOk};
ghost use Rattle.sqlite.specs.Files.{over_files};
ghost use Rattle.sqlite.specs.WalFiles.{image_at};
ghost use Rattle.dip_judge.specs.Asked.{IsDone, IsFailed};
ghost use Rattle.dip_judge.specs.OverFiles.{DoesAsAsked, DoesAsked};

use crate::checking::{check, explain};
use crate::files::{close_file, do_over_file};
use crate::stored::StoreCommand;
use dip_judge_runs::{answer_letters, text_said};
use dip_judge_system::{Failure, Stored, System, write_version};
use dip_judge_words::{Args, read_args};
use dip_map::Map;
use dip_map_text::STANDARD;
use sqlite::Start;
use std::io::{Read, Write};

/// Does what is asked for, over a map of which this is the text.
fn do_asked<S: Start, R: Read, W: Write>(
    system: &System<'_>,
    start: S,
    args: &Args<'_>,
    map: &Map,
    text: &str,
    reader: &mut R,
    writer: &mut W,
) -> (Result<(), Failure>, Option<Stored<S>>)
    ensures { DoesAsked over_files (image_at S.Start) map.now text.now (R.remaining reader.old)
        (R.remaining reader.new) (W.contents writer.old) (W.contents writer.new) args.now result.0
        result.1 }
{
    match args {
        Args::Init { store, master, .. } => {
            let command = StoreCommand::Init { master };
            do_over_file(system, start, store, command, map, text, reader, writer)
        }
        Args::Letters { master, .. } => {
            match answer_letters(system.alloc(), reader, writer, master, map) {
                Ok(()) => (Ok(()), None),
                Err(fault) => (Err(Failure::Run(fault)), None),
            }
        }
        Args::LettersOver { store, .. } => {
            let command = StoreCommand::Letters;
            do_over_file(system, start, store, command, map, text, reader, writer)
        }
        Args::Serve {
            store,
            port,
            count,
            ..
        } => {
            let command = StoreCommand::Serve {
                port: *port,
                count: *count,
            };
            do_over_file(system, start, store, command, map, text, reader, writer)
        }
        Args::Report { store, game, .. } => {
            let command = StoreCommand::Report { game };
            do_over_file(system, start, store, command, map, text, reader, writer)
        }
        Args::Check { .. } => (check(system.alloc(), reader, writer, system, map), None),
        Args::Explain { paper, .. } => (explain(system.alloc(), reader, writer, map, *paper), None),
        Args::Version => (write_version(writer), None),
    }
}

/// Does what the words ask for, of which the first is the program's own name, over the map of the file that is named, or the standard
/// map: makes a desk in a store; answers the letters of the reader, from a fresh desk in memory or from a store's desk on; serves
/// clients; writes a game's papers; checks the papers that the reader has, or explains one; or writes what the program is. The store is
/// that of the file that is named, which held at first what `start` says; it is handed back where it was opened.
///
/// # Errors
/// The first of: what is wrong with the words, with the map's file, with the map; and nothing is read or written. Else what is wrong
/// with the store, the port, the game, the input or the output.
pub fn do_as_asked<S: Start, R: Read, W: Write>(
    system: &System<'_>,
    start: S,
    words: &[&str],
    reader: &mut R,
    writer: &mut W,
) -> (Result<(), Failure>, Option<Stored<S>>)
    ensures { DoesAsAsked over_files (image_at S.Start) STANDARD.now
        (each (λ w. w.now) words.entry.now) (R.remaining reader.old) (R.remaining reader.new)
        (W.contents writer.old) (W.contents writer.new) result.0 result.1 }
{
    let alloc = system.alloc();
    match read_args(alloc, words) {
        Err(fault) => (Err(Failure::Usage(fault)), None),
        Ok(args) => match system.read_map(args.map()) {
            Err(fault) => (Err(Failure::Map(fault)), None),
            Ok((map, said)) => {
                do_asked(system, start, &args, &map, text_said(&said), reader, writer)
            }
        },
    }
}

/// Does what the words ask for, and closes the store's file.
///
/// # Errors
/// Those of `do_as_asked`.
pub fn run_as_asked<S: Start, R: Read, W: Write>(
    system: &System<'_>,
    start: S,
    words: &[&str],
    reader: &mut R,
    writer: &mut W,
) -> Result<(), Failure>
    ensures done { OnOk result (IsDone STANDARD.now (each (λ w. w.now) words.entry.now)
        (R.remaining reader.old) (R.remaining reader.new) (W.contents writer.old)
        (W.contents writer.new)) }
    ensures failed { IfErr result (IsFailed STANDARD.now (each (λ w. w.now) words.entry.now)
        (R.remaining reader.old) (R.remaining reader.new) (W.contents writer.old)
        (W.contents writer.new)) }
{
    let (outcome, store) = do_as_asked(system, start, words, reader, writer);
    if let Some(store) = store {
        close_file(store);
    }
    outcome
}
