//! A command over the store of a file.
ghost use Rattle.std.specs.Prelude.{IfErr, IfOk};
ghost use Rattle.sqlite.specs.Files.{IsOpened, file_state, over_files};
ghost use Rattle.sqlite.specs.Start.{FindsIn};
ghost use Rattle.sqlite.specs.State.{HasCleanDisk};
ghost use Rattle.sqlite.specs.WalFiles.{image_at};
ghost use Rattle.dip_judge.specs.OverFiles.{DoesOverFile, IsFaultOf};

use crate::stored::{StoreCommand, do_stored};
use dip_desk_machine::new_desks_are_lawful;
use dip_judge_system::{Failure, Stored, System};
use dip_map::Map;
use dip_store::StoreFault;
use sqlite::Start;
use std::io::{Read, Write};

/// Opens the store of a file: one that is there, or, where a desk is to be made in it, one that is made if it isn't.
fn open_for<S: Start>(
    system: &System<'_>,
    start: S,
    path: &str,
    command: StoreCommand<'_>,
) -> Result<Stored<S>, StoreFault>
    ensures fault { IfErr result (IsFaultOf command.entry) }
    ensures opened { IfOk result (λ c. HasCleanDisk (file_state c) → IsOpened c) }
    ensures found { IfOk result
        (λ c. HasCleanDisk (file_state c) → FindsIn (image_at S.Start) (file_state c)) }
{
    match command {
        StoreCommand::Init { .. } => system.open_new(start, path),
        StoreCommand::Letters | StoreCommand::Serve { .. } | StoreCommand::Report { .. } => {
            system.open_present(start, path)
        }
    }
}

/// Does a command over the store of a file, for the map of this text. The store is handed back where it was opened.
pub(crate) fn do_over_file<S: Start, R: Read, W: Write>(
    system: &System<'_>,
    start: S,
    path: &str,
    command: StoreCommand<'_>,
    map: &Map,
    text: &str,
    reader: &mut R,
    writer: &mut W,
) -> (Result<(), Failure>, Option<Stored<S>>)
    ensures { DoesOverFile over_files (image_at S.Start) map.now text.now (R.remaining reader.old)
        (R.remaining reader.new) (W.contents writer.old) (W.contents writer.new) command.entry
        result.0 result.1 }
{
    new_desks_are_lawful();
    match open_for(system, start, path, command) {
        Err(fault) => (Err(Failure::Store(fault)), None),
        Ok(store) => {
            let (outcome, store) = do_stored(system, store, command, map, text, reader, writer);
            (outcome, Some(store))
        }
    }
}

/// Closes a store's file. What is committed stays committed, whatever closing it comes to.
pub(crate) fn close_file<S: Start>(store: Stored<S>) {
    let _ = store.close();
}
