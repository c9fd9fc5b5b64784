//! What is done over a store: a desk is made, letters are answered, clients served, a game's papers written out.
ghost use Rattle.dip_judge.specs.Commands.{AnswersStored, DoesStored, MakesDesk, ReportsStored, ServesStored};

use dip_desk_machine::lawful_states_stay_lawful;
use dip_http::{Routes, serve_all};
use dip_judge_runs::run_file;
use dip_judge_system::{Failure, System};
use dip_letters::digest;
use dip_map::Map;
use dip_store::{SqlKeeper, StoreFault};
use sqlite::{Alter, Connection};
use std::alloc::Global;
use std::io::{Read, Write};

/// What is done over a store.
#[derive(Clone, Copy)]
pub(crate) enum StoreCommand<'a> {
    /// A desk is made, whose master has this secret.
    Init { master: &'a str },
    /// Letters are answered.
    Letters,
    /// So many clients are served on this port.
    Serve { port: u16, count: u32 },
    /// All papers of this game are written.
    Report { game: &'a str },
}

/// Makes a desk in an empty store, whose master has this secret, for the map of this text. The store is handed back.
///
/// # Errors
/// The store's fault, and what it has committed is as it was.
pub fn make_desk<S: Alter>(
    alloc: Global,
    store: Connection<S>,
    map: &Map,
    text: &str,
    master: &str,
) -> (Result<(), StoreFault>, Connection<S>)
    ensures { MakesDesk S.Store map.now text.now master.now store result.1 result.0 }
{
    let digest = digest("desk", "master", master);
    match SqlKeeper::create(alloc, store, map, text, &digest) {
        Ok(keeper) => (Ok(()), keeper.into_store()),
        Err((fault, store)) => (Err(fault), store),
    }
}

/// Answers the letters of a reader from the desk of a store on, which was made for the map of this text. The store is handed back.
///
/// # Errors
/// The store's fault, and nothing is read or written; else a fault of the run over the letters.
pub fn answer_stored<S: Alter, R: Read, W: Write>(
    alloc: Global,
    store: Connection<S>,
    map: &Map,
    text: &str,
    reader: &mut R,
    writer: &mut W,
) -> (Result<(), Failure>, Connection<S>)
    ensures { AnswersStored S.Store map.now text.now store result.1 (R.remaining reader.old)
        (R.remaining reader.new) (W.contents writer.old) (W.contents writer.new) result.0 }
{
    lawful_states_stay_lawful(map);
    match SqlKeeper::open(alloc, store, map, text) {
        Err((cause, store)) => (Err(Failure::Store(cause)), store),
        Ok(mut keeper) => match run_file(alloc, reader, writer, &mut keeper, map) {
            Ok(()) => (Ok(()), keeper.into_store()),
            Err(fault) => (Err(Failure::Run(fault)), keeper.into_store()),
        },
    }
}

/// Writes all papers of a game of a store, whose desk was made for the map of this text, in their order. The store is handed back.
///
/// # Errors
/// The store's fault; there is no such game; else why the papers weren't all written.
pub fn report_stored<S: Alter, W: Write>(
    alloc: Global,
    store: Connection<S>,
    map: &Map,
    text: &str,
    game: &str,
    writer: &mut W,
) -> (Result<(), Failure>, Connection<S>)
    ensures { ReportsStored S.Store map.now text.now game.now store result.1
        (W.contents writer.old) (W.contents writer.new) result.0 }
{
    match SqlKeeper::open(alloc, store, map, text) {
        Err((fault, store)) => (Err(Failure::Store(fault)), store),
        Ok(mut keeper) => match keeper.write_papers(map, game, writer) {
            Ok(Some(_)) => (Ok(()), keeper.into_store()),
            Ok(None) => (Err(Failure::NoGame), keeper.into_store()),
            Err(fault) => (Err(Failure::Papers(fault)), keeper.into_store()),
        },
    }
}

/// Serves so many clients on this port of 127.0.0.1, one after the other, from the desk of a store on, which was made for the map of
/// this text. Standard error has a line once the port is listened on. The store is handed back.
///
/// # Errors
/// The store's fault; want of memory; the port can't be listened on; else the keeper's fault, `Disk` or `Damaged`.
fn serve_stored<S: Alter>(
    system: &System<'_>,
    store: Connection<S>,
    map: &Map,
    text: &str,
    port: u16,
    count: u32,
) -> (Result<(), Failure>, Connection<S>)
    ensures { ServesStored S.Store map.now text.now count store result.1 result.0 }
{
    let alloc = system.alloc();
    lawful_states_stay_lawful(map);
    match SqlKeeper::open(alloc, store, map, text) {
        Err((fault, store)) => (Err(Failure::Store(fault)), store),
        Ok(mut keeper) => {
            let Ok(routes) = Routes::new(alloc) else {
                return (Err(Failure::NoMemory), keeper.into_store());
            };
            match system.listen_on(port) {
                Err(_) => (Err(Failure::Listen), keeper.into_store()),
                Ok(listener) => {
                    match serve_all(alloc, system, &listener, count, &mut keeper, map, &routes) {
                        Ok(()) => (Ok(()), keeper.into_store()),
                        Err(fault) => (Err(Failure::Serving(fault)), keeper.into_store()),
                    }
                }
            }
        }
    }
}

/// Does a command over a store, for the map of this text. The store is handed back.
///
/// # Errors
/// Those of the call that does it.
pub(crate) fn do_stored<S: Alter, R: Read, W: Write>(
    system: &System<'_>,
    store: Connection<S>,
    command: StoreCommand<'_>,
    map: &Map,
    text: &str,
    reader: &mut R,
    writer: &mut W,
) -> (Result<(), Failure>, Connection<S>)
    ensures { DoesStored S.Store map.now text.now (R.remaining reader.old)
        (R.remaining reader.new) (W.contents writer.old) (W.contents writer.new) command.entry
        store result.1 result.0 }
{
    let alloc = system.alloc();
    match command {
        StoreCommand::Init { master } => match make_desk(alloc, store, map, text, master) {
            (Ok(()), store) => (Ok(()), store),
            (Err(fault), store) => (Err(Failure::Store(fault)), store),
        },
        StoreCommand::Letters => answer_stored(alloc, store, map, text, reader, writer),
        StoreCommand::Serve { port, count } => {
            serve_stored(system, store, map, text, port, count)
        }
        StoreCommand::Report { game } => report_stored(alloc, store, map, text, game, writer),
    }
}
