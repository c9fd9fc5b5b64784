//! Clients over a socket, one after the other.
ghost use Rattle.dip_http.specs.Serving.{MeetsNext, ServesAll};

use crate::client::serve_one;
use crate::faults::HttpFault;
use crate::laws::connections_are_turns;
use dip_desk_keeper::Keeper;
use dip_desk_machine::published_movements_are_decided;
use dip_desk_state::KeepFault;
use dip_http_messages::Routes;
use dip_map::Map;
use std::alloc::Global;
use std::net::TcpListener;
use std::time::Clock;

/// Serves the next client. What is wrong with a client, or with taking its call, ends nothing.
///
/// # Errors
/// The keeper's fault, but for want of memory, which the client is told of.
fn serve_next<C: Clock, K: Keeper>(
    alloc: Global,
    clock: &C,
    listener: &TcpListener,
    keeper: &mut K,
    map: &Map,
    routes: &Routes,
) -> Result<(), KeepFault>
    ensures { MeetsNext map.now K.book keeper.old keeper.new result }
{
    let Ok((stream, _)) = listener.accept() else {
        return Ok(());
    };
    match serve_one(alloc, clock, &stream, keeper, map, routes) {
        Ok(()) => Ok(()),
        Err(HttpFault::Read) => Ok(()),
        Err(HttpFault::Write) => Ok(()),
        Err(HttpFault::Memory) => Ok(()),
        Err(HttpFault::Keep(KeepFault::Memory)) => Ok(()),
        Err(HttpFault::Keep(KeepFault::Disk)) => Err(KeepFault::Disk),
        Err(HttpFault::Keep(KeepFault::Damaged)) => Err(KeepFault::Damaged),
    }
}

/// Serves so many clients, one after the other; a client whose call can't be taken counts. The letters that they post make one history, whose
/// replies their answers carry.
///
/// # Errors
/// The keeper's fault, `Disk` or `Damaged`, and then no further client is served.
pub fn serve_all<C: Clock, K: Keeper>(
    alloc: Global,
    clock: &C,
    listener: &TcpListener,
    count: u32,
    keeper: &mut K,
    map: &Map,
    routes: &Routes,
) -> Result<(), KeepFault>
    ensures { ServesAll map.now K.book count keeper.old keeper.new result }
{
    connections_are_turns();
    published_movements_are_decided();
    let mut served = 0;
    'clients: while served < count {
        serve_next(alloc, clock, listener, keeper, map, routes)?;
        served += 1;
    }
    Ok(())
}
