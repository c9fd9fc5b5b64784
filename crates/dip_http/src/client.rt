//! One client, from its first byte to the end of its socket.
ghost use Rattle.std.specs.Prelude.{None};
ghost use Rattle.dip_http.specs.Ends.{AnswersOne};

use crate::answering::answer_one;
use crate::faults::HttpFault;
use crate::timed::{Timed, TimedAnswer};
use dip_desk_keeper::Keeper;
use dip_desk_state::KeepFault;
use dip_http_messages::Routes;
use dip_map::Map;
use dip_streams::read_some;
use std::alloc::Global;
use std::io::Read;
use std::net::{Shutdown, TcpStream};
use std::time::Clock;

/// How many reads, of at most 1,024 bytes each, are made of what a client still sends after its request.
pub const MOST_DROPPED: u32 = 64;

/// Reads what a client still sends, and drops it: a socket that is closed with unread bytes takes back the answer.
fn drop_rest<R: Read>(reader: &mut R) {
    let mut buffer = [0u8; 1024];
    'dropping: for _ in 0..MOST_DROPPED {
        match read_some(reader, &mut buffer) {
            Ok(0) | Err(_) => return,
            Ok(_) => {}
        }
    }
}

/// Answers one client. Its first byte has `MOST_SILENT_SECONDS` to come and its request `MOST_SECONDS`; its whole answer has as long
/// to be taken. Then no more is written. What a client that was answered still sends within `MOST_DROPPING_MILLIS` is dropped, at
/// most `MOST_DROPPED` reads of it, so that the answer reaches it.
///
/// # Errors
/// Those of `answer_one`: a client that was too slow gives `Read`, and its answer is nothing; a clock that can't be asked gives `Read`
/// too. A client that is too slow to take its answer gives `Write`. Nothing after the answer is told of.
pub fn serve_one<C: Clock, K: Keeper>(
    alloc: Global,
    clock: &C,
    stream: &TcpStream,
    keeper: &mut K,
    map: &Map,
    routes: &Routes,
) -> Result<(), HttpFault>
    // What went over the socket the system alone knows.
    ensures { AnswersOne map.now K.book None keeper.old keeper.new None None result }
{
    let Ok(mut reader) = Timed::new(stream, clock) else {
        return Err(HttpFault::Read);
    };
    let mut writer = TimedAnswer::new(stream, clock);
    let result = answer_one(alloc, &mut reader, &mut writer, keeper, map, routes);
    let is_answered = match &result {
        Err(HttpFault::Read) | Err(HttpFault::Memory) => false,
        _ => true,
    };
    if is_answered && stream.shutdown(Shutdown::Write).is_ok() && reader.begin_dropping().is_ok() {
        drop_rest(&mut reader);
    }
    result
}
