//! What GET and HEAD are answered: the public part of a game, or a paper.
ghost use Rattle.std.specs.Prelude.{ℕ, IsErrOf, Option};
ghost use Rattle.dip_desk_state.specs.State.{paper_at, public_at};
ghost use Rattle.dip_http.specs.Answering.{game_answer, paper_answer, paper_named};
ghost use Rattle.dip_http.specs.Ends.{ShowsText};
ghost use Rattle.dip_http_messages.specs.Numbers.{IsNumber};

use crate::endings::{refuse, unavailable, write_found};
use crate::faults::HttpFault;
use dip_desk_keeper::Keeper;
use dip_http_messages::{HttpRefusal, number_of, state_text};
use dip_map::Map;
use http::StatusCode;
use std::alloc::Global;
use std::io::Write;

/// Shows the public part of a game as JSON.
pub fn show_game<W: Write, K: Keeper>(
    alloc: Global,
    writer: &mut W,
    keeper: &mut K,
    map: &Map,
    quiet: bool,
    name: &str,
) -> Result<(), HttpFault>
    ensures shows { ShowsText map.now K.book quiet
        (λ s. game_answer map.now quiet (public_at name.now s)) keeper.old keeper.new
        (W.contents writer.old) (W.contents writer.new) result }
    // Nothing is read here.
    ensures unread { IsErrOf result HttpFault.Read → ⊥ }
{
    match keeper.public(map, name) {
        Err(fault) => Err(unavailable(writer, quiet, fault)),
        Ok(None) => refuse(writer, HttpRefusal::NotFound, quiet),
        Ok(Some(public)) => match state_text(alloc, map, &public) {
            Err(_) => Err(HttpFault::Memory),
            Ok(text) => write_found(
                writer,
                StatusCode::OK,
                "application/json",
                quiet,
                &[text.as_str()],
            ),
        },
    }
}

/// Shows the game's paper of that number as text; it is 404 where there is no such game or paper.
fn show_numbered<W: Write, K: Keeper>(
    writer: &mut W,
    keeper: &mut K,
    map: &Map,
    quiet: bool,
    name: &str,
    number: u32,
) -> Result<(), HttpFault>
    ensures shows { ShowsText map.now K.book quiet
        (λ s. paper_answer quiet (paper_at name.now number s)) keeper.old keeper.new
        (W.contents writer.old) (W.contents writer.new) result }
    // Nothing is read here.
    ensures unread { IsErrOf result HttpFault.Read → ⊥ }
{
    match keeper.paper(map, name, number) {
        Err(fault) => Err(unavailable(writer, quiet, fault)),
        Ok(None) => refuse(writer, HttpRefusal::NotFound, quiet),
        Ok(Some(text)) => write_found(
            writer,
            StatusCode::OK,
            "text/plain",
            quiet,
            &[text.as_str()],
        ),
    }
}

/// Shows the paper whose number stands in the path.
pub fn show_paper<W: Write, K: Keeper>(
    writer: &mut W,
    keeper: &mut K,
    map: &Map,
    quiet: bool,
    name: &str,
    number: &str,
) -> Result<(), HttpFault>
    ensures shows { (n : Option ℕ) × IsNumber number.now n × ShowsText map.now K.book quiet
        (λ s. paper_answer quiet (paper_named name.now n s)) keeper.old keeper.new
        (W.contents writer.old) (W.contents writer.new) result }
    // Nothing is read here.
    ensures unread { IsErrOf result HttpFault.Read → ⊥ }
{
    match number_of(number) {
        None => refuse(writer, HttpRefusal::NotFound, quiet),
        Some(number) => show_numbered(writer, keeper, map, quiet, name, number),
    }
}
