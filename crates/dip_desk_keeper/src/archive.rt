//! All papers of a game, in their order.
ghost use Rattle.std.specs.Prelude.{◌≡◌, ℕ, OnErr, OnOk, IfErr, take as first};
ghost use Rattle.std.specs.Io.KnownBytes.{Appends};
ghost use Rattle.dip_desk_keeper.specs.Papers.{AreAll, AreOut, WritesPapers};

use crate::keeper::Keeper;
use crate::paper_faults::PaperFault;
use dip_desk_state::{KeepFault, MOST_PAPERS};
use dip_map::Map;
use dip_streams::write_text;
use std::io::Write;

/// Writes a paper, or a beginning of it.
fn write_paper<W: Write>(writer: &mut W, text: &str) -> Result<(), PaperFault>
    ensures ok { OnOk result (Appends (W.contents writer.old) (W.contents writer.new) text.now) }
    ensures err { OnErr result
        ((size : ℕ)
        × Appends (W.contents writer.old) (W.contents writer.new) (first size text.now)) }
    ensures fault { IfErr result (λ f. f ≡ PaperFault.Write) }
{
    match write_text(writer, text.as_bytes()) {
        Ok(()) => Ok(()),
        Err(_) => Err(PaperFault::Write),
    }
}

/// Writes a game's papers from the first on, up to the first that isn't there, and gives how many these are.
fn write_all<K: Keeper, W: Write>(
    writer: &mut W,
    keeper: &mut K,
    map: &Map,
    game: &str,
) -> Result<u64, PaperFault>
    ensures { WritesPapers map.now K.book game.now keeper.old keeper.new
        (λ n g. AreAll n g (W.contents writer.old) (W.contents writer.new)) (W.contents writer.old)
        (W.contents writer.new) result }
{
    let mut count = 0;
    'papers: while count <= MOST_PAPERS {
        match keeper.paper(map, game, count + 1)? {
            None => return Ok(u64::from(count)),
            Some(text) => {
                write_paper(writer, text.as_str())?;
                count += 1;
            }
        }
    }
    Err(PaperFault::Keep(KeepFault::Damaged))
}

/// Writes all papers of a game in their order, as they were published, one in memory at a time, and gives how many these are; none where
/// there is no such game, and then nothing is written.
///
/// # Errors
/// The writer's fault, or the keeper's: then a beginning of the papers was written. `Damaged` is told only of a game of more than
/// `MOST_PAPERS` papers.
pub fn write_papers<K: Keeper, W: Write>(
    writer: &mut W,
    keeper: &mut K,
    map: &Map,
    game: &str,
) -> Result<Option<u64>, PaperFault>
    ensures { WritesPapers map.now K.book game.now keeper.old keeper.new
        (λ o g. AreOut o g (W.contents writer.old) (W.contents writer.new)) (W.contents writer.old)
        (W.contents writer.new) result }
{
    if keeper.public(map, game)?.is_none() {
        return Ok(None);
    }
    let count = write_all(writer, keeper, map, game)?;
    Ok(Some(count))
}
