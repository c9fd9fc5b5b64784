//! A run over letters from a fresh desk on, over tables in memory.
ghost use Rattle.std.specs.Prelude.{IfErr, OnOk};
ghost use Rattle.dip_judge_runs.specs.Fresh.{AnswersFresh, IsCutShort};

use crate::run::{RunFault, run_file};
use dip_desk_machine::new_desks_are_lawful;
use dip_desk_memory::MemoryKeeper;
use dip_letters::digest;
use dip_map::Map;
use std::alloc::Global;
use std::io::{Read, Write};

/// Answers the letters of a reader from a fresh desk on, whose master has this secret.
///
/// # Errors
/// Those of `run_file`, of the keeper's want of memory alone.
pub fn answer_letters<R: Read, W: Write>(
    alloc: Global,
    reader: &mut R,
    writer: &mut W,
    master: &str,
    map: &Map,
) -> Result<(), RunFault>
    ensures done { OnOk result (AnswersFresh map.now master.now (R.remaining reader.old)
        (R.remaining reader.new) (W.contents writer.old) (W.contents writer.new)) }
    ensures cut { IfErr result (λ f. IsCutShort map.now master.now f (R.remaining reader.old)
        (R.remaining reader.new) (W.contents writer.old) (W.contents writer.new)) }
{
    new_desks_are_lawful();
    let mut keeper = MemoryKeeper::new(alloc, digest("desk", "master", master));
    run_file(alloc, reader, writer, &mut keeper, map)
}
