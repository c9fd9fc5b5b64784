//! Papers that are checked, or explained.
ghost use Rattle.std.specs.Prelude.{IfErr, OnOk, true};
ghost use Rattle.dip_check_runs.specs.Runs.{IsChecked, IsExplained, TellsIfGame};
ghost use Rattle.dip_judge.specs.Checking.{FailsCheck, FailsExplaining};

use dip_check_papers::Progress;
use dip_check_runs::{check_papers, explain_paper};
use dip_judge_system::Failure;
use dip_map::Map;
use std::alloc::Global;
use std::io::{Read, Write};

/// Checks the papers that the reader has; `progress` hears how many are right so far.
///
/// # Errors
/// `Negative`, and what isn't was written; or what `check_papers` has.
pub(crate) fn check<R: Read, W: Write, P: Progress>(
    alloc: Global,
    reader: &mut R,
    writer: &mut W,
    progress: &P,
    map: &Map,
) -> Result<(), Failure>
    ensures right { OnOk result (IsChecked map.now (R.remaining reader.old)
        (R.remaining reader.new) (W.contents writer.old) (W.contents writer.new) true
        × TellsIfGame map.now (R.remaining reader.old) true) }
    ensures wrong { IfErr result (FailsCheck map.now (R.remaining reader.old)
        (R.remaining reader.new) (W.contents writer.old) (W.contents writer.new)) }
{
    match check_papers(alloc, reader, writer, progress, map) {
        Ok(true) => Ok(()),
        Ok(false) => Err(Failure::Negative),
        Err(fault) => Err(Failure::Checking(fault)),
    }
}

/// Explains the paper of the number among those that the reader has.
///
/// # Errors
/// `Negative`, and why there is no explanation was written; or what `explain_paper` has.
pub(crate) fn explain<R: Read, W: Write>(
    alloc: Global,
    reader: &mut R,
    writer: &mut W,
    map: &Map,
    number: u32,
) -> Result<(), Failure>
    ensures explained { OnOk result (IsExplained map.now number (R.remaining reader.old)
        (R.remaining reader.new) (W.contents writer.old) (W.contents writer.new) true) }
    ensures not { IfErr result (FailsExplaining map.now number (R.remaining reader.old)
        (R.remaining reader.new) (W.contents writer.old) (W.contents writer.new)) }
{
    match explain_paper(alloc, reader, writer, map, number) {
        Ok(true) => Ok(()),
        Ok(false) => Err(Failure::Negative),
        Err(fault) => Err(Failure::Checking(fault)),
    }
}
