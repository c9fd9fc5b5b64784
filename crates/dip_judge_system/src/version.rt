//! What the program is.
ghost use Rattle.std.specs.Prelude.{IfErr, OnOk};
ghost use Rattle.std.specs.Io.KnownBytes.{Appends};
ghost use Rattle.dip_judge_system.specs.Version.{FailsVersion, version_text};

use crate::failures::Failure;
use dip_judge_runs::RunFault;
use dip_judge_words::VERSION;
use dip_streams::write_texts;
use std::io::Write;

/// The standard map by the SHA-256 of its text, as a store keeps it, and the
/// kit's logic by which the program was proved.
const MADE_OF: &str =
    "standard map, SHA-256 05d93c6e007d30d189866a8852e703fec2244fcf096b910bd61bfd31cf641efc
proved by Rattle, logic dac8208d650f15bf
";

/// Writes what the program is: its version, its standard map, and by what it was proved.
///
/// # Errors
/// `Write`, where the writer fails, and a beginning of it was written.
pub fn write_version<W: Write>(writer: &mut W) -> Result<(), Failure>
    ensures ok { OnOk result
        (Appends (W.contents writer.old) (W.contents writer.new) version_text) }
    ensures err { IfErr result
        (FailsVersion (W.contents writer.old) (W.contents writer.new)) }
{
    match write_texts(writer, &["dip_judge ", VERSION, "\n", MADE_OF]) {
        Ok(()) => Ok(()),
        Err(_) => Err(Failure::Run(RunFault::Write)),
    }
}
