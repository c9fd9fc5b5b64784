//! Reading all that a reader has, within a limit.
ghost use Rattle.std.specs.Prelude.{IfOk, IsErrOf};
ghost use Rattle.dip_judge_runs.specs.Reading.{IsLonger, IsReadWithin};

use dip_streams::read_some;
use std::alloc::Global;
use std::error::Error;
use std::fmt;
use std::io::Read;

/// Why what a reader has can't be had.
#[derive(Clone, Copy, Debug, PartialEq, Eq)]
pub enum ReadFault {
    /// The reader failed, otherwise than by a signal that interrupts it.
    Read,
    /// It has more bytes than the limit.
    TooLong,
    /// Memory ran out.
    Memory,
}

impl fmt::Display for ReadFault {
    ghost use Rattle.dip_judge_runs.specs.Reading.{read_name};
    ghost use Rattle.std.specs.Prelude.{Some};

    ghost output = { λ fault. Some (read_name fault) };

    fn fmt<W: fmt::Write>(&self, f: &mut fmt::Formatter<W>) -> fmt::Result {
        f.write_str(match self {
            ReadFault::Read => "Read",
            ReadFault::TooLong => "TooLong",
            ReadFault::Memory => "Memory",
        })
    }
}

impl Error for ReadFault {}

/// All that the reader has, at most `most` bytes.
pub fn read_whole<R: Read>(alloc: Global, reader: &mut R, most: usize) -> Result<Vec<u8>, ReadFault>
    ensures whole { IfOk result
        (λ v. IsReadWithin most (R.remaining reader.old) (R.remaining reader.new) v.items) }
    ensures long { IsErrOf result ReadFault.TooLong → IsLonger most (R.remaining reader.old) }
{
    let mut input = Vec::new(alloc);
    let mut buffer = [0u8; 65536];
    'reading: while input.len() <= most {
        match read_some(reader, &mut buffer) {
            Err(_) => return Err(ReadFault::Read),
            Ok(0) => return Ok(input),
            Ok(n) => match input.extend_from_slice(&buffer[..n]) {
                Err(_) => return Err(ReadFault::Memory),
                Ok(()) => {}
            },
        }
    }
    Err(ReadFault::TooLong)
}
