//! What is read up to a size, or to the end.
ghost use Rattle.std.specs.Prelude.{◌≡◌, ◌≤◌, ◌<◌, ◌++◌, ℕ, List, IfOk, IfSome, IfNone, length, take};
ghost use Rattle.std.specs.Io.KnownBytes.{Consumes, IsAtEnd};

use crate::streams::read_some;
use std::alloc::Global;
use std::io::Read;

/// Why no more is read.
#[derive(Clone, Copy, Debug, PartialEq, Eq)]
pub enum ReadFault {
    /// The reader failed.
    Read,
    /// Memory ran out.
    Memory,
}

/// Reads on after what was read, at most 1,024 bytes; how many they are, and none only at the end of the input.
pub fn read_more<R: Read>(reader: &mut R, bytes: &mut Vec<u8>) -> Result<usize, ReadFault>
    ensures read { IfOk result (λ n. (more : List ℕ) × (length more ≡ n)
        × Consumes (R.remaining reader.old) (R.remaining reader.new) more
        × (bytes.new.items ≡ bytes.old.items ++ more)) }
    ensures ended { IfOk result (λ n. n ≡ 0 → IsAtEnd (R.remaining reader.new)) }
{
    let mut buffer = [0u8; 1024];
    match read_some(reader, &mut buffer) {
        Err(_) => Err(ReadFault::Read),
        Ok(n) => {
            if bytes.extend_from_slice(&buffer[..n]).is_err() {
                return Err(ReadFault::Memory);
            }
            Ok(n)
        }
    }
}

/// Reads until a body of this size is there, which begins with what was read before; `None` where the input ends first.
pub fn read_body<R: Read>(
    alloc: Global,
    reader: &mut R,
    start: &[u8],
    size: usize,
) -> Result<Option<Vec<u8>>, ReadFault>
    ensures some { IfOk result (λ o. IfSome o (λ v. (more : List ℕ)
        × Consumes (R.remaining reader.old) (R.remaining reader.new) more
        × (v.items ≡ take size (start.now ++ more)) × (size ≤ length (start.now ++ more)))) }
    ensures none { IfOk result (λ o. IfNone o ((more : List ℕ)
        × Consumes (R.remaining reader.old) (R.remaining reader.new) more
        × IsAtEnd (R.remaining reader.new) × (length (start.now ++ more) < size))) }
{
    let Ok(mut bytes) = start.to_vec(alloc) else {
        return Err(ReadFault::Memory);
    };
    'reading: while bytes.len() < size {
        if read_more(reader, &mut bytes)? == 0 {
            return Ok(None);
        }
    }
    bytes.truncate(size);
    Ok(Some(bytes))
}
