//! An input that is read piece by piece: papers, each with the empty lines before it.
ghost use Rattle.std.specs.Prelude.{◌≡◌, ◌++◌, ℕ, List, Option, [], IfErr, IfOk, IsErrOf, OnOk, false};
ghost use Rattle.dip_check_runs.specs.Input.{HasUsed, IsFront, IsNearer, IsRead, IsTakenFront, IsTooMuch};
ghost use Rattle.dip_check_runs.specs.Runs.{IsReadingFault};

use crate::papers::paper_end;
use dip_check_papers::CheckFault;
use dip_streams::read_some;
use std::alloc::Global;
use std::io::Read;
use std::mem;

/// The most bytes of a paper, with the empty lines before it.
pub const MOST_PAPER: usize = 1_048_576;

/// What was read of an input and isn't used yet.
#[derive(Drop)]
pub(crate) struct Ahead {
    pub(crate) bytes: Vec<u8>,
    /// Whether the input has ended: then an LF was put after it, which its last line may lack.
    pub(crate) ended: bool,
}

/// An input of which nothing was read yet.
pub(crate) fn nothing_ahead(alloc: Global) -> Ahead
    ensures { (known : Option (List ℕ)) → IsRead known known [] result }
{
    Ahead {
        bytes: Vec::new(alloc),
        ended: false,
    }
}

/// Reads a piece more of an input that hasn't ended.
fn read_piece<R: Read>(reader: &mut R, ahead: &mut Ahead) -> Result<(), CheckFault>
    requires { ahead.old.ended ≡ false }
    ensures read { OnOk result ((known : Option (List ℕ)) (used : List ℕ)
        → IsRead known (R.remaining reader.old) used ahead.old
        → IsRead known (R.remaining reader.new) used ahead.new) }
    ensures nearer { OnOk result (IsNearer ahead.old ahead.new) }
    ensures short { IsErrOf result CheckFault.TooLong → ⊥ }
    ensures fault { IfErr result IsReadingFault }
{
    let mut buffer = [0u8; 16384];
    match read_some(reader, &mut buffer) {
        Err(_) => Err(CheckFault::Read),
        Ok(0) => match ahead.bytes.push(b'\n') {
            Err(_) => Err(CheckFault::Memory),
            Ok(()) => {
                ahead.ended = true;
                Ok(())
            }
        },
        Ok(count) => match ahead.bytes.extend_from_slice(&buffer[..count]) {
            Err(_) => Err(CheckFault::Memory),
            Ok(()) => Ok(()),
        },
    }
}

/// How many bytes ahead are the next paper with the empty lines before it, or all that is left.
fn front_size<R: Read>(reader: &mut R, ahead: &mut Ahead) -> Result<usize, CheckFault>
    ensures read { OnOk result ((known : Option (List ℕ)) (used : List ℕ)
        → IsRead known (R.remaining reader.old) used ahead.old
        → IsRead known (R.remaining reader.new) used ahead.new) }
    ensures front { IfOk result (IsFront ahead.new) }
    ensures long { IsErrOf result CheckFault.TooLong → IsTooMuch ahead.new }
    ensures still { IsErrOf result CheckFault.TooLong → (known : Option (List ℕ)) (used : List ℕ)
        → IsRead known (R.remaining reader.old) used ahead.old
        → IsRead known (R.remaining reader.new) used ahead.new }
    ensures fault { IfErr result IsReadingFault }
{
    'pieces: loop {
        if let Some(end) = paper_end(ahead.bytes.as_slice()) {
            return Ok(end);
        }
        if ahead.ended {
            return Ok(ahead.bytes.len());
        }
        if MOST_PAPER < ahead.bytes.len() {
            return Err(CheckFault::TooLong);
        }
        read_piece(reader, ahead)?;
    }
}

/// The next paper with the empty lines before it, or all that is left of the input.
///
/// # Errors
/// `Read`, `TooLong` where more than `MOST_PAPER` bytes have no end of a paper, or `Memory`.
pub(crate) fn next_front<R: Read>(reader: &mut R, ahead: &mut Ahead) -> Result<Vec<u8>, CheckFault>
    ensures read { IfOk result (λ v. (known : Option (List ℕ)) (used : List ℕ)
        → IsRead known (R.remaining reader.old) used ahead.old
        → IsRead known (R.remaining reader.new) (used ++ v.items) ahead.new) }
    ensures front { IfOk result (λ v. IsTakenFront v.items ahead.new) }
    ensures long { IsErrOf result CheckFault.TooLong → IsTooMuch ahead.new }
    ensures still { IsErrOf result CheckFault.TooLong → (known : Option (List ℕ)) (used : List ℕ)
        → IsRead known (R.remaining reader.old) used ahead.old
        → IsRead known (R.remaining reader.new) used ahead.new }
    ensures fault { IfErr result IsReadingFault }
{
    let size = front_size(reader, ahead)?;
    match ahead.bytes.split_off(size) {
        Err(_) => Err(CheckFault::Memory),
        Ok(rest) => Ok(mem::replace(&mut ahead.bytes, rest)),
    }
}

/// Reads the rest of an input, which isn't used: whoever writes it isn't cut off.
pub(crate) fn skip_rest<R: Read>(reader: &mut R, ahead: &Ahead)
    ensures { (known : Option (List ℕ)) (used : List ℕ)
        → IsRead known (R.remaining reader.old) used ahead.now
        → HasUsed known (R.remaining reader.new) used }
{
    if ahead.ended {
        return;
    }
    let mut buffer = [0u8; 16384];
    'reading: for _ in 0..u64::MAX {
        match read_some(reader, &mut buffer) {
            Err(_) => return,
            Ok(0) => return,
            Ok(_) => {}
        }
    }
}
