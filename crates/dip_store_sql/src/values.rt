//! The values of a row's columns. Where a column has a value of its kind, reading it fails for want of memory alone.
ghost use Rattle.std.specs.Prelude.{◌≡◌, IfErr, IfOk, pos, string_bytes};
ghost use Rattle.sqlite.specs.declared.types.Value.TheVariants.{Int, Text as Words, Blob as Bytes};
ghost use Rattle.sqlite.specs.Order.{bytes, column};
ghost use Rattle.dip_store_sql.specs.Causes.{IsCaused};
ghost use Rattle.dip_store_sql.specs.Refusals.{IsBlamed};
ghost use Rattle.dip_store_sql.specs.RowFaults.{BlamesFor, IsFromOutside};
ghost use Rattle.dip_store_sql.specs.Values.{HasDigest, HasNumber, HasText, HasTick};

use crate::row_faults::RowFault;
use sqlite::{Error, Row};

/// The text in this column.
///
/// # Errors
/// Want of memory, or a column without a text of characters.
pub fn text_at(row: &Row, at: usize) -> Result<String, Error>
    ensures value { IfOk result (λ t. column row.now at ≡ Words (string_bytes t)) }
    ensures own { HasText row.now at → IfErr result (IsCaused ⊥) }
{
    row.get(at)
}

/// The number in this column.
///
/// # Errors
/// Want of memory, or a column without a number of 32 bits.
pub fn number_at(row: &Row, at: usize) -> Result<u32, Error>
    ensures value { IfOk result (λ n. column row.now at ≡ Int (pos n)) }
    ensures own { HasNumber row.now at → IfErr result (IsCaused ⊥) }
    ensures blames { IfErr result (IsBlamed ⊥) }
{
    row.get(at)
}

/// The number from 0 on in this column.
///
/// # Errors
/// Want of memory, or a column without such a number.
pub fn tick_at(row: &Row, at: usize) -> Result<u64, Error>
    ensures value { IfOk result (λ n. column row.now at ≡ Int (pos n)) }
    ensures own { HasTick row.now at → IfErr result (IsCaused ⊥) }
{
    row.get(at)
}

fn bytes_at(row: &Row, at: usize) -> Result<Vec<u8>, Error>
    ensures value { IfOk result (λ v. column row.now at ≡ Bytes v.items) }
    ensures own { HasDigest row.now at → IfErr result (IsCaused ⊥) }
    ensures blames { IfErr result (IsBlamed ⊥) }
{
    row.get(at)
}

/// The 32 bytes in this column.
///
/// # Errors
/// Want of memory, or a column without 32 bytes.
pub fn digest_at(row: &Row, at: usize) -> Result<[u8; 32], RowFault>
    ensures value { IfOk result (λ d. d ≡ bytes (column row.now at)) }
    ensures own { HasDigest row.now at → IfErr result (IsFromOutside ⊥) }
    ensures blames { IfErr result (BlamesFor ⊥) }
{
    let found = bytes_at(row, at)?;
    match <[u8; 32]>::try_from(found.as_slice()) {
        Ok(digest) => Ok(digest),
        Err(_) => Err(RowFault::Misfit),
    }
}
