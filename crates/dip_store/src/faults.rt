//! The keeper's fault for a fault of the database.
ghost use Rattle.std.specs.Prelude.{◌≡◌};
ghost use Rattle.dip_store.specs.Faults as told;

use dip_desk_state::KeepFault;
use dip_store_sql::RowFault;
use sqlite::{Error, ErrorCode};

/// The keeper's fault for a failure of the database: want of memory or of room for a row; a fault of the disk, want of room on it, or that
/// such a fault has shut the store before; any other shows that the tables aren't a desk's.
fn code_fault(code: ErrorCode) -> KeepFault
    ensures { result ≡ told.code_fault code }
{
    match code {
        ErrorCode::OutOfMemory | ErrorCode::TooBig | ErrorCode::NoRowid => KeepFault::Memory,
        ErrorCode::SystemIoFailure
        | ErrorCode::DatabaseCorrupt
        | ErrorCode::DiskFull
        | ErrorCode::Closed => KeepFault::Disk,
        _ => KeepFault::Damaged,
    }
}

/// The keeper's fault for an error of the database.
fn error_fault(error: Error) -> KeepFault
    ensures { result ≡ told.error_fault error }
{
    match error {
        Error::SqliteFailure(code) => code_fault(code),
        _ => KeepFault::Damaged,
    }
}

/// The keeper's fault for that of a look or of a change.
pub(crate) fn row_fault(fault: RowFault) -> KeepFault
    ensures { result ≡ told.row_fault fault }
{
    match fault {
        RowFault::Memory => KeepFault::Memory,
        RowFault::Sql(error) => error_fault(error),
        RowFault::Misfit => KeepFault::Damaged,
    }
}
