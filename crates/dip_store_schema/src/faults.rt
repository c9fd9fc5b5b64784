//! Why a store isn't opened.
ghost use Rattle.std.specs.Prelude.{◌≡◌};
ghost use Rattle.dip_store_schema.specs.Faults as told;

use dip_store_sql::RowFault;
use sqlite::{Error, ErrorCode};
use std::error::Error as AnyError;
use std::fmt;

/// It is handed back, and what it has committed is as it was.
#[derive(Clone, Copy, Debug, PartialEq, Eq)]
pub enum StoreFault {
    /// Want of memory.
    Memory,
    /// A fault of the disk, or a file that isn't a database.
    Disk,
    /// The store was made with the text of another map.
    OtherMap,
    /// The store hasn't a desk's tables of this version; where one is to be made, it has tables already.
    OtherSchema,
}

impl StoreFault {
    /// The fault's number, as a program tells it.
    pub fn name(self) -> &'static str
        ensures { result.now ≡ told.store_fault_name self }
    {
        match self {
            StoreFault::Memory => "S1",
            StoreFault::Disk => "S2",
            StoreFault::OtherMap => "S3",
            StoreFault::OtherSchema => "S4",
        }
    }
}

impl fmt::Display for StoreFault {
    ghost use Rattle.std.specs.Prelude.{Some};

    ghost output = { λ fault. Some (told.store_fault_name fault) };

    fn fmt<W: fmt::Write>(&self, f: &mut fmt::Formatter<W>) -> fmt::Result {
        f.write_str(self.name())
    }
}

impl AnyError for StoreFault {}

/// The fault for a failure of a database that is opened or made.
fn open_code_fault(code: ErrorCode) -> StoreFault
    ensures { result ≡ told.open_code_fault code }
{
    match code {
        ErrorCode::OutOfMemory => StoreFault::Memory,
        _ => StoreFault::Disk,
    }
}

/// The fault for an error of a database that is opened or made: want of memory, or else the disk.
pub fn open_fault(error: Error) -> StoreFault
    ensures { result ≡ told.open_fault error }
{
    match error {
        Error::SqliteFailure(code) => open_code_fault(code),
        _ => StoreFault::Disk,
    }
}

/// The fault for a failure of a query of a database that is opened: want of memory, or the disk; any other shows that the tables aren't
/// a desk's.
fn row_code_fault(code: ErrorCode) -> StoreFault
    ensures { result ≡ told.row_code_fault code }
{
    match code {
        ErrorCode::OutOfMemory => StoreFault::Memory,
        ErrorCode::SystemIoFailure
        | ErrorCode::DatabaseCorrupt
        | ErrorCode::DiskFull
        | ErrorCode::Closed => StoreFault::Disk,
        _ => StoreFault::OtherSchema,
    }
}

/// The fault for an error of such a query: where it isn't the disk nor want of memory, the tables aren't a desk's, or a column doesn't
/// read.
fn row_fault(error: Error) -> StoreFault
    ensures { result ≡ told.row_fault error }
{
    match error {
        Error::SqliteFailure(code) => row_code_fault(code),
        _ => StoreFault::OtherSchema,
    }
}

/// The fault for why the master's row isn't read: where it isn't the disk nor want of memory, the row is none of this version.
pub(crate) fn desk_fault(fault: RowFault) -> StoreFault
    ensures { result ≡ told.desk_fault fault }
{
    match fault {
        RowFault::Memory => StoreFault::Memory,
        RowFault::Sql(error) => row_fault(error),
        RowFault::Misfit => StoreFault::OtherSchema,
    }
}
