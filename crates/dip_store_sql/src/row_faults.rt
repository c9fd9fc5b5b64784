//! Why rows aren't read or written.
ghost use Rattle.std.specs.Prelude.{◌≡◌};

use sqlite::Error;
use std::alloc::{AllocError, AllocFailed};

/// Why what a desk asks of its rows isn't answered, or a change of them isn't made.
#[derive(Drop)]
pub enum RowFault {
    /// Memory ran out.
    Memory,
    /// The database refused a statement or a query, or a column of a row doesn't read.
    Sql(Error),
    /// A row names what isn't of the map or says what no keeper writes, or a change doesn't fit the rows.
    Misfit,
}

impl From<AllocError> for RowFault {
    ghost use Rattle.dip_store_sql.specs.declared.row_faults.RowFault.TheVariants.{Memory};

    ghost from_gives = { λ _ fault. fault ≡ Memory };

    fn from(_: AllocError) -> RowFault {
        RowFault::Memory
    }
}

impl From<Error> for RowFault {
    ghost use Rattle.dip_store_sql.specs.declared.row_faults.RowFault.TheVariants.{Sql};

    ghost from_gives = { λ error fault. fault ≡ Sql error };

    fn from(error: Error) -> RowFault {
        RowFault::Sql(error)
    }
}

impl<T: Drop> From<AllocFailed<T>> for RowFault {
    ghost use Rattle.dip_store_sql.specs.declared.row_faults.RowFault.TheVariants.{Memory};

    ghost from_gives = { λ _ fault. fault ≡ Memory };

    fn from(_: AllocFailed<T>) -> RowFault {
        RowFault::Memory
    }
}
