//! Rows as their columns.
ghost use Rattle.std.specs.Prelude.{◌≡◌, IfErr, IfOk, map as each};
ghost use Rattle.std.specs.List.{AllByRecursion};
ghost use Rattle.dip_store_sql.specs.RowFaults.{IsFromOutside};
ghost use Rattle.dip_store_looks.specs.Readable.{IsCentreReadable, IsUnitReadable};
ghost use Rattle.dip_store_looks.specs.Shown.{shown_centre, shown_unit};
ghost use Rattle.dip_store_sql.specs.Causes.{IsCaused};

use dip_store_sql::{RowFault, number_at, text_at};
use dip_store_tables::{CentreColumns, UnitColumns};
use sqlite::{Error, Row};
use std::alloc::Global;

fn unit_of(row: &Row) -> Result<UnitColumns, Error>
    ensures value { IfOk result (λ u. u ≡ shown_unit row.now) }
    ensures own { IsUnitReadable row.now → IfErr result (IsCaused ⊥) }
{
    Ok(UnitColumns {
        province: text_at(row, 0)?,
        dislodged: number_at(row, 1)?,
        power: text_at(row, 2)?,
        kind: number_at(row, 3)?,
        coast: text_at(row, 4)?,
        origin: text_at(row, 5)?,
    })
}

fn centre_of(row: &Row) -> Result<CentreColumns, Error>
    ensures value { IfOk result (λ c. c ≡ shown_centre row.now) }
    ensures own { IsCentreReadable row.now → IfErr result (IsCaused ⊥) }
{
    Ok(CentreColumns {
        province: text_at(row, 0)?,
        power: text_at(row, 1)?,
    })
}

pub(crate) fn units_of(alloc: Global, rows: &[Row]) -> Result<Vec<UnitColumns>, RowFault>
    ensures value { IfOk result (λ v. v.items ≡ each shown_unit rows.now) }
    ensures own { AllByRecursion IsUnitReadable rows.now → IfErr result (IsFromOutside ⊥) }
{
    let mut units = Vec::new(alloc);
    for row in rows {
        units.push(unit_of(row)?)?;
    }
    Ok(units)
}

pub(crate) fn centres_of(alloc: Global, rows: &[Row]) -> Result<Vec<CentreColumns>, RowFault>
    ensures value { IfOk result (λ v. v.items ≡ each shown_centre rows.now) }
    ensures own { AllByRecursion IsCentreReadable rows.now → IfErr result (IsFromOutside ⊥) }
{
    let mut centres = Vec::new(alloc);
    for row in rows {
        centres.push(centre_of(row)?)?;
    }
    Ok(centres)
}
