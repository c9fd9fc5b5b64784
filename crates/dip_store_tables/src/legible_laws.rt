//! Laws of legible tables, each the contract of a function that does nothing.
ghost use Rattle.dip_map.specs.Charts.{Chart};
ghost use Rattle.dip_store_tables.specs.LegibleLaws.{NewTablesAreLegible, TablesStayLegible};

/// Legible tables stay legible after the statements of a change, if the change's texts consist of
/// characters and there is room for what it counts.
pub fn tables_stay_legible()
    ensures { (m : Chart) → TablesStayLegible m }
{}

/// The tables with which a desk begins are legible: there is only the master's row.
pub fn new_tables_are_legible()
    ensures { NewTablesAreLegible }
{}
