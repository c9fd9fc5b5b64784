//! Laws of changes, each the contract of a function that does nothing.
ghost use Rattle.dip_map.specs.Charts.{Chart, IsMap};
ghost use Rattle.dip_store.specs.Laws.{ChangesAreMade, FitsIsWritable, WhatFitsFindsPlace};

use dip_store_tables::{
    state_is_changed, tables_stay_coded, tables_stay_counted, tables_stay_written,
};

/// A change that a keeper has no reason to refuse can be written into the columns.
pub fn what_fits_can_be_written()
    ensures { (m : Chart) → FitsIsWritable m }
{}

/// A change that a keeper has no reason to refuse finds place in its tables: no key comes twice after it, and its counts have room.
pub fn what_fits_finds_place()
    ensures { (m : Chart) → WhatFitsFindsPlace m }
{}

/// After a change that was made, the tables say the state after it, and are still tables such as a
/// keeper writes.
pub fn changes_are_made()
    ensures { (m : Chart) → IsMap m → ChangesAreMade m }
{
    state_is_changed();
    tables_stay_coded();
    tables_stay_written();
    tables_stay_counted();
}
