//! Laws of the tables, each the contract of a function that does nothing.
ghost use Rattle.dip_map.specs.Charts.{Chart, IsMap};
ghost use Rattle.dip_store_tables.specs.Looking.{OwnIsFound, PageIsFound, PaperIsFound, PublicIsFound};
ghost use Rattle.dip_store_tables.specs.Renewing.{OldTablesAreRenewed};
ghost use Rattle.dip_store_tables.specs.Laws.{IsDeliveredOneByOne, NewTablesAreNew, StateIsChanged, TablesStayCoded, TablesStayCounted, TablesStayWritten};

/// What the statements of a change do is the change: after them the tables say the state after it.
pub fn state_is_changed()
    ensures { (m : Chart) → IsMap m → StateIsChanged m }
{}

/// After the statements of a change the tables are still such as a keeper wrote.
pub fn tables_stay_coded()
    ensures { (m : Chart) → TablesStayCoded m }
{}

/// After the statements of a change papers and items are still numbered from 1, where a change's
/// paper has the next number of its game.
pub fn tables_stay_counted()
    ensures { (m : Chart) → TablesStayCounted m }
{}

/// After the statements of a change each row is still that of a record of the map, so that it can
/// be read back.
pub fn tables_stay_written()
    ensures { (m : Chart) → TablesStayWritten m }
{}

/// The public part of a game is what the first row of its name says.
pub fn public_is_found()
    ensures { (m : Chart) → PublicIsFound m }
{}

/// A seat's own part is what the first row of its game and its power's name says.
pub fn own_is_found()
    ensures { (m : Chart) → IsMap m → OwnIsFound m }
{}

/// A page of a counted inbox is the rows whose numbers are within it.
pub fn page_is_found()
    ensures { (m : Chart) → PageIsFound m }
{}

/// A paper of a game with counted papers is the first row of its number.
pub fn paper_is_found()
    ensures { (m : Chart) → PaperIsFound m }
{}

/// Press may be delivered to one reader after the other.
pub fn press_is_delivered_one_by_one()
    ensures { (m : Chart) → IsDeliveredOneByOne m }
{}

/// The tables of a new desk say that it has no game, and are such as a keeper wrote.
pub fn new_tables_are_new()
    ensures { (m : Chart) → NewTablesAreNew m }
{}

/// Tables of version 1 become tables of version 2 that say the same: each seat's vote stands on its ballot, and all else is as it was.
pub fn old_tables_are_renewed()
    ensures { (m : Chart) → OldTablesAreRenewed m }
{}
