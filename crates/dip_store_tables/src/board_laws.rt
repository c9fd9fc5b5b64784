//! The law of a board's rows, the contract of a function that does nothing.
ghost use Rattle.dip_map.specs.Charts.{Chart, IsMap};
ghost use Rattle.dip_store_tables.specs.Boards.{BoardsComeBack};

/// What is written of a board of a map is read as that board.
pub fn boards_come_back()
    ensures { (m : Chart) → IsMap m → BoardsComeBack m }
{}
