//! Laws of maps, each the contract of a function that does nothing.
ghost use Rattle.dip_map_chart.specs.Checks.{PassesExactly};
ghost use Rattle.dip_map_laws.specs.Spelled.{StatesWhatItSpells};
ghost use Rattle.dip_map_laws.specs.Telling.{StatesWhatItTells};

/// A text states only the map that its file tells: each province and each power by a table of its own. A law: it does nothing.
pub fn maps_are_told_by_their_files()
    ensures { StatesWhatItTells }
{}

/// A text states a map just where it spells it: its tables hold what the map holds, by codes and names, and nothing else. A law: it does
/// nothing.
pub fn maps_are_spelled_by_their_files()
    ensures { StatesWhatItSpells }
{}

/// Parts have no fault just where they are a map. A law: it does nothing.
pub fn maps_are_parts_without_a_fault()
    ensures { PassesExactly }
{}
