//! Laws of maps and boards, each the contract of a function that does nothing.
ghost use Rattle.dip_map.specs.Boards.{IsOf, opening};
ghost use Rattle.dip_map_chart.specs.Charts.{Chart, IsMap};

/// The board of a map's opening is one of that map.
pub fn openings_are_of_their_map()
    ensures { (m : Chart) → IsMap m → IsOf m (opening m) }
{}
