//! Laws of the printed texts, each the contract of a function that does nothing.
ghost use Rattle.dip_reports.specs.Laws.{BoardLinesAreInOrder};

/// Board lines come by the powers' names, each with its centres by their codes and its units by those of their provinces. A law: it
/// does nothing.
pub fn board_lines_are_in_order()
    ensures { BoardLinesAreInOrder }
{}
