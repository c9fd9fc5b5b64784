//! What a paper tells of the orders of a phase, as laws.
ghost use Rattle.dip_turn_papers.specs.Laws.{OrdersAreTold, PapersHoldNoSteps};

/// A paper tells each order once, by power and province.
pub fn orders_are_told()
    ensures { OrdersAreTold }
{}

/// A paper of a movement rests on the outcomes of its orders alone, and not on the steps by which they were found.
pub fn papers_hold_no_steps()
    ensures { PapersHoldNoSteps }
{}
