//! The most that is counted of a game.
ghost use Rattle.std.specs.Prelude.{◌≡◌};
ghost use Rattle.dip_desk_state.specs.Bounds.{most_items, most_papers, most_sent};

/// The most items of a seat's inbox.
pub const MOST_ITEMS: u32 = 60_000;
/// The most letters of press that a seat sends in a game.
pub const MOST_SENT: u32 = 10_000;
/// The most papers of a game: each has a number of the master's of its own.
pub const MOST_PAPERS: u32 = 999_999_999;

/// The bounds are those that the definitions name.
pub fn bounds_are_named()
    ensures items { MOST_ITEMS ≡ most_items }
    ensures sent { MOST_SENT ≡ most_sent }
    ensures papers { MOST_PAPERS ≡ most_papers }
{}
