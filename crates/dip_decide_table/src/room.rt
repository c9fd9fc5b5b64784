//! Lists that are made once a board, for one search after the other to write in.
ghost use Rattle.std.specs.Prelude.{◌≡◌, [], IfOk};

use dip_names::Prov;
use std::alloc::{AllocError, Global};

/// Room for the searches of a board; what is in it says nothing between two of them.
#[derive(Drop)]
pub struct Room {
    /// The fleets that serve a move by convoy, while its path is looked for.
    pub fleets: Vec<Prov>,
    /// The provinces that the search came to so far.
    pub trail: Vec<Prov>,
}

impl Room {
    /// Room for searches among so many units: nothing is in it.
    pub fn with_capacity(alloc: Global, units: usize) -> Result<Room, AllocError>
        ensures fleets { IfOk result (λ room. room.fleets.items ≡ []) }
        ensures trail { IfOk result (λ room. room.trail.items ≡ []) }
    {
        let fleets = Vec::with_capacity(alloc, units)?;
        let trail = Vec::with_capacity(alloc, units)?;
        Ok(Room { fleets, trail })
    }
}
