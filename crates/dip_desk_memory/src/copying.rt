//! Copies of what a keeper in memory has.
ghost use Rattle.std.specs.Prelude.{◌≡◌, IfOk, map as each};
ghost use Rattle.dip_desk_state.specs.Rows as rows;
ghost use Rattle.dip_desk_memory.specs.Stored as stored;

use crate::games::SeatRow;
use dip_desk_state::{Item, Own};
use std::alloc::{AllocError, Global};
use std::rc::Rc;

/// Copies the own parts of these seats, in their order, without their inboxes.
pub fn owns_copy(alloc: Global, seats: &[SeatRow]) -> Result<Vec<Own>, AllocError>
    ensures { IfOk result
        (λ v. each (λ o. rows.own o) v.items ≡ each (λ p. p.own) (stored.parts seats.now)) }
{
    let mut copy = Vec::with_capacity(alloc, seats.len())?;
    for seat in seats {
        copy.push(seat.own.copy(alloc)?)?;
    }
    Ok(copy)
}

/// Shares the items with another list: no text is copied.
pub fn items_shared(alloc: Global, items: &[Rc<Item>]) -> Result<Vec<Rc<Item>>, AllocError>
    ensures { IfOk result (λ v. rows.items v.items ≡ rows.items items.now) }
{
    let mut shared = Vec::with_capacity(alloc, items.len())?;
    for item in items {
        shared.push(item.clone()?)?;
    }
    Ok(shared)
}
