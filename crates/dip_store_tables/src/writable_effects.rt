//! Whether an effect can be written in the tables.
ghost use Rattle.std.specs.Prelude.{◌↔◌, ◌<◌, ◌^◌, IsTrue};
ghost use Rattle.dip_map.specs.Boards.{IsOf};
ghost use Rattle.dip_desk_state.specs.ChangeRows as desk_rows;
ghost use Rattle.dip_desk_state.specs.Rows as rows;
ghost use Rattle.dip_store_tables.specs.Coding.{IsEffectOf};
ghost use Rattle.dip_desk_state.specs.Writable.{IsStatusOf};
ghost use Rattle.dip_store_tables.specs.ChangeColumns.{FitsColumns};

use crate::votes::is_vote;
use crate::writable_parts::{are_orders, are_seats, is_power, is_status};
use crate::writable_texts::is_plain;
use dip_desk_state::{Effect, Public};
use dip_map::Map;

/// Whether the board and the status of a public part are of the map, and its due tick is in bounds.
fn is_public(map: &Map, public: &Public) -> bool
    ensures { IsTrue result ↔ (IsOf map.now public.now.board.value
        × IsStatusOf map.now (rows.status public.now.status)
        × (public.now.due < 2 ^ 63)) }
{
    public.board.is_of(map) && is_status(map, &public.status) && public.due <= i64::MAX as u64
}

/// Whether what the effect names is of the map, and its numbers fit their columns.
pub(crate) fn is_writable_effect(map: &Map, effect: &Effect) -> bool
    ensures { IsTrue result ↔ (IsEffectOf map.now (desk_rows.effect effect.now)
        × FitsColumns (desk_rows.effect effect.now)) }
{
    match effect {
        Effect::Nothing => true,
        Effect::Votes(vote) => is_vote(map, vote),
        Effect::Pending(orders) => are_orders(map, orders.as_slice()),
        Effect::Delivers { item, .. } => is_plain(item),
        Effect::Opens { public, seats, .. } => {
            is_public(map, public) && public.papers == 1 && are_seats(map, seats.as_slice())
        }
        Effect::Publishes { public, .. } => is_public(map, public),
        Effect::Seats(seat) => is_power(map, seat.power),
    }
}
