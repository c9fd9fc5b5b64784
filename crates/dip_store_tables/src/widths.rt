//! How wide the numbers and digests of each change are.
ghost use Rattle.std.specs.Prelude.{◌≡◌, ◌<◌, ◌^◌, length};
ghost use Rattle.std.specs.List.{AllByRecursion};
ghost use Rattle.dip_desk_state.specs.ChangeRows as desk_rows;
ghost use Rattle.dip_desk_state.specs.Rows as rows;
ghost use Rattle.dip_store_tables.specs.ChangeColumns.{HasWidths, IsEffectNarrow, IsNarrow};

use dip_desk_state::{Change, Effect, NewSeat, Public};

/// A digest has 32 bytes.
fn has_32(digest: [u8; 32])
    ensures { length digest ≡ 32 }
{
    let _digest = digest;
}

/// The digest of each seat has 32 bytes.
fn seats_have_32(seats: &[NewSeat])
    ensures { AllByRecursion (λ s. length s.digest ≡ 32) seats.now }
{
    for seat in seats {
        has_32(seat.digest);
    }
}

/// Numbers of a public part fit their columns.
fn is_narrow(public: &Public)
    ensures { IsNarrow (rows.public public.now) }
{
    let _year = public.board.phase().year;
    let _period = public.period;
    let _papers = public.papers;
}

/// Numbers of an effect fit their columns.
fn is_effect_narrow(effect: &Effect)
    ensures { IsEffectNarrow (desk_rows.effect effect.now) }
{
    match effect {
        Effect::Nothing | Effect::Pending(_) | Effect::Votes(_) | Effect::Delivers { .. } => {}
        Effect::Opens { public, seats, .. } => {
            is_narrow(public);
            seats_have_32(seats.as_slice());
        }
        Effect::Publishes { public, .. } => is_narrow(public),
        Effect::Seats(seat) => has_32(seat.digest),
    }
}

/// The numbers, the sum and the digests of each change have the widths of their columns, by their types.
pub fn has_widths(change: &Change)
    ensures { HasWidths (desk_rows.change change.now) }
{
    let _number = change.kept.number;
    has_32(change.kept.sum);
    is_effect_narrow(&change.effect);
}
