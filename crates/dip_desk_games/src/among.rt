//! Whether a power is one of some.
ghost use Rattle.std.specs.Prelude.{◌≡◌};
ghost use Rattle.dip_desk_games.specs.Among as a;

use dip_names::Power;

/// Whether the power is one of these.
pub fn is_among(power: Power, powers: &[Power]) -> bool
    ensures { result ≡ a.is_among power powers.now }
{
    powers.iter().any(|other| *other == power)
}
