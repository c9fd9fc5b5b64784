//! How a game stands, as it is printed.
ghost use Rattle.std.specs.Prelude.{◌≡◌, ◌++◌, OnOk, codes, flat_map, string_bytes};
ghost use Rattle.dip_map.specs.Charts.{realm};
ghost use Rattle.dip_desk_state.specs.Rows as rows;
ghost use Rattle.dip_desk_state.specs.Texts.{status_text};

use crate::records::Status;
use dip_map::Map;
use dip_names::Power;
use std::alloc::AllocError;

/// Appends the names of powers, each after a space.
pub fn push_powers(map: &Map, powers: &[Power], out: &mut String) -> Result<(), AllocError>
    ensures { OnOk result (string_bytes out.new
        ≡ string_bytes out.old ++ flat_map (λ p. codes " " ++ (realm map.now p).name) powers.now) }
{
    for power in powers {
        out.push_str(" ")?;
        out.push_str(map.power_name(*power))?;
    }
    Ok(())
}

/// Appends how a game stands, with the powers that won or share it.
#[tactic(auto, unfolding(crate::specs::Texts::status_text))]
pub fn push_status(map: &Map, status: &Status, out: &mut String) -> Result<(), AllocError>
    ensures { OnOk result
        (string_bytes out.new ≡ string_bytes out.old ++ status_text map.now
        (rows.status status.now)) }
{
    match status {
        Status::Running => out.push_str("running"),
        Status::Paused => out.push_str("paused"),
        Status::Closed => out.push_str("closed"),
        Status::Ended => out.push_str("ended"),
        Status::Won(power) => {
            out.push_str("won by ")?;
            out.push_str(map.power_name(*power))
        }
        Status::Drawn(powers) => {
            out.push_str("drawn by")?;
            push_powers(map, powers.as_slice(), out)
        }
    }
}
