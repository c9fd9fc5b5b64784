//! A vote as it is printed.
ghost use Rattle.std.specs.Prelude.{◌≡◌, ◌++◌, IfOk, OnOk, string_bytes};
ghost use Rattle.dip_reports.specs.Texts.{vote_line, vote_text};
ghost use Rattle.dip_desk_state.specs.Rows as rows;

use dip_desk_state::{Vote, push_powers};
use dip_map::Map;
use std::alloc::{AllocError, Global};

/// Appends what a seat votes for, with the powers that it names.
#[tactic(auto, unfolding(crate::specs::Texts::vote_text))]
pub fn push_vote(map: &Map, vote: &Vote, out: &mut String) -> Result<(), AllocError>
    ensures { OnOk result
        (string_bytes out.new ≡ string_bytes out.old ++ vote_text map.now (rows.vote vote.now)) }
{
    match vote {
        Vote::No => out.push_str("NO"),
        Vote::Yes => out.push_str("YES"),
        Vote::For(powers) => {
            out.push_str("FOR")?;
            push_powers(map, powers.as_slice(), out)
        }
    }
}

/// The line of VOTE: what the seat votes for from now on.
pub fn vote_line(alloc: Global, map: &Map, vote: &Vote) -> Result<String, AllocError>
    ensures { IfOk result
        (λ line. string_bytes line ≡ vote_line map.now (rows.vote vote.now)) }
{
    let mut line = String::from_str(alloc, "OK vote ")?;
    push_vote(map, vote, &mut line)?;
    line.push_str("\n")?;
    Ok(line)
}
