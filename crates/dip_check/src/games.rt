//! All papers of a game, one after the other.
ghost use Rattle.std.specs.Prelude.{◌≤◌, IfOk, map as each};
ghost use Rattle.dip_check_papers.specs.Checks.{AreJudged};
ghost use Rattle.dip_check_papers.specs.Games.{AreNext, AreOfGame};
ghost use Rattle.dip_desk_state.specs.Rows as rows;
ghost use Rattle.dip_map.specs.Boards.{IsOf};

use crate::checking::check_paper;
use dip_check_papers::{Papers, Verdict, check_opening, papers_have_one_answer};
use dip_desk_state::Public;
use dip_map::Map;
use std::alloc::{AllocError, Global};

/// What is said of papers that are to come one after the other in a game that stands so after its first; a wrong one is counted from
/// these on.
fn check_from(
    alloc: Global,
    map: &Map,
    first: Public,
    papers: &[&str],
) -> Result<Papers, AllocError>
    requires of_map { IsOf map.now first.board.value }
    requires short { first.period ≤ 999999 }
    ensures { IfOk result (λ v. AreJudged (AreNext map.now (rows.public first))
        (each (λ t. t.now) papers.now) v) }
{
    papers_have_one_answer(map);
    let mut public = first;
    for (number, paper) in papers.iter().enumerate() {
        match check_paper(alloc, map, &public, paper)? {
            Verdict::Right(after) => public = after,
            Verdict::Wrong(fault) => return Ok(Papers::Wrong(number + 1, fault)),
        }
    }
    Ok(Papers::Right(public))
}

/// What is said of texts that are to be the papers of a game, in order: they are right just where the rules give them, from the opening
/// on, each after the one before it. Where no game has these papers, the first that is wrong is told: those before it are a game's.
///
/// # Errors
/// Want of memory alone.
pub fn check_papers(alloc: Global, map: &Map, papers: &[&str]) -> Result<Papers, AllocError>
    ensures { IfOk result (λ v. AreJudged (AreOfGame map.now) (each (λ t. t.now) papers.now) v) }
{
    papers_have_one_answer(map);
    if papers.is_empty() {
        return Ok(Papers::None);
    }
    match check_opening(alloc, map, papers[0])? {
        Verdict::Right(first) => match check_from(alloc, map, first, &papers[1..])? {
            Papers::Right(public) => Ok(Papers::Right(public)),
            Papers::Wrong(number, fault) => Ok(Papers::Wrong(number + 1, fault)),
            Papers::None => Ok(Papers::None),
        },
        Verdict::Wrong(fault) => Ok(Papers::Wrong(1, fault)),
    }
}
