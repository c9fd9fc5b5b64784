//! What is read of tables of version 1 before they are made into those of version 2.
ghost use Rattle.std.specs.Prelude.{◌≡◌, ◌==◌, ◌⊎◌, not, IfErr, IfOk, map as each};
ghost use Rattle.std.specs.List.{AllByRecursion};
ghost use Rattle.dip_desk_state.specs.Rows.{lines};
ghost use Rattle.dip_store_sql.specs.RowFaults.{IsFromOutside};
ghost use Rattle.dip_store_sql.specs.Values.{HasText};
ghost use Rattle.dip_store_schema.specs.Renewing.{IsVoteReadable, shown_ballot, shown_name};

use dip_store_sql::{RowFault, number_at, text_at};
use sqlite::Row;
use std::alloc::Global;
use std::marker::Model;

/// The ballot of a seat: its game, its power's name, and whether it votes for a draw between all survivors.
#[derive(Drop)]
pub struct NewBallot {
    pub game: String,
    pub power: String,
    pub draws: bool,
}

impl Model for NewBallot {
    ghost use Rattle.std.specs.Prelude.{string_bytes, codes, if◌then◌else◌};
    ghost use Rattle.dip_store_tables.specs.Tables.{BallotRow};

    ghost Value = { BallotRow };

    ghost view = { λ b. record { game = string_bytes b.game; power = string_bytes b.power; names = if b.draws then codes "YES" else codes "NO" } };
}

/// The names of games, each in a row.
pub(crate) fn names_in(alloc: Global, rows: &[Row]) -> Result<Vec<String>, RowFault>
    ensures value { IfOk result (λ v. lines v.items ≡ each shown_name rows.now) }
    ensures own { AllByRecursion (λ r. HasText r 0) rows.now → IfErr result (IsFromOutside ⊥) }
{
    let mut names = Vec::new(alloc);
    for row in rows {
        names.push(text_at(row, 0)?)?;
    }
    Ok(names)
}

/// Whether a vote, as version 1 numbers it, is for a draw.
fn is_for_draw(vote: u32) -> Result<bool, RowFault>
    ensures value { IfOk result (λ b. b ≡ not (vote == 0)) }
    ensures own { (vote ≡ 0) ⊎ (vote ≡ 1) → IfErr result (IsFromOutside ⊥) }
{
    match vote {
        0 => Ok(false),
        1 => Ok(true),
        _ => Err(RowFault::Misfit),
    }
}

/// A seat's ballot, of its game, its power and its vote in a row.
fn ballot_in(row: &Row) -> Result<NewBallot, RowFault>
    ensures value { IfOk result (λ b. b ≡ shown_ballot row.now) }
    ensures own { IsVoteReadable row.now → IfErr result (IsFromOutside ⊥) }
{
    Ok(NewBallot {
        game: text_at(row, 0)?,
        power: text_at(row, 1)?,
        draws: is_for_draw(number_at(row, 2)?)?,
    })
}

/// The ballots of seats, each in a row.
pub(crate) fn ballots_in(alloc: Global, rows: &[Row]) -> Result<Vec<NewBallot>, RowFault>
    ensures value { IfOk result (λ v. v.items ≡ each shown_ballot rows.now) }
    ensures own { AllByRecursion IsVoteReadable rows.now → IfErr result (IsFromOutside ⊥) }
{
    let mut ballots = Vec::new(alloc);
    for row in rows {
        ballots.push(ballot_in(row)?)?;
    }
    Ok(ballots)
}
