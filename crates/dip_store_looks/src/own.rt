//! A seat's own part.
ghost use Rattle.std.specs.Prelude.{◌≡◌, ◌<◌, [], IfErr, IfOk, IfSome, length, map as each, option_map, true};
ghost use Rattle.sqlite.specs.Order.{bytes, column};
ghost use Rattle.std.specs.List.{AllByRecursion, find};
ghost use Rattle.dip_store_tables.specs.Boards.{power_name};
ghost use Rattle.dip_store_sql.specs.RowFaults.{IsFromOutside};
ghost use Rattle.dip_store_looks.specs.Readable.{IsBallotReadable, IsOrderReadable, IsSeatReadable};
ghost use Rattle.dip_desk_state.specs.State.{IsIdle};
ghost use Rattle.dip_store_looks.specs.Shown.{IsBeside, shown_order, shown_own};
ghost use Rattle.dip_desk_state.specs.Records.{No};
ghost use Rattle.dip_store_tables.specs.Legible.{AreOurs};
ghost use Rattle.dip_desk_state.specs.Rows as rows;
ghost use Rattle.dip_store_sql.specs.Causes.{has_faulted};
ghost use Rattle.dip_store_sql.specs.Calls.{IsKept, Selects, does_show, is_honest, tables_in};
ghost use Rattle.dip_store_tables.specs.Reading.{own_of, standing_of};
ghost use Rattle.dip_store_tables.specs.Tables.{is_seat};
ghost use Rattle.dip_store_tables.specs.Votes.{vote_in, vote_of};

use crate::letters::kept_in;
use dip_desk_state::{Own, Standing, Vote};
use dip_map::Map;
use dip_names::Power;
use dip_store_sql::{
    RowFault, digest_at, find_ballot, find_digest, find_seat, list_orders, number_at, text_at,
};
use dip_store_tables::read_vote;
use sqlite::{Alter, Connection, Row};
use std::alloc::Global;

fn standing_in(map: &Map, row: &Row) -> Result<Standing, RowFault>
    ensures value { IfOk result (λ s.
        rows.standing s ≡ standing_of map.now (shown_order row.now)) }
    ensures own { IsOrderReadable map.now row.now → IfErr result (IsFromOutside ⊥) }
{
    map.facts();
    let province = text_at(row, 0)?;
    let Some(prov) = map.prov(province.as_bytes()) else {
        return Err(RowFault::Misfit);
    };
    Ok(Standing {
        prov,
        line: text_at(row, 1)?,
    })
}

fn standings_in(alloc: Global, map: &Map, orders: &[Row]) -> Result<Vec<Standing>, RowFault>
    ensures value { IfOk result (λ v. rows.standings v.items
        ≡ each (λ r. standing_of map.now (shown_order r)) orders.now) }
    ensures own { AllByRecursion (IsOrderReadable map.now) orders.now
        → IfErr result (IsFromOutside ⊥) }
{
    let mut standings = Vec::new(alloc);
    for order in orders {
        standings.push(standing_in(map, order)?)?;
    }
    Ok(standings)
}

/// What a ballot's row says.
fn vote_on(alloc: Global, map: &Map, row: &Row) -> Result<Vote, RowFault>
    ensures value { IfOk result (λ v. rows.vote v ≡ vote_of map.now (bytes (column row.now 0))) }
    ensures own { IsBallotReadable map.now row.now → IfErr result (IsFromOutside ⊥) }
{
    let names = text_at(row, 0)?;
    match read_vote(alloc, map, names.as_str())? {
        Some(vote) => Ok(vote),
        None => Err(RowFault::Misfit),
    }
}

/// What a seat votes for, by its game and its power's name; no draw where it has no ballot.
fn look_vote<S: Alter>(
    conn: &mut Connection<S>,
    alloc: Global,
    map: &Map,
    game: &str,
    power: &str,
) -> Result<Vote, RowFault>
    ensures value { IsKept S.Store conn.old → is_honest S.Store conn.new → IfOk result (λ v.
        rows.vote v ≡ vote_in map.now (tables_in S.Store conn.old).ballots game.now power.now) }
    ensures selects { Selects S.Store conn.old conn.new result }
    ensures own { IsKept S.Store conn.old → does_show S.Store conn.old → is_honest S.Store conn.new
        → AreOurs map.now (tables_in S.Store conn.old)
        → IfErr result (IsFromOutside (has_faulted S.Store conn.old conn.new)) }
{
    match find_ballot(conn, game, power)? {
        Some(row) => vote_on(alloc, map, &row),
        None => Ok(Vote::No),
    }
}

/// What a seat has beside its row.
#[derive(Drop)]
pub(crate) struct Beside {
    /// The vote on its ballot; `No` where it has no ballot.
    pub vote: Vote,
    /// The rows of its standing orders, in the order in which they were inserted.
    pub orders: Vec<Row>,
}

/// What a seat has beside its row, by its game and its power's name.
pub(crate) fn look_beside<S: Alter>(
    conn: &mut Connection<S>,
    alloc: Global,
    map: &Map,
    game: &str,
    power: &str,
) -> Result<Beside, RowFault>
    ensures value { IsKept S.Store conn.old → is_honest S.Store conn.new → IfOk result (λ b.
        IsBeside map.now (tables_in S.Store conn.old) game.now power.now b) }
    ensures selects { Selects S.Store conn.old conn.new result }
    ensures own { IsKept S.Store conn.old → does_show S.Store conn.old → is_honest S.Store conn.new
        → AreOurs map.now (tables_in S.Store conn.old)
        → IfErr result (IsFromOutside (has_faulted S.Store conn.old conn.new)) }
{
    let orders = list_orders(conn, game, power)?;
    let vote = look_vote(conn, alloc, map, game, power)?;
    Ok(Beside { vote, orders })
}

/// The own part that a seat's row, from a column on, and the rows of its orders show.
pub(crate) fn own_in(
    alloc: Global,
    map: &Map,
    power: Power,
    row: &Row,
    at: usize,
    beside: Beside,
) -> Result<Own, RowFault>
    requires { at < 2 }
    ensures value { IfOk result (λ o. rows.own o
        ≡ shown_own map.now power (rows.vote beside.vote) at row.now beside.orders.items) }
    ensures own { IsSeatReadable row.now at
        → AllByRecursion (IsOrderReadable map.now) beside.orders.items
        → IfErr result (IsFromOutside ⊥) }
{
    let Beside { vote, orders } = beside;
    Ok(Own {
        power,
        digest: digest_at(row, at)?,
        vote,
        pending: standings_in(alloc, map, orders.as_slice())?,
        kept: kept_in(alloc, row, at + 2)?,
        sent: number_at(row, at + 5)?,
        items: number_at(row, at + 6)?,
    })
}

/// The own part of a seat that has nothing beside its row: it votes for no draw, and no order of it stands.
fn idle_own(alloc: Global, map: &Map, power: Power, row: &Row) -> Result<Own, RowFault>
    ensures value { IfOk result (λ o. rows.own o ≡ shown_own map.now power No 0 row.now []) }
    ensures own { IsSeatReadable row.now 0 → IfErr result (IsFromOutside ⊥) }
{
    let beside = Beside {
        vote: Vote::No,
        orders: Vec::new(alloc),
    };
    own_in(alloc, map, power, row, 0, beside)
}

/// The digest of a seat's secret; none where there is no such seat. Nothing else of the seat is read.
///
/// # Errors
/// Want of memory, the database's own, or `Misfit` where the digest is none that a keeper writes.
pub fn look_digest<S: Alter>(
    conn: &mut Connection<S>,
    map: &Map,
    game: &str,
    power: Power,
) -> Result<Option<[u8; 32]>, RowFault>
    requires { power < length map.now.realms }
    ensures value { IsKept S.Store conn.old → is_honest S.Store conn.new → IfOk result (λ d.
        d ≡ option_map (λ s. s.digest)
        (find (is_seat game.now (power_name map.now power)) (tables_in S.Store conn.old).seats)) }
    ensures selects { Selects S.Store conn.old conn.new result }
    ensures own { IsKept S.Store conn.old → does_show S.Store conn.old → is_honest S.Store conn.new
        → AreOurs map.now (tables_in S.Store conn.old)
        → IfErr result (IsFromOutside (has_faulted S.Store conn.old conn.new)) }
{
    let Some(row) = find_digest(conn, game, map.power_name(power))? else {
        return Ok(None);
    };
    let digest = digest_at(&row, 0)?;
    Ok(Some(digest))
}

/// A seat's own part, all but the items of its inbox; none where there is no such seat. Where it is known that the seat votes for no
/// draw and that no order of it stands, its row alone is read.
///
/// # Errors
/// Want of memory, the database's own, or `Misfit` where a row of it is none that a keeper writes by this map.
pub fn look_own<S: Alter>(
    conn: &mut Connection<S>,
    alloc: Global,
    map: &Map,
    game: &str,
    power: Power,
    idle: bool,
) -> Result<Option<Own>, RowFault>
    requires { power < length map.now.realms }
    ensures value { IsKept S.Store conn.old → is_honest S.Store conn.new
        → (idle ≡ true → IfSome (option_map (own_of map.now (tables_in S.Store conn.old).pending
        (tables_in S.Store conn.old).ballots)
        (find (is_seat game.now (power_name map.now power)) (tables_in S.Store conn.old).seats))
        IsIdle)
        → IfOk result (λ o.
        option_map rows.own o ≡ option_map (own_of map.now (tables_in S.Store conn.old).pending
        (tables_in S.Store conn.old).ballots)
        (find (is_seat game.now (power_name map.now power)) (tables_in S.Store conn.old).seats)) }
    ensures selects { Selects S.Store conn.old conn.new result }
    ensures own { IsKept S.Store conn.old → does_show S.Store conn.old → is_honest S.Store conn.new
        → AreOurs map.now (tables_in S.Store conn.old)
        → IfErr result (IsFromOutside (has_faulted S.Store conn.old conn.new)) }
{
    map.facts();
    let name = map.power_name(power);
    let Some(row) = find_seat(conn, game, name)? else {
        return Ok(None);
    };
    if idle {
        let alone = idle_own(alloc, map, power, &row)?;
        return Ok(Some(alone));
    }
    let beside = look_beside(conn, alloc, map, game, name)?;
    let own = own_in(alloc, map, power, &row, 0, beside)?;
    Ok(Some(own))
}
