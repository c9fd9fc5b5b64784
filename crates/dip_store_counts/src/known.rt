//! What is known of the row of a letter's author, or found in it.
ghost use Rattle.std.specs.Prelude.{◌≡◌, IfErr, IfOk, OnOk, option_map};
ghost use Rattle.std.specs.List.{AllByRecursion, find};
ghost use Rattle.sqlite.specs.Order.{bytes, column};
ghost use Rattle.dip_desk_state.specs.ChangeRows as machine;
ghost use Rattle.dip_desk_state.specs.Rows as records;
ghost use Rattle.dip_store_tables.specs.Tables.{is_seat};
ghost use Rattle.dip_store_sql.specs.Causes.{has_faulted};
ghost use Rattle.dip_store_sql.specs.Calls.{IsKept, Selects, does_show, is_honest, tables_in};
ghost use Rattle.dip_store_counts.specs.Counts.{Peeks};
ghost use Rattle.dip_store_counts.specs.Failing.{IsSeatKept, IsSeatShown};
ghost use Rattle.dip_store_sql.specs.RowFaults.{FailsFor};
ghost use Rattle.dip_store_counts.specs.Knowing.{IsKnown, RowHasRoom, author_row, is_press, is_unordered, known_own, own_row, row_after, row_known, row_of, shown_row};

use dip_desk_state::{Author, Effect, MOST_SENT, Own};
use dip_map::Map;
use dip_store_sql::{RowFault, find_seat};
use sqlite::{Alter, Connection, Row};

/// What the row of a letter's author says beside its last letter: the digest of the seat's secret, how many press letters it has sent,
/// and how many items its inbox has.
#[derive(Clone, Copy)]
pub struct AuthorRow {
    pub digest: [u8; 32],
    pub sent: u32,
    pub items: u32,
}

impl AuthorRow {
    /// What an own part says of its seat's row.
    pub fn of(own: &Own) -> AuthorRow
        ensures { result ≡ own_row (records.own own.now) }
    {
        let digest = own.digest;
        AuthorRow {
            digest,
            sent: own.sent,
            items: own.items,
        }
    }
}

/// What a look told of a letter's author, so that its row needn't be read again.
#[derive(Clone, Copy)]
pub struct KnownAuthor {
    /// What its row says beside its last letter.
    pub row: AuthorRow,
    /// Whether no order of it stands; where this is false, some may.
    pub unordered: bool,
}

impl KnownAuthor {
    /// What an own part says of its seat.
    pub fn of(own: &Own) -> KnownAuthor
        ensures { result ≡ known_own (records.own own.now) }
    {
        KnownAuthor {
            row: AuthorRow::of(own),
            unordered: own.pending.is_empty(),
        }
    }
}

/// What is known before a change is made, so that it needn't be read.
#[derive(Clone, Copy)]
pub struct KnownBefore {
    /// Of the letter's author.
    pub author: Option<KnownAuthor>,
    /// How many papers the change's game has.
    pub papers: Option<u32>,
}

/// The author's row, if it is known without a look.
pub fn row_known(known: Option<KnownAuthor>) -> Option<AuthorRow>
    ensures { result ≡ row_known known }
{
    match known {
        Some(author) => Some(author.row),
        None => None,
    }
}

/// Whether it is known that no order of the author stands.
pub fn is_unordered(known: Option<KnownAuthor>) -> bool
    ensures { result ≡ is_unordered known }
{
    match known {
        Some(author) => author.unordered,
        None => false,
    }
}

fn digest_in(row: &Row) -> Result<[u8; 32], RowFault>
    ensures value { IfOk result (λ d. d ≡ bytes (column row.now 0)) }
    ensures fails { IsSeatShown row.now → IfErr result (FailsFor ⊥ ⊥) }
{
    let found: Vec<u8> = row.get(0)?;
    match <[u8; 32]>::try_from(found.as_slice()) {
        Ok(digest) => Ok(digest),
        Err(_) => Err(RowFault::Misfit),
    }
}

fn row_in(row: &Row) -> Result<AuthorRow, RowFault>
    ensures shown { IfOk result (λ r. r ≡ shown_row row.now) }
    ensures fails { IsSeatShown row.now → IfErr result (FailsFor ⊥ ⊥) }
{
    Ok(AuthorRow {
        digest: digest_in(row)?,
        sent: row.get(5)?,
        items: row.get(6)?,
    })
}

/// What a seat's row says; none where there is no such seat.
fn find_row<S: Alter>(
    conn: &mut Connection<S>,
    game: &str,
    power: &str,
) -> Result<Option<AuthorRow>, RowFault>
    ensures value { IsKept S.Store conn.old → is_honest S.Store conn.new → IfOk result (λ o. o
        ≡ option_map row_of
        (find (is_seat game.now power.now) (tables_in S.Store conn.old).seats)) }
    ensures selects { Selects S.Store conn.old conn.new result }
    ensures fails { IsKept S.Store conn.old → does_show S.Store conn.old
        → is_honest S.Store conn.new
        → AllByRecursion IsSeatKept (tables_in S.Store conn.old).seats
        → IfErr result (FailsFor (has_faulted S.Store conn.old conn.new) ⊥) }
{
    let Some(row) = find_seat(conn, game, power)? else {
        return Ok(None);
    };
    let found = row_in(&row)?;
    Ok(Some(found))
}

/// What the author's row says; none where the author has no seat.
fn find_author<S: Alter>(
    conn: &mut Connection<S>,
    map: &Map,
    game: &str,
    author: Author,
) -> Result<Option<AuthorRow>, RowFault>
    ensures value { IsKept S.Store conn.old → is_honest S.Store conn.new → IfOk result (λ o. o
        ≡ author_row map.now (machine.author author) game.now
        (tables_in S.Store conn.old).seats) }
    ensures peeks { Peeks S.Store conn.old conn.new result }
    ensures fails { IsKept S.Store conn.old → does_show S.Store conn.old
        → is_honest S.Store conn.new
        → AllByRecursion IsSeatKept (tables_in S.Store conn.old).seats
        → IfErr result (FailsFor (has_faulted S.Store conn.old conn.new) ⊥) }
{
    match author {
        Author::Nobody => Ok(None),
        Author::TheMaster => Ok(None),
        Author::Seat(power) => find_row(conn, game, map.power_name(power)),
    }
}

/// What the author's row says; nothing is asked where it is known.
pub(crate) fn know_author<S: Alter>(
    conn: &mut Connection<S>,
    map: &Map,
    game: &str,
    author: Author,
    known: Option<AuthorRow>,
) -> Result<Option<AuthorRow>, RowFault>
    ensures value { IsKept S.Store conn.old → IsKnown known map.now (machine.author author) game.now
        (tables_in S.Store conn.old).seats → is_honest S.Store conn.new → IfOk result (λ o. o
        ≡ author_row map.now (machine.author author) game.now
        (tables_in S.Store conn.old).seats) }
    ensures peeks { Peeks S.Store conn.old conn.new result }
    ensures fails { IsKept S.Store conn.old → does_show S.Store conn.old
        → is_honest S.Store conn.new
        → AllByRecursion IsSeatKept (tables_in S.Store conn.old).seats
        → IfErr result (FailsFor (has_faulted S.Store conn.old conn.new) ⊥) }
{
    match known {
        Some(row) => Ok(Some(row)),
        None => find_author(conn, map, game, author),
    }
}

fn is_press(effect: &Effect) -> bool
    ensures { result ≡ is_press (machine.effect effect.now) }
{
    match effect {
        Effect::Delivers { .. } => true,
        Effect::Nothing => false,
        Effect::Pending(_) => false,
        Effect::Votes(_) => false,
        Effect::Opens { .. } => false,
        Effect::Publishes { .. } => false,
        Effect::Seats(_) => false,
    }
}

/// The author's row after a letter of this effect, if it has room to count it.
pub(crate) fn row_after(row: AuthorRow, effect: &Effect) -> Result<AuthorRow, RowFault>
    ensures value { IfOk result (λ r. r ≡ row_after (machine.effect effect.now) row) }
    ensures room { OnOk result (RowHasRoom (machine.effect effect.now) row) }
    ensures fails { IfErr result (FailsFor ⊥ (¬ RowHasRoom (machine.effect effect.now) row)) }
{
    if !is_press(effect) {
        return Ok(row);
    }
    if MOST_SENT <= row.sent {
        return Err(RowFault::Misfit);
    }
    let digest = row.digest;
    Ok(AuthorRow {
        digest,
        sent: row.sent + 1,
        items: row.items,
    })
}
