//! What is counted before a change is made.
ghost use Rattle.std.specs.Prelude.{◌≡◌, ◌<◌, ◌^◌, All, IfErr, IfOk, OnOk, true};
ghost use Rattle.std.specs.List.{AllByRecursion};
ghost use Rattle.dip_desk_state.specs.Bounds.{most_items};
ghost use Rattle.dip_desk_state.specs.ChangeRows as machine;
ghost use Rattle.dip_store_tables.specs.ChangeColumns.{FitsColumns};
ghost use Rattle.dip_store_tables.specs.Counting.{CountsOn, IsNextPaper};
ghost use Rattle.dip_store_tables.specs.Tables.{is_named};
ghost use Rattle.dip_store_tables.specs.Legible.{AreOurs};
ghost use Rattle.dip_store_sql.specs.Causes.{has_faulted};
ghost use Rattle.dip_store_sql.specs.Calls.{IsKept, Selects, does_show, is_honest, tables_in};
ghost use Rattle.dip_store_counts.specs.Counts.{AreReaders, Counts, CountsRow, Peeks};
ghost use Rattle.dip_store_counts.specs.Failing.{HasPlace, InboxesHaveRoom, IsSeatKept, PressHasRoom};
ghost use Rattle.dip_store_sql.specs.RowFaults.{FailsFor};
ghost use Rattle.dip_store_counts.specs.Knowing.{ArePapersKnown, IsKeptAs, IsKnown};

use crate::known::{AuthorRow, know_author, row_after};
use crate::papers::know_papers;
use crate::readers::{Reader, find_readers};
use dip_desk_state::{Author, Change, Effect, MOST_PAPERS};
use dip_map::Map;
use dip_store_sql::RowFault;
use sqlite::{Alter, Connection};
use std::alloc::Global;

/// The author's row after its letter, but for the letter, where the author has a seat; and the seats that have its press.
#[derive(Drop)]
pub struct Counted {
    pub row: Option<AuthorRow>,
    pub readers: Vec<Reader>,
}

/// Whether the paper has the next number of its game, which is no more than a game has.
fn check_number<S: Alter>(
    conn: &mut Connection<S>,
    game: &str,
    papers: u32,
    known: Option<u32>,
) -> Result<(), RowFault>
    ensures value { IsKept S.Store conn.old
        → ArePapersKnown known game.now (tables_in S.Store conn.old).games
        → is_honest S.Store conn.new → OnOk result
        (AllByRecursion (λ g. is_named game.now g ≡ true → IsNextPaper papers g)
        (tables_in S.Store conn.old).games) }
    ensures peeks { Peeks S.Store conn.old conn.new result }
    ensures fails { IsKept S.Store conn.old
        → ArePapersKnown known game.now (tables_in S.Store conn.old).games
        → does_show S.Store conn.old → is_honest S.Store conn.new
        → AllByRecursion (λ g. g.papers < 2 ^ 32) (tables_in S.Store conn.old).games
        → IfErr result (FailsFor (has_faulted S.Store conn.old conn.new)
        (¬ AllByRecursion (λ g. is_named game.now g ≡ true → IsNextPaper papers g)
        (tables_in S.Store conn.old).games)) }
{
    let Some(count) = know_papers(conn, game, known)? else {
        return Ok(());
    };
    if MOST_PAPERS <= count || papers != count + 1 {
        return Err(RowFault::Misfit);
    }
    Ok(())
}

/// Whether the paper of the effect has the next number of its game.
fn check_paper<S: Alter>(
    conn: &mut Connection<S>,
    game: &str,
    effect: &Effect,
    known: Option<u32>,
) -> Result<(), RowFault>
    requires { FitsColumns (machine.effect effect.now) }
    ensures value { IsKept S.Store conn.old
        → ArePapersKnown known game.now (tables_in S.Store conn.old).games
        → is_honest S.Store conn.new → OnOk result
        (CountsOn game.now (machine.effect effect.now) (tables_in S.Store conn.old).games) }
    ensures peeks { Peeks S.Store conn.old conn.new result }
    ensures fails { IsKept S.Store conn.old
        → ArePapersKnown known game.now (tables_in S.Store conn.old).games
        → does_show S.Store conn.old → is_honest S.Store conn.new
        → AllByRecursion (λ g. g.papers < 2 ^ 32) (tables_in S.Store conn.old).games
        → IfErr result (FailsFor (has_faulted S.Store conn.old conn.new)
        (¬ CountsOn game.now (machine.effect effect.now)
        (tables_in S.Store conn.old).games)) }
{
    match effect {
        Effect::Publishes { public, .. } => check_number(conn, game, public.papers, known),
        Effect::Nothing => Ok(()),
        Effect::Pending(_) => Ok(()),
        Effect::Votes(_) => Ok(()),
        Effect::Delivers { .. } => Ok(()),
        Effect::Opens { .. } => Ok(()),
        Effect::Seats(_) => Ok(()),
    }
}

/// The author's row after its letter, but for the letter; none where the author has no seat.
fn count_author<S: Alter>(
    conn: &mut Connection<S>,
    map: &Map,
    game: &str,
    author: Author,
    effect: &Effect,
    known: Option<AuthorRow>,
) -> Result<Option<AuthorRow>, RowFault>
    ensures value { IsKept S.Store conn.old → IsKnown known map.now (machine.author author) game.now
        (tables_in S.Store conn.old).seats → is_honest S.Store conn.new → IfOk result (λ row.
        CountsRow row map.now (machine.author author) game.now (machine.effect effect.now)
        (tables_in S.Store conn.old)) }
    ensures peeks { Peeks S.Store conn.old conn.new result }
    ensures room { IsKept S.Store conn.old → IsKnown known map.now (machine.author author) game.now
        (tables_in S.Store conn.old).seats → is_honest S.Store conn.new → OnOk result
        (PressHasRoom map.now (machine.author author) game.now (machine.effect effect.now)
        (tables_in S.Store conn.old).seats) }
    ensures fails { IsKept S.Store conn.old → IsKnown known map.now (machine.author author) game.now
        (tables_in S.Store conn.old).seats → does_show S.Store conn.old
        → is_honest S.Store conn.new
        → AllByRecursion IsSeatKept (tables_in S.Store conn.old).seats
        → IfErr result (FailsFor (has_faulted S.Store conn.old conn.new)
        (¬ PressHasRoom map.now (machine.author author) game.now
        (machine.effect effect.now) (tables_in S.Store conn.old).seats)) }
{
    let Some(row) = know_author(conn, map, game, author, known)? else {
        return Ok(None);
    };
    let next = row_after(row, effect)?;
    Ok(Some(next))
}

/// The readers of the effect, where it is press.
fn readers_of<S: Alter>(
    conn: &mut Connection<S>,
    alloc: Global,
    map: &Map,
    game: &str,
    effect: &Effect,
) -> Result<Vec<Reader>, RowFault>
    ensures room { IfOk result (λ v. All (λ r. r.items < most_items) v.items) }
    ensures value { IsKept S.Store conn.old → is_honest S.Store conn.new → IfOk result (λ v.
        AreReaders map.now game.now (machine.effect effect.now)
        (tables_in S.Store conn.old).seats v.items) }
    ensures peeks { Peeks S.Store conn.old conn.new result }
    ensures fails { IsKept S.Store conn.old → does_show S.Store conn.old
        → is_honest S.Store conn.new → AreOurs map.now (tables_in S.Store conn.old)
        → IfErr result (FailsFor (has_faulted S.Store conn.old conn.new)
        (¬ InboxesHaveRoom map.now game.now (machine.effect effect.now)
        (tables_in S.Store conn.old).seats)) }
{
    match effect {
        Effect::Delivers { readers, .. } => {
            find_readers(conn, alloc, map, game, readers.as_slice())
        }
        Effect::Nothing => Ok(Vec::new(alloc)),
        Effect::Pending(_) => Ok(Vec::new(alloc)),
        Effect::Votes(_) => Ok(Vec::new(alloc)),
        Effect::Opens { .. } => Ok(Vec::new(alloc)),
        Effect::Publishes { .. } => Ok(Vec::new(alloc)),
        Effect::Seats(_) => Ok(Vec::new(alloc)),
    }
}

/// Counts before the change is made: what the author's row will say, and which seats get its press.
/// `Misfit` where a count is full or a paper hasn't the next number.
pub fn count<S: Alter>(
    conn: &mut Connection<S>,
    alloc: Global,
    map: &Map,
    change: &Change,
    known: Option<AuthorRow>,
    papers: Option<u32>,
) -> Result<Counted, RowFault>
    requires { FitsColumns (machine.effect change.now.effect) }
    ensures room { IfOk result (λ n. All (λ r. r.items < most_items) n.readers.items) }
    ensures value { IsKeptAs S.Store known papers map.now (machine.change change.now) conn.old
        → is_honest S.Store conn.new → IfOk result (λ n.
        Counts n.row n.readers.items map.now (machine.change change.now)
        (tables_in S.Store conn.old)) }
    ensures peeks { Peeks S.Store conn.old conn.new result }
    ensures place { IsKeptAs S.Store known papers map.now (machine.change change.now) conn.old
        → is_honest S.Store conn.new → OnOk result
        (HasPlace map.now (machine.change change.now) (tables_in S.Store conn.old)) }
    ensures fails { IsKeptAs S.Store known papers map.now (machine.change change.now) conn.old
        → does_show S.Store conn.old → is_honest S.Store conn.new
        → AreOurs map.now (tables_in S.Store conn.old)
        → IfErr result (FailsFor (has_faulted S.Store conn.old conn.new)
        (¬ HasPlace map.now (machine.change change.now)
        (tables_in S.Store conn.old))) }
{
    let game = change.game.as_str();
    check_paper(conn, game, &change.effect, papers)?;
    let row = count_author(conn, map, game, change.author, &change.effect, known)?;
    let readers = readers_of(conn, alloc, map, game, &change.effect)?;
    Ok(Counted { row, readers })
}
