//! What a store's schema knows.
ghost use Rattle.std.specs.Prelude.{◌↔◌, ◌≡◌, IfErr, IfOk, IsTrue, OnOk, ◌<◌, codes, length};
ghost use Rattle.std.specs.List.{AllByRecursion};
ghost use Rattle.sqlite.specs.Held.{state};
ghost use Rattle.sqlite.specs.State.{HasCleanDisk, IsLive};
ghost use Rattle.dip_store_sql.specs.Creating.{no_schema};
ghost use Rattle.dip_store_sql.specs.Schema.{our_schema};
ghost use Rattle.dip_store_sql.specs.Causes.{IsCaused, has_faulted};
ghost use Rattle.dip_store_sql.specs.Calls.{IsKept, WasKept};
ghost use Rattle.dip_store_schema.specs.Checking.{Knows};
ghost use Rattle.dip_store_schema.specs.Alone.{LeavesAlone};
ghost use Rattle.dip_store_sql.specs.Old.{old_schema};
ghost use Rattle.dip_store_schema.specs.Known as told;
ghost use Rattle.dip_store_schema.specs.Known.{has_table, HasOldTables, HasOurTables, IsKnown};
ghost use Rattle.dip_store_sql.specs.Asking.{IsWhole};

use sqlite::{Alter, Connection, Error};

/// Whether the store has no table, nor anything else that a schema names.
pub fn knows_none<S: Alter>(conn: &Connection<S>) -> bool
    ensures value { IsTrue result ↔ ((state S.Store conn.now).now.schema ≡ no_schema) }
    ensures live { IsLive (state S.Store conn.now) }
{
    let schema = conn.schema();
    schema.tables.is_empty() && schema.indexes.is_empty() && schema.views.is_empty()
}

/// Whether the error says that a text is wrong, or names what the schema hasn't.
fn is_of_text(error: &Error) -> bool
    ensures { result ≡ told.is_of_text error.now }
{
    match error {
        Error::SqlInputError(_) => true,
        _ => false,
    }
}

/// Whether the schema has what the text names. No row is read.
///
/// # Errors
/// Of a text that is one statement and asks for no time, whatever the schema has: want of memory, or a fault of the disk.
pub fn is_known<S: Alter>(conn: &mut Connection<S>, text: &str) -> Result<bool, Error>
    ensures answer { HasCleanDisk (state S.Store conn.new) → IfOk result (λ b.
        IsTrue b ↔ IsKnown (state S.Store conn.old).now.schema text.now) }
    ensures alone { LeavesAlone S.Store conn.old conn.new result }
    ensures shown { HasCleanDisk (state S.Store conn.new)
        → OnOk result (IsTrue (state S.Store conn.new).is_open) }
    ensures outside { HasCleanDisk (state S.Store conn.new)
        → IsTrue (state S.Store conn.old).is_open
        → IsWhole text.now
        → IfErr result (IsCaused (has_faulted S.Store conn.old conn.new)) }
{
    match conn.prepare(text) {
        Ok(_statement) => Ok(true),
        Err(error) => {
            if is_of_text(&error) {
                return Ok(false);
            }
            Err(error)
        }
    }
}

/// Whether the schema has what each text names.
fn knows_each<S: Alter>(conn: &mut Connection<S>, texts: &[&str]) -> Result<bool, Error>
    ensures answer { HasCleanDisk (state S.Store conn.new) → IfOk result (λ b. IsTrue b
        ↔ AllByRecursion (λ t. IsKnown (state S.Store conn.old).now.schema t.now) texts.now) }
    ensures alone { LeavesAlone S.Store conn.old conn.new result }
    ensures shown { HasCleanDisk (state S.Store conn.new) → 0 < length texts.now
        → OnOk result (IsTrue (state S.Store conn.new).is_open) }
    ensures outside { HasCleanDisk (state S.Store conn.new)
        → IsTrue (state S.Store conn.old).is_open
        → AllByRecursion (λ t. IsWhole t.now) texts.now
        → IfErr result (IsCaused (has_faulted S.Store conn.old conn.new)) }
{
    for text in texts {
        if !is_known(conn, text)? {
            return Ok(false);
        }
    }
    Ok(true)
}

/// Whether the eight tables of version 1 are there, with the columns that are read of them.
///
/// # Errors
/// Want of memory, or a fault of the disk.
pub(crate) fn knows_old<S: Alter>(conn: &mut Connection<S>) -> Result<bool, Error>
    ensures { Knows S.Store HasOldTables old_schema (WasKept S.Store) conn.old conn.new result }
{
    let old_texts = [
        "SELECT version, map, digest, last, kept, reply FROM desk WHERE id = 1",
        "SELECT year, phase, status, due, period, grey, papers, standoff FROM game WHERE name = ?1",
        "SELECT power, digest, vote, last, kept, reply, sent, items FROM seat WHERE game = ?1 ORDER BY rowid",
        "SELECT province, dislodged, power, kind, coast, origin FROM unit WHERE game = ?1 ORDER BY rowid",
        "SELECT province, power FROM centre WHERE game = ?1 ORDER BY rowid",
        "SELECT province, line FROM pending WHERE game = ?1 AND power = ?2 ORDER BY rowid",
        "SELECT grey, writer, addressees, body FROM box WHERE game = ?1 AND power = ?2 AND number = ?3",
        "SELECT body FROM paper WHERE game = ?1 AND number = ?2",
    ];
    knows_each(conn, &old_texts)
}

/// Whether the store has a table of ballots, as one of version 1 hasn't.
pub fn has_ballots<S: Alter>(conn: &Connection<S>) -> bool
    ensures value { result ≡ has_table (codes "ballot") (state S.Store conn.now).now.schema }
{
    let tables = conn.schema().tables.as_slice();
    tables
        .iter()
        .any(|table| table.name.as_slice() == b"ballot".as_slice())
}

/// Whether our ten tables are there, with the columns that are read of them.
///
/// # Errors
/// Want of memory, or a fault of the disk.
pub fn knows_all<S: Alter>(conn: &mut Connection<S>) -> Result<bool, Error>
    ensures { Knows S.Store HasOurTables our_schema (IsKept S.Store) conn.old conn.new result }
{
    let texts = [
        "SELECT version, map, digest, last, kept, reply FROM desk WHERE id = 1",
        "SELECT year, phase, status, due, period, grey, papers, standoff FROM game WHERE name = ?1",
        "SELECT power, digest, vote, last, kept, reply, sent, items FROM seat WHERE game = ?1 ORDER BY rowid",
        "SELECT province, dislodged, power, kind, coast, origin FROM unit WHERE game = ?1 ORDER BY rowid",
        "SELECT province, power FROM centre WHERE game = ?1 ORDER BY rowid",
        "SELECT province, line FROM pending WHERE game = ?1 AND power = ?2 ORDER BY rowid",
        "SELECT grey, writer, addressees, body FROM box WHERE game = ?1 AND power = ?2 AND number = ?3",
        "SELECT body FROM paper WHERE game = ?1 AND number = ?2",
        "SELECT names FROM ballot WHERE game = ?1 AND power = ?2",
        "SELECT intent FROM choice WHERE game = ?1",
    ];
    knows_each(conn, &texts)
}
