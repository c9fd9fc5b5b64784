//! Our tables made in a transaction.
ghost use Rattle.std.specs.Prelude.{◌≡◌, length};
ghost use Rattle.sqlite.specs.Held.{state};
ghost use Rattle.dip_store_schema.specs.Making.{HasFirst, HasTables, Leads, Tries};
ghost use Rattle.dip_store_tables.specs.Writing.{new_tables};

use crate::creating::{create_boards, create_choices, create_people, create_texts};
use dip_store_sql::add_desk;
use sqlite::{Alter, Error, Transaction};

/// A sum has 32 bytes.
pub fn has_32(sum: &[u8; 32])
    ensures { length sum.now ≡ 32 }
{
    let _sum = sum;
}

/// The ten tables, and in them the master's row alone, of version 2: it says the SHA-256 of the map's text, and the master's digest.
pub fn make_tables<S: Alter>(
    tx: &mut Transaction<'_, S>,
    map_sum: &[u8; 32],
    digest: &[u8; 32],
) -> Result<(), Error>
    ensures same_reference { tx.new.conn.ghost_name ≡ tx.old.conn.ghost_name }
    ensures leads { Leads (HasFirst 0) (HasTables (new_tables map_sum.now digest.now))
        (state S.Store tx.old.conn.now) (state S.Store tx.new.conn.now) result }
    ensures tries { Tries (HasFirst 0) (HasTables (new_tables map_sum.now digest.now))
        (state S.Store tx.old.conn.now) (state S.Store tx.new.conn.now) result }
{
    has_32(map_sum);
    has_32(digest);
    create_people(tx)?;
    create_boards(tx)?;
    create_texts(tx)?;
    create_choices(tx)?;
    add_desk(tx, map_sum, digest)?;
    Ok(())
}
