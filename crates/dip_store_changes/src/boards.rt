//! The units and the owned centres of a game's board.
ghost use Rattle.std.specs.Prelude.{◌≡◌, map as each, length, [], ◌∷◌};
ghost use Rattle.sqlite.specs.Held.{state};
ghost use Rattle.dip_store_tables.specs.Boards.{centre_rows_from, coast_text, dislodged_row, origin_text, kind_number, standing_row};
ghost use Rattle.dip_store_sql.specs.Keys.{CentresDiffer, UnitsDiffer};
ghost use Rattle.dip_store_sql.specs.Transactions.{Does};
ghost use Rattle.dip_store_changes.specs.Boards.{BoardsDiffer, more_centres, more_units, with_board};

use dip_map::{Board, Dislodged, Map};
use dip_names::{Kind, Power, Prov, Unit};
use dip_store_sql::{UnitRow, add_centre, add_unit, drop_centres, drop_units};
use sqlite::{Alter, Error, Transaction};

fn kind_number(kind: Kind) -> u32
    ensures { result ≡ kind_number kind }
{
    match kind {
        Kind::Army => 0,
        Kind::Fleet => 1,
    }
}

fn coast_text<'r>(map: &'r Map, unit: &Unit) -> &'r str
    ensures { result.now ≡ coast_text map.now unit.now.kind unit.now.place }
{
    match unit.kind {
        Kind::Army => "",
        Kind::Fleet => map.coast_name(unit.place),
    }
}

fn origin_text(map: &Map, origin: Option<Prov>) -> &str
    ensures { result.now ≡ origin_text map.now origin }
{
    match origin {
        None => "",
        Some(prov) => map.code(prov),
    }
}

fn add_standing<'r, S: Alter>(
    tx: &mut Transaction<'_, S>,
    map: &'r Map,
    game: &'r str,
    unit: &Unit,
) -> Result<(), Error>
    ensures same_reference { tx.new.conn.ghost_name ≡ tx.old.conn.ghost_name }
    ensures does { Does (more_units (standing_row map.now game.now unit.now ∷ [])) UnitsDiffer
        (state S.Store tx.old.conn.now) (state S.Store tx.new.conn.now) result }
{
    let row = UnitRow {
        game,
        province: map.code(unit.place.prov),
        dislodged: false,
        power: map.power_name(unit.power),
        kind: kind_number(unit.kind),
        coast: coast_text(map, unit),
        origin: "",
    };
    add_unit(tx, &row)?;
    Ok(())
}

fn add_dislodged<'r, S: Alter>(
    tx: &mut Transaction<'_, S>,
    map: &'r Map,
    game: &'r str,
    dislodged: &Dislodged,
) -> Result<(), Error>
    ensures same_reference { tx.new.conn.ghost_name ≡ tx.old.conn.ghost_name }
    ensures does { Does (more_units (dislodged_row map.now game.now dislodged.now ∷ [])) UnitsDiffer
        (state S.Store tx.old.conn.now) (state S.Store tx.new.conn.now) result }
{
    let unit = &dislodged.unit;
    let row = UnitRow {
        game,
        province: map.code(unit.place.prov),
        dislodged: true,
        power: map.power_name(unit.power),
        kind: kind_number(unit.kind),
        coast: coast_text(map, unit),
        origin: origin_text(map, dislodged.origin),
    };
    add_unit(tx, &row)?;
    Ok(())
}

fn add_standings<S: Alter>(
    tx: &mut Transaction<'_, S>,
    map: &Map,
    game: &str,
    units: &[Unit],
) -> Result<(), Error>
    ensures same_reference { tx.new.conn.ghost_name ≡ tx.old.conn.ghost_name }
    ensures does { Does (more_units (each (standing_row map.now game.now) units.now)) UnitsDiffer
        (state S.Store tx.old.conn.now) (state S.Store tx.new.conn.now) result }
{
    for unit in units {
        add_standing(tx, map, game, unit)?;
    }
    Ok(())
}

fn add_fallen<S: Alter>(
    tx: &mut Transaction<'_, S>,
    map: &Map,
    game: &str,
    units: &[Dislodged],
) -> Result<(), Error>
    ensures same_reference { tx.new.conn.ghost_name ≡ tx.old.conn.ghost_name }
    ensures does { Does (more_units (each (dislodged_row map.now game.now) units.now)) UnitsDiffer
        (state S.Store tx.old.conn.now) (state S.Store tx.new.conn.now) result }
{
    for unit in units {
        add_dislodged(tx, map, game, unit)?;
    }
    Ok(())
}

fn add_owned<S: Alter>(
    tx: &mut Transaction<'_, S>,
    map: &Map,
    game: &str,
    prov: Prov,
    owner: Option<Power>,
) -> Result<(), Error>
    ensures same_reference { tx.new.conn.ghost_name ≡ tx.old.conn.ghost_name }
    ensures does { Does
        (more_centres (centre_rows_from map.now game.now prov (owner ∷ []))) CentresDiffer
        (state S.Store tx.old.conn.now) (state S.Store tx.new.conn.now) result }
{
    match owner {
        None => Ok(()),
        Some(power) => {
            add_centre(tx, game, map.code(prov), map.power_name(power))?;
            Ok(())
        }
    }
}

fn add_owners<S: Alter>(
    tx: &mut Transaction<'_, S>,
    map: &Map,
    game: &str,
    owners: &[Option<Power>],
) -> Result<(), Error>
    requires { length owners.now ≡ length map.now.provinces }
    ensures same_reference { tx.new.conn.ghost_name ≡ tx.old.conn.ghost_name }
    ensures does { Does
        (more_centres (centre_rows_from map.now game.now 0 owners.now)) CentresDiffer
        (state S.Store tx.old.conn.now) (state S.Store tx.new.conn.now) result }
{
    map.facts();
    for (number, owner) in owners.iter().enumerate() {
        add_owned(tx, map, game, Prov::new(number as u8), *owner)?;
    }
    Ok(())
}

/// Writes a board into the tables: the rows of the game's units and owned centres are deleted, and
/// those of the board inserted.
pub fn put_board<S: Alter>(
    tx: &mut Transaction<'_, S>,
    map: &Map,
    game: &str,
    board: &Board,
) -> Result<(), Error>
    requires { length board.now.owners ≡ length map.now.provinces }
    ensures same_reference { tx.new.conn.ghost_name ≡ tx.old.conn.ghost_name }
    ensures does { Does (with_board map.now game.now board.now) BoardsDiffer
        (state S.Store tx.old.conn.now) (state S.Store tx.new.conn.now) result }
{
    drop_units(tx, game)?;
    add_standings(tx, map, game, board.units())?;
    add_fallen(tx, map, game, board.dislodged())?;
    drop_centres(tx, game)?;
    add_owners(tx, map, game, board.owners())
}
