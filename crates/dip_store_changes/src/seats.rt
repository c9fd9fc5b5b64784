//! The seats of a game.
ghost use Rattle.std.specs.Prelude.{◌≡◌, map as each, [], ◌∷◌};
ghost use Rattle.sqlite.specs.Held.{state};
ghost use Rattle.dip_desk_state.specs.ChangeRows as machine;
ghost use Rattle.dip_store_tables.specs.Changing.{replacing};
ghost use Rattle.dip_store_tables.specs.Writing.{seat_row};
ghost use Rattle.dip_store_sql.specs.Keys.{SeatsDiffer};
ghost use Rattle.dip_store_sql.specs.Transactions.{Does, always};
ghost use Rattle.dip_store_changes.specs.Seats.{more_seats};

use dip_desk_state::NewSeat;
use dip_map::Map;
use dip_store_sql::{add_seat, replace_digest};
use sqlite::{Alter, Error, Transaction};

fn add_new_seat<S: Alter>(
    tx: &mut Transaction<'_, S>,
    map: &Map,
    game: &str,
    seat: &NewSeat,
) -> Result<(), Error>
    ensures same_reference { tx.new.conn.ghost_name ≡ tx.old.conn.ghost_name }
    ensures does { Does
        (more_seats (each (seat_row map.now game.now) (each machine.new_seat (seat.now ∷ []))))
        SeatsDiffer (state S.Store tx.old.conn.now) (state S.Store tx.new.conn.now) result }
{
    add_seat(tx, game, map.power_name(seat.power), &seat.digest)?;
    Ok(())
}

/// Appends the rows of new seats, which have sent nothing.
pub fn add_seats<S: Alter>(
    tx: &mut Transaction<'_, S>,
    map: &Map,
    game: &str,
    seats: &[NewSeat],
) -> Result<(), Error>
    ensures same_reference { tx.new.conn.ghost_name ≡ tx.old.conn.ghost_name }
    ensures does { Does
        (more_seats (each (seat_row map.now game.now) (each machine.new_seat seats.now)))
        SeatsDiffer (state S.Store tx.old.conn.now) (state S.Store tx.new.conn.now) result }
{
    for seat in seats {
        add_new_seat(tx, map, game, seat)?;
    }
    Ok(())
}

/// The seat of the power has this digest.
pub fn replace<S: Alter>(
    tx: &mut Transaction<'_, S>,
    map: &Map,
    game: &str,
    seat: &NewSeat,
) -> Result<(), Error>
    ensures same_reference { tx.new.conn.ghost_name ≡ tx.old.conn.ghost_name }
    ensures does { Does (replacing map.now game.now (machine.new_seat seat.now)) always
        (state S.Store tx.old.conn.now) (state S.Store tx.new.conn.now) result }
{
    replace_digest(tx, game, map.power_name(seat.power), &seat.digest)?;
    Ok(())
}
