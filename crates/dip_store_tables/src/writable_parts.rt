//! Whether what a change names is of a map.
ghost use Rattle.std.specs.Prelude.{◌↔◌, ◌<◌, IsTrue, length};
ghost use Rattle.std.specs.List.{AllByRecursion};
ghost use Rattle.dip_desk_state.specs.ChangeRows as desk_rows;
ghost use Rattle.dip_desk_state.specs.Rows as rows;
ghost use Rattle.dip_desk_state.specs.Writable.{IsAuthorOf, IsStatusOf};

use dip_desk_state::{Author, NewSeat, Standing, Status};
use dip_map::Map;
use dip_names::Power;

/// Whether the power is one of the map.
pub(crate) fn is_power(map: &Map, power: Power) -> bool
    ensures { IsTrue result ↔ (power < length map.now.realms) }
{
    (power.index() as usize) < map.power_count()
}

/// Whether each power is one of the map.
pub(crate) fn are_powers(map: &Map, powers: &[Power]) -> bool
    ensures { IsTrue result ↔ AllByRecursion (λ p. p < length map.now.realms) powers.now }
{
    powers.iter().all(|power| is_power(map, *power))
}

/// Whether the author is no seat, or that of a power of the map.
pub(crate) fn is_author(map: &Map, author: Author) -> bool
    ensures { IsTrue result ↔ IsAuthorOf map.now (desk_rows.author author) }
{
    match author {
        Author::Nobody | Author::TheMaster => true,
        Author::Seat(power) => is_power(map, power),
    }
}

/// Whether the powers that the status names are of the map.
pub(crate) fn is_status(map: &Map, status: &Status) -> bool
    ensures { IsTrue result ↔ IsStatusOf map.now (rows.status status.now) }
{
    match status {
        Status::Running | Status::Paused | Status::Closed | Status::Ended => true,
        Status::Won(power) => is_power(map, *power),
        Status::Drawn(powers) => are_powers(map, powers.as_slice()),
    }
}

/// Whether the provinces of the orders are of the map.
pub(crate) fn are_orders(map: &Map, orders: &[Standing]) -> bool
    ensures { IsTrue result ↔ AllByRecursion (λ o. o.prov < length map.now.provinces) orders.now }
{
    orders.iter().all(|order| (order.prov.index() as usize) < map.province_count())
}

/// Whether the powers of the seats are of the map.
pub(crate) fn are_seats(map: &Map, seats: &[NewSeat]) -> bool
    ensures { IsTrue result ↔ AllByRecursion (λ s. s.power < length map.now.realms) seats.now }
{
    seats.iter().all(|seat| is_power(map, seat.power))
}
