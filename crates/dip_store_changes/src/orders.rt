//! A seat's standing orders.
ghost use Rattle.std.specs.Prelude.{◌≡◌, map as each, ℕ, List, [], ◌∷◌};
ghost use Rattle.sqlite.specs.Held.{state};
ghost use Rattle.dip_desk_state.specs.Rows as records;
ghost use Rattle.dip_store_tables.specs.Writing.{pending_row};
ghost use Rattle.dip_store_sql.specs.Keys.{OrdersDiffer};
ghost use Rattle.dip_store_sql.specs.RowViews as row_views;
ghost use Rattle.dip_store_sql.specs.TablesAfter.{more_orders};
ghost use Rattle.dip_store_sql.specs.Transactions.{Does, always};
ghost use Rattle.dip_store_changes.specs.Orders.{orders_left, with_orders_over};

use dip_desk_state::Standing;
use dip_map::Map;
use dip_store_sql::{OrderRow, add_pending, add_three_pending, drop_orders};
use sqlite::{Alter, Error, Transaction};

/// The columns of an order: its province's code, and its line.
fn order_row<'a>(map: &'a Map, order: &'a Standing) -> OrderRow<'a>
    ensures { (game : List ℕ) (power : List ℕ) → row_views.order game power result
        ≡ pending_row map.now game power (records.standing order.now) }
{
    OrderRow {
        province: map.code(order.prov),
        line: order.line.as_str(),
    }
}

/// Three orders, one after the other.
fn add_three<S: Alter>(
    tx: &mut Transaction<'_, S>,
    map: &Map,
    game: &str,
    power: &str,
    orders: (&Standing, &Standing, &Standing),
) -> Result<(), Error>
    ensures same_reference { tx.new.conn.ghost_name ≡ tx.old.conn.ghost_name }
    ensures does { Does (more_orders
        (each (pending_row map.now game.now power.now) (records.standings
        (orders.entry.0.now ∷ orders.entry.1.now ∷ orders.entry.2.now ∷ []))))
        OrdersDiffer (state S.Store tx.old.conn.now) (state S.Store tx.new.conn.now) result }
{
    let one = order_row(map, orders.0);
    let other = order_row(map, orders.1);
    let third = order_row(map, orders.2);
    add_three_pending(tx, game, power, &one, &other, &third)?;
    Ok(())
}

fn add_order<S: Alter>(
    tx: &mut Transaction<'_, S>,
    map: &Map,
    game: &str,
    power: &str,
    order: &Standing,
) -> Result<(), Error>
    ensures same_reference { tx.new.conn.ghost_name ≡ tx.old.conn.ghost_name }
    ensures does { Does
        (more_orders
        (each (pending_row map.now game.now power.now) (records.standings (order.now ∷ []))))
        OrdersDiffer (state S.Store tx.old.conn.now) (state S.Store tx.new.conn.now) result }
{
    let row = order_row(map, order);
    add_pending(tx, game, power, &row)?;
    Ok(())
}

/// Orders, one by one.
fn add_each<S: Alter>(
    tx: &mut Transaction<'_, S>,
    map: &Map,
    game: &str,
    power: &str,
    orders: &[Standing],
) -> Result<(), Error>
    ensures same_reference { tx.new.conn.ghost_name ≡ tx.old.conn.ghost_name }
    ensures does { Does
        (more_orders (each (pending_row map.now game.now power.now) (records.standings orders.now)))
        OrdersDiffer (state S.Store tx.old.conn.now) (state S.Store tx.new.conn.now) result }
{
    for order in orders {
        add_order(tx, map, game, power, order)?;
    }
    Ok(())
}

/// Orders: three by one statement, and those that are left one by one.
fn add_orders<S: Alter>(
    tx: &mut Transaction<'_, S>,
    map: &Map,
    game: &str,
    power: &str,
    orders: &[Standing],
) -> Result<(), Error>
    ensures same_reference { tx.new.conn.ghost_name ≡ tx.old.conn.ghost_name }
    ensures does { Does
        (more_orders (each (pending_row map.now game.now power.now) (records.standings orders.now)))
        OrdersDiffer (state S.Store tx.old.conn.now) (state S.Store tx.new.conn.now) result }
{
    let mut rest = orders;
    while let [one, other, third, behind @ ..] = rest {
        add_three(tx, map, game, power, (one, other, third))?;
        rest = behind;
    }
    add_each(tx, map, game, power, rest)
}

/// The seat's standing orders are taken out, where it isn't known that there are none.
fn clear_orders<S: Alter>(
    tx: &mut Transaction<'_, S>,
    game: &str,
    power: &str,
    unordered: bool,
) -> Result<(), Error>
    ensures same_reference { tx.new.conn.ghost_name ≡ tx.old.conn.ghost_name }
    ensures does { Does (orders_left unordered game.now power.now) always
        (state S.Store tx.old.conn.now) (state S.Store tx.new.conn.now) result }
{
    if !unordered {
        drop_orders(tx, game, power)?;
    }
    Ok(())
}

/// The seat's standing orders are these; where it is known that none stood, none is taken out.
pub fn put_orders<S: Alter>(
    tx: &mut Transaction<'_, S>,
    map: &Map,
    game: &str,
    power: &str,
    unordered: bool,
    orders: &[Standing],
) -> Result<(), Error>
    ensures same_reference { tx.new.conn.ghost_name ≡ tx.old.conn.ghost_name }
    ensures does { Does
        (with_orders_over unordered map.now game.now power.now (records.standings orders.now))
        OrdersDiffer (state S.Store tx.old.conn.now) (state S.Store tx.new.conn.now) result }
{
    clear_orders(tx, game, power, unordered)?;
    add_orders(tx, map, game, power, orders)
}
