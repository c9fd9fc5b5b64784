//! Whether two orders are one.
ghost use Rattle.std.specs.Prelude.{◌≡◌, true};

use dip_names::Place;
use dip_orders::{Order, Other, PlacedOrder, is_same_unit};

/// Whether the two are one place.
fn is_same_place(one: Place, other: Place) -> bool
    ensures same { result ≡ true → one ≡ other }
    ensures itself { one ≡ other → result ≡ true }
{
    one.prov == other.prov && one.coast == other.coast
}

/// Whether the two mention one other unit.
fn is_same_other(one: Other, other: Other) -> bool
    ensures same { result ≡ true → one ≡ other }
    ensures itself { one ≡ other → result ≡ true }
{
    one.kind.is(other.kind) && one.prov == other.prov
}

/// Whether two orders are one; where it says so they are.
fn is_same_order(one: &Order, other: &Order) -> bool
    ensures same { result ≡ true → one.now ≡ other.now }
    ensures itself { one.now ≡ other.now → result ≡ true }
{
    match (*one, *other) {
        (Order::Hold, Order::Hold) => true,
        (
            Order::Move { to, via },
            Order::Move {
                to: place,
                via: way,
            },
        ) => { is_same_place(to, place) && via == way }
        (Order::SupportHold { at }, Order::SupportHold { at: unit }) => is_same_other(at, unit),
        (Order::SupportMove { at, to }, Order::SupportMove { at: unit, to: prov }) => {
            is_same_other(at, unit) && to == prov
        }
        (Order::Convoy { at, to }, Order::Convoy { at: unit, to: prov }) => {
            is_same_other(at, unit) && to == prov
        }
        (Order::Retreat { to }, Order::Retreat { to: place }) => is_same_place(to, place),
        (Order::Disband, Order::Disband) => true,
        (Order::Build, Order::Build) => true,
        (Order::Remove, Order::Remove) => true,
        _ => false,
    }
}

/// Whether two units' orders are one; where it says so they are.
pub(crate) fn is_same(one: &PlacedOrder, other: &PlacedOrder) -> bool
    ensures same { result ≡ true → one.now ≡ other.now }
    ensures itself { one.now ≡ other.now → result ≡ true }
{
    is_same_unit(&one.unit, &other.unit) && is_same_order(&one.order, &other.order)
}
