//! The table of a movement: the orders by province, and the units by what their orders name.
ghost use Rattle.std.specs.Prelude.{◌≡◌, ℕ, is_some, true};
ghost use Rattle.dip_decide_table.specs.Held.{units_of};
ghost use Rattle.dip_decide_table.specs.Matching.{target_of};
ghost use Rattle.dip_decide_table.specs.Situations.{is_listed};
ghost use Rattle.dip_decide_table.specs.Placed.{backed_of, backings_of, carried_of, convoyed_of, entry, keyed_by, targets_of};

use crate::held::ByKey;
use dip_map::Map;
use dip_names::Prov;
use dip_orders_placed::PlacedOrder;

/// The orders of a movement, by the numbers of the provinces.
#[derive(Drop)]
pub struct Table<'a> {
    pub map: &'a Map,
    /// The provinces whose units have an order, in the orders' order.
    pub places: Vec<Prov>,
    /// The order of the unit in each province.
    pub rows: Vec<Option<PlacedOrder>>,
    /// Where the unit in each province goes, if it goes somewhere.
    pub targets: Vec<Option<Prov>>,
    /// Whether the unit in each province goes by convoy.
    pub convoyed: Vec<bool>,
    /// Whom the unit in each province supports, if that matches.
    pub backed: Vec<Option<Prov>>,
    /// The units by where they go.
    pub movers: ByKey,
    /// The units by the one that they support, if that matches.
    pub helpers: ByKey,
    /// The units by the one that they convoy.
    pub carriers: ByKey,
    ghost aiming: { targets.items ≡ targets_of rows.items },
    ghost sailing: { convoyed.items ≡ convoyed_of map.now rows.items },
    ghost backing: { backed.items ≡ backings_of rows.items },
    ghost standing: { (p : ℕ) → is_some (entry rows.items p) ≡ true
        → is_listed places.items p ≡ true },
    ghost moving: { (q : ℕ) → units_of movers q ≡ keyed_by target_of places.items rows.items q },
    ghost helping: { (q : ℕ) → units_of helpers q ≡ keyed_by (backed_of (entry rows.items)) places.items
        rows.items q },
    ghost carrying: { (q : ℕ) → units_of carriers q ≡ keyed_by carried_of places.items rows.items q },
}
