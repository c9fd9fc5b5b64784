//! Which orders match: where units go, and what they support and convoy.
ghost use Rattle.std.specs.Prelude.{◌≡◌, ◌==◌, Some};
ghost use Rattle.std.specs.List.{list_any};
ghost use Rattle.dip_map.specs.Charts.{province, shore};
ghost use Rattle.dip_names.specs.Kinds.{is_kind, is_sea};
ghost use Rattle.dip_decide_table.specs.Rows.{situation_of};
ghost use Rattle.dip_decide_table.specs.Placed.{backed_of, carried, carried_of, entry, helped, keyed_by};
ghost use Rattle.dip_decide_table.specs.Matching.{destination, target_of, goes_by_convoy, is_convoyed, is_there, is_matched, direction, is_carried, convoys_in, is_sea_next};
ghost use Rattle.dip_decide_table.specs.Situations.{goes, head_to_head, has_move, is_at, is_support};

use crate::placed::Table;
use dip_map::Map;
use dip_names::{Kind, Place, Prov};
use dip_orders_placed::{Order, Other, PlacedOrder};

/// Where an order sends its unit.
fn destination(order: Order) -> Option<Prov>
    ensures { result ≡ destination order }
{
    match order {
        Order::Move { to, .. } => Some(to.prov),
        _ => None,
    }
}

/// The province into which an order supports a move.
fn direction(order: Order) -> Option<Prov>
    ensures { result ≡ direction order }
{
    match order {
        Order::SupportMove { to, .. } => Some(to),
        _ => None,
    }
}

/// Whether a unit of this kind, in this province, is sent by convoy.
fn goes_by_convoy(map: &Map, kind: Kind, p: Prov, order: Order) -> bool
    ensures { result ≡ goes_by_convoy map.now kind p order }
{
    match (kind, order) {
        (Kind::Army, Order::Move { to, via }) => via || !map.is_army_next(p, to.prov),
        _ => false,
    }
}

/// The unit that an order supports, whether it matches or not.
fn supported_unit(order: Order) -> Option<Prov>
    ensures { result ≡ helped order }
{
    match order {
        Order::SupportHold { at } | Order::SupportMove { at, .. } => Some(at.prov),
        _ => None,
    }
}

/// The order of the unit in a province, out of the rows of all.
fn order_in(rows: &[Option<PlacedOrder>], p: Prov) -> Option<PlacedOrder>
    ensures { result ≡ entry rows.now p }
{
    match rows.get(usize::from(p.index())) {
        Some(order) => *order,
        None => None,
    }
}

/// Whether the unit that a support or a convoy names is the one in a province.
fn is_there(at: Other, row: &Option<PlacedOrder>) -> bool
    ensures { result ≡ is_there at row.now }
{
    match row {
        Some(placed) => placed.unit.kind.is(at.kind),
        None => false,
    }
}

/// Whether a unit with this order goes to a province.
fn is_sent_to(row: &Option<PlacedOrder>, q: Prov) -> bool
    ensures { result ≡ is_at (target_of row.now) q }
{
    match target_of(row) {
        Some(to) => to == q,
        None => false,
    }
}

/// Whether an order is a support of the unit in a province, and matches.
fn is_matched(rows: &[Option<PlacedOrder>], order: Order, p: Prov) -> bool
    ensures { result ≡ is_matched (entry rows.now) order p }
{
    let row = order_in(rows, p);
    match order {
        Order::SupportHold { at } => {
            at.prov == p && is_there(at, &row) && target_of(&row).is_none()
        }
        Order::SupportMove { at, to } => {
            at.prov == p && is_there(at, &row) && is_sent_to(&row, to)
        }
        _ => false,
    }
}

/// The unit that one with this order supports, if that matches.
pub fn backed_by(rows: &[Option<PlacedOrder>], placed: &PlacedOrder) -> Option<Prov>
    ensures { result ≡ backed_of (entry rows.now) (Some placed.now) }
{
    match supported_unit(placed.order) {
        Some(p) => if is_matched(rows, placed.order, p) {
            Some(p)
        } else {
            None
        },
        None => None,
    }
}

/// The unit that an order convoys, whether it matches or not.
fn convoyed_unit(order: Order) -> Option<Prov>
    ensures { result ≡ carried order }
{
    match order {
        Order::Convoy { at, .. } => Some(at.prov),
        _ => None,
    }
}

/// The unit that one convoys that has this order, if one is there.
pub fn carried_of(row: &Option<PlacedOrder>) -> Option<Prov>
    ensures { result ≡ carried_of row.now }
{
    match row {
        Some(placed) => convoyed_unit(placed.order),
        None => None,
    }
}

/// Where a unit goes that has this order, if one is there.
pub fn target_of(row: &Option<PlacedOrder>) -> Option<Prov>
    ensures { result ≡ target_of row.now }
{
    match row {
        Some(placed) => destination(placed.order),
        None => None,
    }
}

/// Whether a unit goes by convoy that has this order, if one is there.
pub fn is_convoyed_of(map: &Map, row: &Option<PlacedOrder>) -> bool
    ensures { result ≡ is_convoyed map.now row.now }
{
    match row {
        Some(placed) => {
            goes_by_convoy(map, placed.unit.kind, placed.unit.place.prov, placed.order)
        }
        None => false,
    }
}

/// Whether a fleet goes from a place to a province.
fn is_place_next(map: &Map, place: Place, q: Prov) -> bool
    ensures { result ≡ list_any (λ b. b.prov == q) (shore map.now place).next }
{
    map.fleet_next(place).iter().any(|other| other.prov == q)
}

/// Whether a fleet goes from one province to the other, from any coast to any.
fn is_sea_next(map: &Map, p: Prov, q: Prov) -> bool
    ensures { result ≡ is_sea_next map.now p q }
{
    map.facts();
    for index in 0..map.coasts(p) {
        let place = Place {
            prov: p,
            coast: index as u8,
        };
        if is_place_next(map, place, q) {
            return true;
        }
    }
    false
}

impl Table<'_> {
    /// The order of the unit in a province, in the table's row of it.
    fn order(&self, p: Prov) -> Option<PlacedOrder>
        ensures { result ≡ entry self.now.rows.items p }
    {
        order_in(self.rows.as_slice(), p)
    }

    /// The units that go to a province.
    pub fn movers_to(&self, q: Prov) -> &[Prov]
        ensures { result.now ≡ keyed_by target_of self.now.places.items self.now.rows.items q }
    {
        self.movers.of(q)
    }

    /// The units whose supports of one match.
    pub fn helpers_of(&self, p: Prov) -> &[Prov]
        ensures { result.now ≡ keyed_by (backed_of (entry self.now.rows.items))
            self.now.places.items self.now.rows.items p }
    {
        self.helpers.of(p)
    }

    /// The units that convoy one, whether that matches or not.
    pub fn carriers_of(&self, p: Prov) -> &[Prov]
        ensures { result.now ≡ keyed_by carried_of self.now.places.items self.now.rows.items p }
    {
        self.carriers.of(p)
    }

    /// Whether a unit stands in the province.
    pub fn is_occupied(&self, p: Prov) -> bool
        ensures { result ≡ (situation_of self.now).is_occupied p }
    {
        self.order(p).is_some()
    }

    /// Whether units of one power stand in both provinces; not where one of them is empty.
    pub fn same_power(&self, p: Prov, q: Prov) -> bool
        ensures { result ≡ (situation_of self.now).same_power p q }
    {
        match (self.order(p), self.order(q)) {
            (Some(x), Some(y)) => x.unit.power == y.unit.power,
            _ => false,
        }
    }

    /// Where the unit in a province is ordered to move to; nothing where it isn't.
    pub fn target(&self, p: Prov) -> Option<Prov>
        ensures { result ≡ (situation_of self.now).target p }
    {
        match self.targets.get(usize::from(p.index())) {
            Some(target) => *target,
            None => None,
        }
    }

    /// The unit that one supports, if that matches.
    pub fn backed(&self, h: Prov) -> Option<Prov>
        ensures { result ≡ backed_of (entry self.now.rows.items) (entry self.now.rows.items h) }
    {
        match self.backed.get(usize::from(h.index())) {
            Some(backed) => *backed,
            None => None,
        }
    }

    /// The unit that one convoys, whether that matches or not.
    pub fn carries(&self, x: Prov) -> Option<Prov>
        ensures { result ≡ carried_of (entry self.now.rows.items x) }
    {
        carried_of(&self.order(x))
    }

    /// Whether the unit in a province moves by convoy.
    pub fn is_convoyed(&self, p: Prov) -> bool
        ensures { result ≡ (situation_of self.now).convoyed p }
    {
        match self.convoyed.get(usize::from(p.index())) {
            Some(convoyed) => *convoyed,
            None => false,
        }
    }

    /// Whether the unit in `h` supports the one in `p`, and the orders match.
    pub fn supports(&self, h: Prov, p: Prov) -> bool
        ensures { result ≡ (situation_of self.now).supports h p }
    {
        match self.backed(h) {
            Some(q) => q == p,
            None => false,
        }
    }

    /// Whether a unit has a support that matches.
    pub fn is_support(&self, h: Prov) -> bool
        ensures { result ≡ is_support (situation_of self.now) h }
    {
        self.backed(h).is_some()
    }

    /// Whether an order is to convoy the army in `p`, and the army makes that very move by convoy.
    fn is_carried(&self, order: Order, p: Prov) -> bool
        ensures { result ≡ is_carried self.now.map.now (entry self.now.rows.items) order p }
    {
        match order {
            Order::Convoy { at, to } => {
                at.prov == p
                    && is_there(at, &self.order(p))
                    && self.is_convoyed(p)
                    && self.goes(p, to)
            }
            _ => false,
        }
    }

    /// Whether a unit that has this order is a fleet in a sea that convoys the one in a province.
    fn convoys_of(&self, placed: &PlacedOrder, p: Prov) -> bool
        ensures { result ≡ convoys_in self.now.map.now (entry self.now.rows.items) (Some placed.now)
            p }
    {
        placed.unit.kind.is(Kind::Fleet)
            && self.map.kind(placed.unit.place.prov).is_sea()
            && self.is_carried(placed.order, p)
    }

    /// Whether the fleet in `x` convoys the army in `p`, and the orders match.
    pub fn convoys(&self, x: Prov, p: Prov) -> bool
        ensures { result ≡ (situation_of self.now).convoys x p }
    {
        match self.order(x) {
            Some(placed) => self.convoys_of(&placed, p),
            None => false,
        }
    }

    /// Whether a fleet goes from one province to the other, from any coast to any.
    pub fn is_next(&self, p: Prov, q: Prov) -> bool
        ensures { result ≡ (situation_of self.now).next p q }
    {
        is_sea_next(self.map, p, q)
    }

    /// The province into which the unit in `h` supports a move.
    fn aim(&self, h: Prov) -> Option<Prov>
        ensures { result ≡ (situation_of self.now).aim h }
    {
        match self.order(h) {
            Some(placed) => direction(placed.order),
            None => None,
        }
    }

    /// Whether the unit in `h` supports a move into `p`.
    pub fn aims(&self, h: Prov, p: Prov) -> bool
        ensures { result ≡ is_at ((situation_of self.now).aim h) p }
    {
        match self.aim(h) {
            Some(q) => q == p,
            None => false,
        }
    }

    /// Whether the unit in `p` has a move to `q`.
    pub fn goes(&self, p: Prov, q: Prov) -> bool
        ensures { result ≡ goes (situation_of self.now) p q }
    {
        match self.target(p) {
            Some(t) => t == q,
            None => false,
        }
    }

    /// Whether the unit in `p` has a move.
    pub fn has_move(&self, p: Prov) -> bool
        ensures { result ≡ has_move (situation_of self.now) p }
    {
        self.target(p).is_some()
    }

    /// Whether the two units go to one another's provinces, neither by convoy.
    pub fn head_to_head(&self, p: Prov, q: Prov) -> bool
        ensures { result ≡ head_to_head (situation_of self.now) p q }
    {
        self.goes(p, q) && self.goes(q, p) && !self.is_convoyed(p) && !self.is_convoyed(q)
    }
}
