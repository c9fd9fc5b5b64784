//! What is asked of a board: who is where, and who owns what.
ghost use Rattle.std.specs.Prelude.{◌≡◌, ◌==◌, ◌<◌, ◌^◌, count_by};
ghost use Rattle.dip_map.specs.Boards.{is_held, is_standoff, is_left, is_vacant, is_power, owner, owns, centres_owned, units_counted};

use crate::boards::Board;
use dip_names::{Power, Prov};

/// Whether the owner, if there is one, is the power.
fn is_power(power: Power, owner: Option<Power>) -> bool
    ensures { result ≡ is_power power owner }
{
    match owner {
        Some(owner) => owner == power,
        None => false,
    }
}

impl Board {
    /// Whether a unit stands in the province.
    pub fn is_held(&self, p: Prov) -> bool
        ensures { result ≡ is_held self.now p }
    {
        self.units().iter().any(|unit| unit.place.prov == p)
    }

    /// Whether a unit was dislodged from the province, and waits for its retreat.
    pub fn is_left(&self, p: Prov) -> bool
        ensures { result ≡ is_left self.now p }
    {
        self.dislodged()
            .iter()
            .any(|dislodged| dislodged.unit.place.prov == p)
    }

    /// Whether no unit, standing or dislodged, is in the province.
    pub fn is_vacant(&self, p: Prov) -> bool
        ensures { result ≡ is_vacant self.now p }
    {
        !self.is_held(p) && !self.is_left(p)
    }

    /// Whether a standoff left the province closed to retreats.
    pub fn is_standoff(&self, p: Prov) -> bool
        ensures { result ≡ is_standoff self.now p }
    {
        self.standoff().contains(&p)
    }

    /// Who owns the province, if anybody does.
    pub fn owner(&self, p: Prov) -> Option<Power>
        ensures { result ≡ owner self.now p }
    {
        match self.owners().get(p.index() as usize) {
            Some(owner) => *owner,
            None => None,
        }
    }

    /// Whether the power owns the province.
    pub fn owns(&self, power: Power, p: Prov) -> bool
        ensures { result ≡ owns self.now power p }
    {
        is_power(power, self.owner(p))
    }

    /// How many centres the power owns.
    pub fn centres_owned(&self, power: Power) -> usize
        ensures { result ≡ centres_owned self.now power }
    {
        self.owners()
            .iter()
            .filter(|owner| is_power(power, **owner))
            .count()
    }

    /// How many units the power has, standing and dislodged.
    pub fn units_counted(&self, power: Power) -> usize
        ensures { result ≡ units_counted self.now power }
    {
        self.standing_counted(power) + self.dislodged_counted(power)
    }

    /// How many units of the power stand on the board.
    fn standing_counted(&self, power: Power) -> usize
        ensures value { result ≡ count_by (λ u. u.power == power) self.now.units }
        ensures bound { result < 2 ^ 63 }
    {
        self.units()
            .iter()
            .filter(|unit| unit.power == power)
            .count()
    }

    /// How many units of the power are dislodged.
    fn dislodged_counted(&self, power: Power) -> usize
        ensures value { result ≡ count_by (λ d. d.unit.power == power) self.now.dislodged }
        ensures bound { result < 2 ^ 63 }
    {
        self.dislodged()
            .iter()
            .filter(|dislodged| dislodged.unit.power == power)
            .count()
    }
}
