//! Strengths and values at the least and the greatest completion.
ghost use Rattle.std.specs.Prelude.{◌≡◌, ◌&&◌, not, Some, IfOk, OnOk, filter};
ghost use Rattle.std.specs.List.{count_by, list_all, list_any};
ghost use Rattle.dip_decide_rules.specs.Corners.{rises, values};
ghost use Rattle.dip_decide_rules.specs.Given.{situation_of};
ghost use Rattle.dip_decide_rules.specs.declared.decisions.Decision.TheVariants.{Move, Path, Support};
ghost use Rattle.dip_decide_rules.specs.Movement.{goes, has_path, support, support_against, attack, hold, prevent, opposition, beats, succeeds, cuts, is_support, is_entered, serves, path_rule, rule, IsSituation};

use crate::chains::joins;
use crate::decisions::Decision;
use crate::values::Values;
use dip_decide_table::{Room, Table, write_over};
use dip_names::Prov;
use std::alloc::AllocError;

/// The completion at which the rule of a decision is least, or greatest.
#[derive(Clone, Copy)]
pub struct Corner<'a> {
    pub table: &'a Table<'a>,
    pub known: &'a Values,
    pub of: &'a Decision,
    pub high: bool,
}

impl Corner<'_> {
    /// Whether the rule of the corner's decision rises with this one.
    fn rises(&self, d: &Decision) -> bool
        ensures { result ≡ rises (situation_of self.now.table.now) self.now.of.now d.now }
    {
        match *self.of {
            Decision::Move(p) => self.move_rises(p, d),
            Decision::Path(_) | Decision::Support(_) => false,
        }
    }

    /// Whether the rule of the move of a unit rises with this decision.
    fn move_rises(&self, p: Prov, d: &Decision) -> bool
        ensures { result ≡ rises (situation_of self.now.table.now) (Move p) d.now }
    {
        match d {
            Decision::Move(q) => self.table.goes(p, *q),
            Decision::Path(q) => *q == p,
            Decision::Support(h) => self.table.supports(*h, p),
        }
    }

    /// The value of a decision: the one that was given, or for an open one that of the corner.
    pub fn value(&self, d: &Decision) -> bool
        ensures { result ≡ values self.now d.now }
    {
        let open = self.rises(d) == self.high;
        match self.known.look(d) {
            Some(value) => value,
            None => open,
        }
    }

    /// Whether the unit in a province goes by land, or by a convoy that has a path.
    pub fn has_path(&self, p: Prov) -> bool
        ensures { result ≡ has_path (situation_of self.now.table.now) (values self.now) p }
    {
        !self.table.is_convoyed(p) || self.value(&Decision::Path(p))
    }

    /// How many of these have a support that is given.
    fn given_of(&self, helpers: &[Prov]) -> usize
        ensures { result ≡ count_by (λ h. values self.now (Support h)) helpers.now }
    {
        helpers
            .iter()
            .filter(|h| self.value(&Decision::Support(**h)))
            .count()
    }

    /// How many given supports the unit in `p` has; each counts 1.
    fn support(&self, p: Prov) -> usize
        ensures { result ≡ support (situation_of self.now.table.now) (values self.now) p }
    {
        self.given_of(self.table.helpers_of(p))
    }

    /// How many of these have a support that is given, but for those of the power of another.
    fn given_of_others(&self, helpers: &[Prov], q: Prov) -> usize
        ensures { result ≡ count_by
            (λ h. values self.now (Support h)
            && not ((situation_of self.now.table.now).same_power h q)) helpers.now }
    {
        helpers
            .iter()
            .filter(|h| { self.value(&Decision::Support(**h)) && !self.table.same_power(**h, q) })
            .count()
    }

    /// How many of the given supports of the unit in `p` are of other powers than the unit in `q`.
    fn support_against(&self, p: Prov, q: Prov) -> usize
        ensures { result ≡ support_against (situation_of self.now.table.now) (values self.now) p q }
    {
        self.given_of_others(self.table.helpers_of(p), q)
    }

    /// The strength of the move of the unit in the first province to the second.
    pub fn attack(&self, p: Prov, q: Prov) -> usize
        ensures { result ≡ attack (situation_of self.now.table.now) (values self.now) p q }
    {
        if !self.has_path(p) {
            0
        } else if !self.table.is_occupied(q)
            || (self.value(&Decision::Move(q)) && !self.table.head_to_head(p, q))
        {
            1 + self.support(p)
        } else if self.table.same_power(p, q) {
            0
        } else {
            1 + self.support_against(p, q)
        }
    }

    /// The strength of what is in `q` against moves into it.
    fn hold(&self, q: Prov) -> usize
        ensures { result ≡ hold (situation_of self.now.table.now) (values self.now) q }
    {
        if !self.table.is_occupied(q) || self.value(&Decision::Move(q)) {
            0
        } else if self.table.has_move(q) {
            1
        } else {
            1 + self.support(q)
        }
    }

    /// The strength with which the move of the unit in the first province to the second prevents other moves there.
    pub fn prevent(&self, p: Prov, q: Prov) -> usize
        ensures { result ≡ prevent (situation_of self.now.table.now) (values self.now) p q }
    {
        if !self.has_path(p) || (self.table.head_to_head(p, q) && self.value(&Decision::Move(q))) {
            0
        } else {
            1 + self.support(p)
        }
    }

    /// What the second province sets against the move of the unit in the first: the strength of its unit's move where the two go to one
    /// another's provinces by land, and else the strength with which it is held.
    pub fn opposition(&self, p: Prov, q: Prov) -> usize
        ensures { result ≡ opposition (situation_of self.now.table.now) (values self.now) p q }
    {
        if self.table.head_to_head(p, q) {
            1 + self.support(q)
        } else {
            self.hold(q)
        }
    }

    /// Whether the move of a unit to a province, with this strength of its attack, beats another unit.
    fn beats(&self, p: Prov, q: Prov, strength: usize, w: Prov) -> bool
        requires attack { strength
            ≡ attack (situation_of self.now.table.now) (values self.now) p q }
        ensures { result ≡ beats (situation_of self.now.table.now) (values self.now) p q w }
    {
        w == p || !self.table.goes(w, q) || self.prevent(w, q) < strength
    }

    /// Whether an attack of this strength from p on q beats each of these units.
    fn beats_all(&self, p: Prov, q: Prov, strength: usize, others: &[Prov]) -> bool
        requires attack { strength
            ≡ attack (situation_of self.now.table.now) (values self.now) p q }
        ensures { result ≡ list_all (beats (situation_of self.now.table.now) (values self.now) p q)
            others.now }
    {
        others.iter().all(|w| self.beats(p, q, strength, *w))
    }

    /// Whether a strength beats what each other unit has to prevent it from entering `q`.
    fn are_free(&self, p: Prov, q: Prov, strength: usize) -> bool
        requires attack { strength
            ≡ attack (situation_of self.now.table.now) (values self.now) p q }
        ensures { result ≡ list_all (beats (situation_of self.now.table.now) (values self.now) p q)
            self.now.table.now.places.items }
    {
        self.beats_all(p, q, strength, self.table.movers_to(q))
    }

    /// Whether the move from `p` to `q` exceeds what each other move has to prevent it, and what
    /// the destination sets against it.
    fn succeeds(&self, p: Prov, q: Prov) -> bool
        ensures { result ≡ succeeds (situation_of self.now.table.now) (values self.now) p q }
    {
        let strength = self.attack(p, q);
        self.are_free(p, q, strength) && self.opposition(p, q) < strength
    }

    /// Whether the move of the second unit cuts the support of the first.
    pub fn cuts(&self, h: Prov, x: Prov) -> bool
        ensures { result ≡ cuts (situation_of self.now.table.now) (values self.now) h x }
    {
        self.table.goes(x, h)
            && !self.table.same_power(x, h)
            && if self.table.aims(h, x) {
                self.value(&Decision::Move(x))
            } else {
                self.has_path(x)
            }
    }

    /// Whether no attack of these movers cuts the support of the unit in h.
    fn none_cuts(&self, h: Prov, movers: &[Prov]) -> bool
        ensures { result ≡ list_all
            (λ x. not (cuts (situation_of self.now.table.now) (values self.now) h x)) movers.now }
    {
        movers.iter().all(|x| !self.cuts(h, *x))
    }

    /// Whether no move cuts the support of the unit in `h`.
    fn is_uncut(&self, h: Prov) -> bool
        ensures { result ≡ list_all
            (λ x. not (cuts (situation_of self.now.table.now) (values self.now) h x))
            self.now.table.now.places.items }
    {
        self.none_cuts(h, self.table.movers_to(h))
    }

    /// Whether the unit in `h` has a support that matches.
    fn is_support(&self, h: Prov) -> bool
        ensures { result ≡ is_support (situation_of self.now.table.now) h }
    {
        self.table.is_support(h)
    }

    /// Whether the move of a unit succeeds.
    fn move_rule(&self, p: Prov) -> bool
        ensures { result ≡ rule (situation_of self.now.table.now) (Move p) (values self.now) }
    {
        match self.table.target(p) {
            Some(q) => self.succeeds(p, q),
            None => false,
        }
    }

    /// Whether one of these movers goes to the province and its move succeeds.
    fn one_enters(&self, movers: &[Prov], x: Prov) -> bool
        ensures { result ≡ list_any
            (λ m. goes (situation_of self.now.table.now) m x && values self.now (Move m))
            movers.now }
    {
        movers.iter().any(|m| self.table.goes(*m, x) && self.value(&Decision::Move(*m)))
    }

    /// Whether a move that succeeds enters a province.
    pub fn is_entered(&self, x: Prov) -> bool
        ensures { result ≡ is_entered (situation_of self.now.table.now) (values self.now) x }
    {
        self.one_enters(self.table.movers_to(x), x)
    }

    /// Whether a fleet convoys the move of a unit, and isn't dislodged.
    pub fn serves(&self, p: Prov, x: Prov) -> bool
        ensures { result ≡ serves (situation_of self.now.table.now) (values self.now) p x }
    {
        self.table.convoys(x, p) && !self.is_entered(x)
    }

    /// Writes the fleets that serve the move of a unit over a list.
    fn write_fleets(&self, fleets: &mut Vec<Prov>, p: Prov) -> Result<(), AllocError>
        ensures { OnOk result
            (fleets.new.items
            ≡ filter (serves (situation_of self.now.table.now) (values self.now) p)
            self.now.table.now.places.items) }
    {
        write_over(fleets, self.table.carriers_of(p))?;
        fleets.retain(|x| self.serves(p, *x));
        Ok(())
    }

    /// Whether the move by convoy of a unit to a province has a path.
    fn has_chain(&self, room: &mut Room, p: Prov, q: Prov) -> Result<bool, AllocError>
        requires situation { IsSituation (situation_of self.now.table.now) }
        ensures { IfOk result
            (λ b. b ≡ path_rule (situation_of self.now.table.now) (values self.now) p (Some q)) }
    {
        self.write_fleets(&mut room.fleets, p)?;
        joins(&mut room.trail, self.table, room.fleets.as_slice(), p, q)
    }

    /// Whether the move of a unit is one by convoy that has a path.
    fn path_rule(&self, room: &mut Room, p: Prov) -> Result<bool, AllocError>
        requires situation { IsSituation (situation_of self.now.table.now) }
        ensures { IfOk result
            (λ b. b ≡ rule (situation_of self.now.table.now) (Path p) (values self.now)) }
    {
        if !self.table.is_convoyed(p) {
            return Ok(false);
        }
        match self.table.target(p) {
            Some(q) => self.has_chain(room, p, q),
            None => Ok(false),
        }
    }

    /// The value that a decision's equation gives it by the others' values at this corner.
    pub(crate) fn rule(&self, room: &mut Room, d: &Decision) -> Result<bool, AllocError>
        requires situation { IsSituation (situation_of self.now.table.now) }
        ensures { IfOk result
            (λ b. b ≡ rule (situation_of self.now.table.now) d.now (values self.now)) }
    {
        match d {
            Decision::Move(p) => Ok(self.move_rule(*p)),
            Decision::Path(p) => self.path_rule(room, *p),
            Decision::Support(h) => Ok(self.is_support(*h) && self.is_uncut(*h)),
        }
    }
}
