//! Strengths, printed with the units that they count and those that they leave out.
ghost use Rattle.std.specs.Prelude.{◌≡◌, ◌++◌, ◌&&◌, not, OnOk, codes, filter, flat_map, string_bytes};
ghost use Rattle.dip_decide_rules.specs.declared.decisions.Decision.TheVariants.{Support};
ghost use Rattle.dip_decide_rules.specs.Movement.{attack, opposition, prevent};
ghost use Rattle.dip_decide_rules.specs.Given.{known_of, situation_of};
ghost use Rattle.dip_decide_rules.specs.Steps.{is_unknown};
ghost use Rattle.dip_explain_strengths.specs.Matters.{code, here, matter_of, others, there, unit_in};
ghost use Rattle.dip_explain_strengths.specs.Strengths.{backs, backs_against, backers, backers_against, is_free, is_left_out, is_left_out_against, left_out, left_out_against};
ghost use Rattle.dip_explain_strengths.specs.StrengthTexts as m;

use crate::cases::Case;
use crate::lists::push_unit;
use dip_decide_rules::{Corner, Decision};
use dip_names::Prov;
use std::alloc::AllocError;

/// Appends a strength, with what it is at the other completion: bare where the two are the same.
#[tactic(auto, unfolding(crate::specs::StrengthTexts::strength_text))]
fn push_strength(
    at_least: bool,
    here: usize,
    there: usize,
    out: &mut String,
) -> Result<(), AllocError>
    ensures { OnOk result
        (string_bytes out.new ≡ string_bytes out.old ++ m.strength_text at_least here there) }
{
    if here != there {
        out.push_str(if at_least { "at least " } else { "at most " })?;
    }
    write!(out, "{here}")
}

/// What a unit of the mover's own power does that doesn't make way.
#[tactic(auto, unfolding(crate::specs::StrengthTexts::own_words))]
fn own_words(meets: bool) -> &'static str
    ensures { result.now ≡ m.own_words meets }
{
    if meets {
        "comes the other way"
    } else {
        "stays there"
    }
}

/// Appends that a unit is of the mover's own power, and what it does.
#[tactic(auto, unfolding(crate::specs::StrengthTexts::own_way_text))]
fn push_own_way(meets: bool, out: &mut String) -> Result<(), AllocError>
    ensures { OnOk result
        (string_bytes out.new ≡ string_bytes out.old ++ m.own_way_text meets) }
{
    out.push_str(own_way_words())?;
    out.push_str(own_words(meets))
}

/// The words before the province of a unit whose power is the supporter's own.
#[tactic(auto, unfolding(crate::specs::StrengthTexts::own_power_words))]
fn own_power_words() -> &'static str
    ensures { result.now ≡ m.own_power_words }
{
    ", whose own power stands in "
}

/// The word for what a move meets: units head to head defend, and others hold.
#[tactic(auto, unfolding(crate::specs::StrengthTexts::opposition_word))]
fn opposition_word(meets: bool) -> &'static str
    ensures { result.now ≡ m.opposition_word meets }
{
    if meets { "defend " } else { "hold " }
}

/// What stands before the words on a unit of the mover's own power.
#[tactic(auto, unfolding(crate::specs::StrengthTexts::own_way_words))]
fn own_way_words() -> &'static str
    ensures { result.now ≡ m.own_way_words }
{
    ", of its own power, "
}

/// What is said of a move that has no route.
#[tactic(auto, unfolding(crate::specs::StrengthTexts::pathless_words))]
fn pathless_words() -> &'static str
    ensures { result.now ≡ m.pathless_words }
{
    " has no route)"
}

impl Case<'_> {
    /// The strength of a move's attack at the other completion.
    fn attack_there(&self, p: Prov, q: Prov) -> usize
        ensures { result ≡ attack (situation_of self.now.corner.table.now)
            (there (matter_of self.now)) p q }
    {
        let corner = Corner {
            table: self.corner.table,
            known: self.corner.known,
            of: self.corner.of,
            high: !self.corner.high,
        };
        corner.attack(p, q)
    }

    /// What a destination sets against a move at the other completion.
    fn opposition_there(&self, p: Prov, q: Prov) -> usize
        ensures { result ≡ opposition (situation_of self.now.corner.table.now)
            (there (matter_of self.now)) p q }
    {
        let corner = Corner {
            table: self.corner.table,
            known: self.corner.known,
            of: self.corner.of,
            high: !self.corner.high,
        };
        corner.opposition(p, q)
    }

    /// What a move sets against others at the other completion.
    fn prevent_there(&self, p: Prov, q: Prov) -> usize
        ensures { result ≡ prevent (situation_of self.now.corner.table.now)
            (there (matter_of self.now)) p q }
    {
        let corner = Corner {
            table: self.corner.table,
            known: self.corner.known,
            of: self.corner.of,
            high: !self.corner.high,
        };
        corner.prevent(p, q)
    }

    /// Appends the unit in a province, or the province's code where none has an order.
    #[tactic(auto, unfolding(crate::specs::Matters::unit_in))]
    pub fn push_unit(&self, p: Prov, out: &mut String) -> Result<(), AllocError>
        ensures { OnOk result
            (string_bytes out.new ≡ string_bytes out.old ++ unit_in (matter_of self.now) p) }
    {
        push_unit(self.map, self.orders, p, out)
    }

    /// Appends a province's code, by which lines name a province.
    pub fn push_code(&self, p: Prov, out: &mut String) -> Result<(), AllocError>
        ensures { OnOk result
            (string_bytes out.new ≡ string_bytes out.old ++ code self.now.map.now p) }
    {
        out.push_str(self.map.code(p))
    }

    /// Whether a support isn't known.
    fn is_open(&self, h: Prov) -> bool
        ensures { result ≡ is_unknown (known_of self.now.corner.known.now (Support h)) }
    {
        self.corner.known.look(&Decision::Support(h)).is_none()
    }

    /// Whether a unit has a support of another that is given.
    #[tactic(auto, unfolding(crate::specs::Strengths::backs))]
    fn backs(&self, p: Prov, h: Prov) -> bool
        ensures { result ≡ backs (situation_of self.now.corner.table.now)
            (here (matter_of self.now)) p h }
    {
        self.corner.table.supports(h, p) && self.corner.value(&Decision::Support(h))
    }

    /// Whether it has one, and is of another power than the unit in a third province.
    #[tactic(auto, unfolding(crate::specs::Strengths::backs_against))]
    fn backs_against(&self, p: Prov, q: Prov, h: Prov) -> bool
        ensures { result ≡ backs_against (situation_of self.now.corner.table.now)
            (here (matter_of self.now)) p q h }
    {
        self.backs(p, h) && !self.corner.table.same_power(h, q)
    }

    /// Whether it has a support of another that matches and doesn't count.
    #[tactic(auto, unfolding(crate::specs::Strengths::is_left_out))]
    fn is_left_out(&self, p: Prov, h: Prov) -> bool
        ensures { result ≡ is_left_out (situation_of self.now.corner.table.now)
            (here (matter_of self.now)) p h }
    {
        self.corner.table.supports(h, p) && !self.backs(p, h)
    }

    /// Whether it has one that doesn't count against the unit in a third province.
    #[tactic(auto, unfolding(crate::specs::Strengths::is_left_out_against))]
    fn is_left_out_against(&self, p: Prov, q: Prov, h: Prov) -> bool
        ensures { result ≡ is_left_out_against (situation_of self.now.corner.table.now)
            (here (matter_of self.now)) p q h }
    {
        self.corner.table.supports(h, p) && !self.backs_against(p, q, h)
    }

    /// Appends a unit whose support counts.
    #[tactic(auto, unfolding(crate::specs::StrengthTexts::backer_text))]
    fn push_backer(&self, h: Prov, out: &mut String) -> Result<(), AllocError>
        ensures { OnOk result
            (string_bytes out.new ≡ string_bytes out.old ++ m.backer_text (matter_of self.now) h) }
    {
        self.push_unit(h, out)?;
        if self.is_open(h) {
            out.push_str(" if uncut")?;
        }
        Ok(())
    }

    /// Appends a further unit whose support counts, after a comma.
    fn push_other_backer(&self, h: Prov, out: &mut String) -> Result<(), AllocError>
        ensures { OnOk result
            (string_bytes out.new ≡ string_bytes out.old ++ (codes ", " ++ m.backer_text
            (matter_of self.now) h)) }
    {
        out.push_str(", ")?;
        self.push_backer(h, out)
    }

    /// Appends the units whose supports of one count.
    fn push_backers(&self, p: Prov, out: &mut String) -> Result<(), AllocError>
        ensures { OnOk result
            (string_bytes out.new ≡ string_bytes out.old ++ others
            (m.backer_text (matter_of self.now))
            (backers (situation_of self.now.corner.table.now) (here (matter_of self.now)) p)) }
    {
        for h in &self.corner.table.places {
            if self.backs(p, *h) {
                self.push_other_backer(*h, out)?;
            }
        }
        Ok(())
    }

    /// Appends the units whose supports of one count against the unit in a province.
    fn push_backers_against(&self, p: Prov, q: Prov, out: &mut String) -> Result<(), AllocError>
        ensures { OnOk result
            (string_bytes out.new ≡ string_bytes out.old ++ others
            (m.backer_text (matter_of self.now))
            (backers_against (situation_of self.now.corner.table.now) (here (matter_of self.now)) p
            q)) }
    {
        for h in &self.corner.table.places {
            if self.backs_against(p, q, *h) {
                self.push_other_backer(*h, out)?;
            }
        }
        Ok(())
    }

    /// Appends why a support doesn't count.
    #[tactic(auto, unfolding(crate::specs::StrengthTexts::lack_text))]
    fn push_lack(&self, h: Prov, out: &mut String) -> Result<(), AllocError>
        ensures { OnOk result
            (string_bytes out.new ≡ string_bytes out.old ++ m.lack_text (matter_of self.now) h) }
    {
        out.push_str(if self.is_open(h) {
            ", which may be cut"
        } else {
            ", cut"
        })
    }

    /// Appends a unit whose support doesn't count, with the reason.
    #[tactic(auto, unfolding(crate::specs::StrengthTexts::left_out_text))]
    fn push_left_out(&self, h: Prov, out: &mut String) -> Result<(), AllocError>
        ensures { OnOk result
            (string_bytes out.new ≡ string_bytes out.old ++ m.left_out_text (matter_of self.now)
            h) }
    {
        out.push_str("; without ")?;
        self.push_unit(h, out)?;
        self.push_lack(h, out)
    }

    /// Appends that a support is by the power of the unit in `q`.
    #[tactic(auto, unfolding(crate::specs::StrengthTexts::own_power_text))]
    fn push_own_power(&self, q: Prov, out: &mut String) -> Result<(), AllocError>
        ensures { OnOk result
            (string_bytes out.new ≡ string_bytes out.old ++ m.own_power_text self.now.map.now q) }
    {
        out.push_str(own_power_words())?;
        self.push_code(q, out)
    }

    /// Appends why a support doesn't count against the unit in `q`.
    #[tactic(auto, unfolding(crate::specs::StrengthTexts::lack_against_text))]
    fn push_lack_against(&self, q: Prov, h: Prov, out: &mut String) -> Result<(), AllocError>
        ensures { OnOk result
            (string_bytes out.new ≡ string_bytes out.old ++ m.lack_against_text
            (matter_of self.now) q h) }
    {
        if self.corner.value(&Decision::Support(h)) {
            return self.push_own_power(q, out);
        }
        self.push_lack(h, out)
    }

    /// Appends a unit whose support doesn't count against the unit in `q`, with the reason.
    #[tactic(auto, unfolding(crate::specs::StrengthTexts::left_out_against_text))]
    fn push_left_out_against(&self, q: Prov, h: Prov, out: &mut String) -> Result<(), AllocError>
        ensures { OnOk result
            (string_bytes out.new ≡ string_bytes out.old ++ m.left_out_against_text
            (matter_of self.now) q h) }
    {
        out.push_str("; without ")?;
        self.push_unit(h, out)?;
        self.push_lack_against(q, h, out)
    }

    /// Appends the units whose supports of one match and don't count.
    fn push_all_left_out(&self, p: Prov, out: &mut String) -> Result<(), AllocError>
        ensures { OnOk result
            (string_bytes out.new ≡ string_bytes out.old ++ flat_map
            (m.left_out_text (matter_of self.now))
            (left_out (situation_of self.now.corner.table.now) (here (matter_of self.now)) p)) }
    {
        for h in &self.corner.table.places {
            if self.is_left_out(p, *h) {
                self.push_left_out(*h, out)?;
            }
        }
        Ok(())
    }

    /// Appends those that don't count against the unit in a province.
    fn push_all_left_out_against(
        &self,
        p: Prov,
        q: Prov,
        out: &mut String,
    ) -> Result<(), AllocError>
        ensures { OnOk result
            (string_bytes out.new ≡ string_bytes out.old ++ flat_map
            (m.left_out_against_text (matter_of self.now) q)
            (left_out_against (situation_of self.now.corner.table.now) (here (matter_of self.now)) p
            q)) }
    {
        for h in &self.corner.table.places {
            if self.is_left_out_against(p, q, *h) {
                self.push_left_out_against(q, *h, out)?;
            }
        }
        Ok(())
    }

    /// Appends a unit with those that support it.
    #[tactic(auto, unfolding(crate::specs::StrengthTexts::backed_text))]
    fn push_backed(&self, p: Prov, out: &mut String) -> Result<(), AllocError>
        ensures { OnOk result
            (string_bytes out.new ≡ string_bytes out.old ++ m.backed_text (matter_of self.now) p) }
    {
        out.push_str(" (")?;
        self.push_unit(p, out)?;
        self.push_backers(p, out)?;
        self.push_all_left_out(p, out)?;
        out.push_str(")")
    }

    /// Appends a unit with those that support it against the one in a province.
    #[tactic(auto, unfolding(crate::specs::StrengthTexts::backed_against_text))]
    fn push_backed_against(&self, p: Prov, q: Prov, out: &mut String) -> Result<(), AllocError>
        ensures { OnOk result
            (string_bytes out.new ≡ string_bytes out.old ++ m.backed_against_text
            (matter_of self.now) p q) }
    {
        out.push_str(" (")?;
        self.push_unit(p, out)?;
        self.push_backers_against(p, q, out)?;
        self.push_all_left_out_against(p, q, out)?;
        out.push_str(")")
    }

    /// Appends that the unit in `q` is the reason.
    #[tactic(auto, unfolding(crate::specs::StrengthTexts::since_text))]
    fn push_since(&self, q: Prov, out: &mut String) -> Result<(), AllocError>
        ensures { OnOk result
            (string_bytes out.new ≡ string_bytes out.old ++ m.since_text (matter_of self.now) q) }
    {
        out.push_str(", since ")?;
        self.push_unit(q, out)
    }

    /// Appends that the move goes to a unit of its own power, which doesn't make way.
    #[tactic(auto, unfolding(crate::specs::StrengthTexts::own_text))]
    fn push_own(&self, p: Prov, q: Prov, out: &mut String) -> Result<(), AllocError>
        ensures { OnOk result
            (string_bytes out.new ≡ string_bytes out.old ++ m.own_text (matter_of self.now) p q) }
    {
        self.push_since(q, out)?;
        push_own_way(self.corner.table.head_to_head(p, q), out)
    }

    /// Whether the move from `p` to `q` meets nobody: nobody is there, or the unit there leaves and
    /// doesn't come the other way.
    fn is_free(&self, p: Prov, q: Prov) -> bool
        ensures { result ≡ is_free (situation_of self.now.corner.table.now)
            (here (matter_of self.now)) p q }
    {
        let table = self.corner.table;
        !table.is_occupied(q)
            || (self.corner.value(&Decision::Move(q)) && !table.head_to_head(p, q))
    }

    /// Appends who attacks a province with a unit, or why nobody does.
    #[tactic(auto, unfolding(crate::specs::StrengthTexts::attackers_text))]
    fn push_attackers(&self, p: Prov, q: Prov, out: &mut String) -> Result<(), AllocError>
        ensures { OnOk result
            (string_bytes out.new ≡ string_bytes out.old ++ m.attackers_text (matter_of self.now) p
            q) }
    {
        if !self.corner.has_path(p) {
            return out.push_str(", since it has no route");
        }
        if self.is_free(p, q) {
            return self.push_backed(p, out);
        }
        if self.corner.table.same_power(p, q) {
            return self.push_own(p, q, out);
        }
        self.push_backed_against(p, q, out)
    }

    /// Appends how strong the move from `p` to `q` is.
    #[tactic(auto, unfolding(crate::specs::StrengthTexts::attack_strength))]
    fn push_attack_strength(&self, p: Prov, q: Prov, out: &mut String) -> Result<(), AllocError>
        ensures { OnOk result
            (string_bytes out.new ≡ string_bytes out.old ++ m.attack_strength (matter_of self.now)
            p q) }
    {
        let here = self.corner.attack(p, q);
        let there = self.attack_there(p, q);
        push_strength(!self.corner.high, here, there, out)
    }

    /// Appends the attack of the move from one province to another, and who makes it.
    #[tactic(auto, unfolding(crate::specs::StrengthTexts::attack_text))]
    pub fn push_attack(&self, p: Prov, q: Prov, out: &mut String) -> Result<(), AllocError>
        ensures { OnOk result
            (string_bytes out.new ≡ string_bytes out.old ++ m.attack_text (matter_of self.now) p
            q) }
    {
        out.push_str("attack ")?;
        self.push_attack_strength(p, q, out)?;
        self.push_attackers(p, q, out)
    }

    /// Appends that the unit in `q` leaves.
    #[tactic(auto, unfolding(crate::specs::StrengthTexts::leaver_text))]
    fn push_leaver(&self, q: Prov, out: &mut String) -> Result<(), AllocError>
        ensures { OnOk result
            (string_bytes out.new ≡ string_bytes out.old ++ m.leaver_text (matter_of self.now) q) }
    {
        out.push_str(" (")?;
        self.push_unit(q, out)?;
        out.push_str(" leaves)")
    }

    /// Appends the unit in `q`, which nobody supports.
    #[tactic(auto, unfolding(crate::specs::StrengthTexts::alone_text))]
    fn push_alone(&self, q: Prov, out: &mut String) -> Result<(), AllocError>
        ensures { OnOk result
            (string_bytes out.new ≡ string_bytes out.old ++ m.alone_text (matter_of self.now) q) }
    {
        out.push_str(" (")?;
        self.push_unit(q, out)?;
        out.push_str(")")
    }

    /// Appends who holds a province.
    #[tactic(auto, unfolding(crate::specs::StrengthTexts::holders_text))]
    fn push_holders(&self, q: Prov, out: &mut String) -> Result<(), AllocError>
        ensures { OnOk result
            (string_bytes out.new ≡ string_bytes out.old ++ m.holders_text (matter_of self.now)
            q) }
    {
        if !self.corner.table.is_occupied(q) {
            return Ok(());
        }
        if self.corner.value(&Decision::Move(q)) {
            return self.push_leaver(q, out);
        }
        if self.corner.table.has_move(q) {
            return self.push_alone(q, out);
        }
        self.push_backed(q, out)
    }

    /// Appends who sets itself against the move of a unit in the province that it goes to.
    #[tactic(auto, unfolding(crate::specs::StrengthTexts::opponents_text))]
    fn push_opponents(&self, p: Prov, q: Prov, out: &mut String) -> Result<(), AllocError>
        ensures { OnOk result
            (string_bytes out.new ≡ string_bytes out.old ++ m.opponents_text (matter_of self.now) p
            q) }
    {
        if self.corner.table.head_to_head(p, q) {
            self.push_backed(q, out)
        } else {
            self.push_holders(q, out)
        }
    }

    /// Appends how strong that is which the destination sets against the move from `p` to `q`.
    #[tactic(auto, unfolding(crate::specs::StrengthTexts::opposition_strength))]
    fn push_opposition_strength(&self, p: Prov, q: Prov, out: &mut String) -> Result<(), AllocError>
        ensures { OnOk result
            (string_bytes out.new ≡ string_bytes out.old ++ m.opposition_strength (matter_of
            self.now) p q) }
    {
        let here = self.corner.opposition(p, q);
        let there = self.opposition_there(p, q);
        push_strength(self.corner.high, here, there, out)
    }

    /// Appends what a province sets against the move of a unit to it.
    #[tactic(auto, unfolding(crate::specs::StrengthTexts::opposition_text))]
    pub fn push_opposition(&self, p: Prov, q: Prov, out: &mut String) -> Result<(), AllocError>
        ensures { OnOk result
            (string_bytes out.new ≡ string_bytes out.old ++ m.opposition_text (matter_of self.now) p
            q) }
    {
        out.push_str(opposition_word(self.corner.table.head_to_head(p, q)))?;
        self.push_opposition_strength(p, q, out)?;
        self.push_opponents(p, q, out)
    }

    /// Appends that the move of `w` has no route.
    #[tactic(auto, unfolding(crate::specs::StrengthTexts::pathless))]
    fn push_pathless(&self, w: Prov, out: &mut String) -> Result<(), AllocError>
        ensures { OnOk result
            (string_bytes out.new ≡ string_bytes out.old ++ m.pathless (matter_of self.now) w) }
    {
        out.push_str(" (")?;
        self.push_unit(w, out)?;
        out.push_str(pathless_words())
    }

    /// Appends that the move of `w` lost head to head against the unit in `q`.
    #[tactic(auto, unfolding(crate::specs::StrengthTexts::loser_text))]
    fn push_loser(&self, q: Prov, w: Prov, out: &mut String) -> Result<(), AllocError>
        ensures { OnOk result
            (string_bytes out.new ≡ string_bytes out.old ++ m.loser_text (matter_of self.now) q w) }
    {
        out.push_str(" (")?;
        self.push_unit(w, out)?;
        out.push_str(" lost to ")?;
        self.push_unit(q, out)?;
        out.push_str(" head to head)")
    }

    /// Appends who prevents other moves to a province with a unit, or why nobody does.
    #[tactic(auto, unfolding(crate::specs::StrengthTexts::preventers_text))]
    fn push_preventers(&self, q: Prov, w: Prov, out: &mut String) -> Result<(), AllocError>
        ensures { OnOk result
            (string_bytes out.new ≡ string_bytes out.old ++ m.preventers_text (matter_of self.now) q
            w) }
    {
        if !self.corner.has_path(w) {
            return self.push_pathless(w, out);
        }
        if self.corner.table.head_to_head(w, q) && self.corner.value(&Decision::Move(q)) {
            return self.push_loser(q, w, out);
        }
        self.push_backed(w, out)
    }

    /// Appends how strong the move of `w` is against other moves to `q`.
    #[tactic(auto, unfolding(crate::specs::StrengthTexts::prevent_strength))]
    fn push_prevent_strength(&self, q: Prov, w: Prov, out: &mut String) -> Result<(), AllocError>
        ensures { OnOk result
            (string_bytes out.new ≡ string_bytes out.old ++ m.prevent_strength (matter_of self.now)
            q w) }
    {
        let here = self.corner.prevent(w, q);
        let there = self.prevent_there(w, q);
        push_strength(self.corner.high, here, there, out)
    }

    /// Appends what the move of a unit sets against other moves to the same province.
    #[tactic(auto, unfolding(crate::specs::StrengthTexts::prevent_text))]
    pub fn push_prevent(&self, q: Prov, w: Prov, out: &mut String) -> Result<(), AllocError>
        ensures { OnOk result
            (string_bytes out.new ≡ string_bytes out.old ++ m.prevent_text (matter_of self.now) q
            w) }
    {
        out.push_str("prevent ")?;
        self.push_prevent_strength(q, w, out)?;
        self.push_preventers(q, w, out)
    }
}
