//! The worklist: the decisions that are to be tested, each once, with a mark for each that is on it.
ghost use Rattle.std.specs.Prelude.{◌≡◌, ◌<◌, ◌≤◌, ◌+◌, ◌∷◌, ◌++◌, ◌&&◌, [], IfNone, IfOk, IfSome, OnOk, false, length, not, replicate, take};
ghost use Rattle.dip_decide_rules.specs.Deciding.{is_among};
ghost use Rattle.dip_decide.specs.Worklist.{listed_if, mark_of, unit_of};

use dip_decide_rules::Decision;
use dip_names::Prov;
use std::alloc::{AllocError, Global};
use std::marker::Model;

/// Decisions that are to be tested, each once. The last one comes first.
#[derive(Drop)]
pub(crate) struct Worklist {
    /// So many of these are on the list, and after them is what may be written over.
    many: usize,
    list: Vec<Decision>,
    /// Whether a decision is on the list, by its mark's number.
    marks: [bool; 768],
}

impl Model for Worklist {
    ghost use Rattle.std.specs.Prelude.{List, take};
    ghost use Rattle.dip_decide_rules.specs.declared.decisions.Decision.{Decision};
    ghost use Rattle.dip_decide.specs.Worklist.{IsFilled};

    ghost Value = { List Decision };

    ghost view = { λ w. take w.many w.list.items };

    ghost invariant = { λ w. IsFilled w.many w.list.items w.marks };
}

/// The number of a decision's mark: a province has one for its move, one for its path and one for its support.
fn mark_of(d: &Decision) -> usize
    ensures is { result ≡ mark_of d.now }
    ensures low { result < 768 }
    ensures unit { unit_of d.now < 256 }
{
    match d {
        Decision::Move(p) => usize::from(p.index()),
        Decision::Path(p) => 256 + usize::from(p.index()),
        Decision::Support(p) => 512 + usize::from(p.index()),
    }
}

/// No mark for any decision.
fn no_marks() -> [bool; 768]
    ensures { result ≡ replicate 768 false }
{
    [false; 768]
}

/// Writes a decision at a number of a list, at its end at the most. Those before it stay.
fn write_at(list: &mut Vec<Decision>, index: usize, d: Decision) -> Result<(), AllocError>
    requires { index ≤ length list.old.items }
    ensures kept { take index list.new.items ≡ take index list.old.items }
    ensures long { index ≤ length list.new.items }
    ensures there { OnOk result (index < length list.new.items) }
    ensures put { OnOk result
        (take (index + 1) list.new.items ≡ take index list.old.items ++ d ∷ []) }
{
    if index < list.len() {
        list[index] = d;
        return Ok(());
    }
    list.push(d)?;
    Ok(())
}

impl Worklist {
    /// An empty list, with room for so many decisions.
    pub(crate) fn with_capacity(alloc: Global, room: usize) -> Result<Worklist, AllocError>
        ensures { IfOk result (λ w. w ≡ []) }
    {
        let list = vec![in alloc; Decision::Move(Prov::new(0)); room]?;
        Ok(Worklist {
            many: 0,
            list,
            marks: no_marks(),
        })
    }

    /// How many decisions are on the list.
    pub(crate) fn len(&self) -> usize
        ensures { result ≡ length self.now }
    {
        self.many
    }

    /// Whether a decision is on the list.
    pub(crate) fn has(&self, d: &Decision) -> bool
        ensures { result ≡ is_among d.now self.now }
    {
        self.marks[mark_of(d)]
    }

    /// Lists a decision that isn't on the list.
    pub(crate) fn push(&mut self, d: &Decision) -> Result<(), AllocError>
        requires { is_among d.now self.old ≡ false }
        ensures { OnOk result (self.new ≡ self.old ++ d.now ∷ []) }
    {
        write_at(&mut self.list, self.many, *d)?;
        self.marks[mark_of(d)] = true;
        self.many += 1;
        Ok(())
    }

    /// Lists a decision, if it is wanted and isn't on the list: it is written after those so far, and counts or is written over, so that
    /// there is no branch that a processor can't foretell.
    pub(crate) fn push_if(&mut self, d: &Decision, is_wanted: bool) -> Result<(), AllocError>
        ensures { OnOk result
            (self.new
            ≡ listed_if (is_wanted && not (is_among d.now self.old)) d.now self.old) }
    {
        let mark = mark_of(d);
        let was = self.marks[mark];
        write_at(&mut self.list, self.many, *d)?;
        self.marks[mark] = was | is_wanted;
        self.many += usize::from(is_wanted & !was);
        Ok(())
    }

    /// Takes the last decision from the list.
    pub(crate) fn pop(&mut self) -> Option<Decision>
        ensures some { IfSome result (λ d. self.old ≡ self.new ++ d ∷ []) }
        ensures none { IfNone result (self.old ≡ []) }
        ensures rest { IfNone result (self.new ≡ []) }
    {
        if self.many == 0 {
            return None;
        }
        self.many -= 1;
        let d = self.list[self.many];
        self.marks[mark_of(&d)] = false;
        Some(d)
    }
}
