//! The values of decisions so far.
ghost use Rattle.std.specs.Prelude.{◌≡◌, ◌∷◌, [], None, Some, true, false, replicate, IfOk};
ghost use Rattle.std.specs.List.{slice_index_or};
ghost use Rattle.dip_decide_rules.specs.Deciding.{give};
ghost use Rattle.dip_decide_rules.specs.Given.{known_of};
ghost use Rattle.dip_decide_rules.specs.Rings.{AreOpen, ArePathsOpen};
ghost use Rattle.dip_decide_rules.specs.Steps.{moves_of, paths_of};
ghost use Rattle.dip_map.specs.Charts.{are_provs_single};

use crate::decisions::Decision;
use dip_names::Prov;
use std::alloc::{AllocError, Global};

/// The values that were given so far, by the numbers of the provinces; none where the decision is open.
#[derive(Drop)]
pub struct Values {
    pub moves: Vec<Option<bool>>,
    pub paths: Vec<Option<bool>>,
    pub supports: Vec<Option<bool>>,
}

/// A decision's value by its province, if it has one. Past the list's end each is false.
pub fn value_at(list: &[Option<bool>], p: Prov) -> Option<bool>
    ensures { result ≡ slice_index_or list.now p (Some false) }
{
    match list.get(usize::from(p.index())) {
        Some(value) => *value,
        None => Some(false),
    }
}

/// False for each of so many provinces.
pub fn all_false(alloc: Global, count: usize) -> Result<Vec<Option<bool>>, AllocError>
    ensures { IfOk result (λ v. v.items ≡ replicate count (Some false)) }
{
    let column = vec![in alloc; Some(false); count]?;
    Ok(column)
}

impl Values {
    /// The value that a decision was given.
    pub fn look(&self, d: &Decision) -> Option<bool>
        ensures { result ≡ known_of self.now d.now }
    {
        match d {
            Decision::Move(p) => value_at(&self.moves, *p),
            Decision::Path(p) => value_at(&self.paths, *p),
            Decision::Support(p) => value_at(&self.supports, *p),
        }
    }

    /// Gives an open decision its value.
    pub fn give(&mut self, d: &Decision, value: bool)
        requires { known_of self.old d.now ≡ None }
        ensures { known_of self.new ≡ give (known_of self.old) (d.now ∷ []) value }
    {
        match d {
            Decision::Move(p) => {
                if let Some(place) = self.moves.get_mut(usize::from(p.index())) {
                    *place = Some(value);
                }
            }
            Decision::Path(p) => {
                if let Some(place) = self.paths.get_mut(usize::from(p.index())) {
                    *place = Some(value);
                }
            }
            Decision::Support(p) => {
                if let Some(place) = self.supports.get_mut(usize::from(p.index())) {
                    *place = Some(value);
                }
            }
        }
    }

    /// These moves, which were open, succeed from now on.
    pub fn give_moves(&mut self, units: &[Prov])
        requires distinct { are_provs_single units.now ≡ true }
        requires unknown { AreOpen (known_of self.old) units.now }
        ensures { known_of self.new ≡ give (known_of self.old) (moves_of units.now) true }
    {
        for p in units {
            self.give(&Decision::Move(*p), true);
        }
    }

    /// Gives false to the paths of these moves.
    pub fn break_paths(&mut self, units: &[Prov])
        requires distinct { are_provs_single units.now ≡ true }
        requires unknown { ArePathsOpen (known_of self.old) units.now }
        ensures { known_of self.new ≡ give (known_of self.old) (paths_of units.now) false }
    {
        for p in units {
            self.give(&Decision::Path(*p), false);
        }
    }
}
