//! Boards that are equal part by part.
ghost use Rattle.std.specs.Prelude.{◌≡◌, IsTrue};

use dip_map::{Board, Dislodged, Power, Prov, Unit};

/// Whether the two lists have the same units in the same order.
fn same_units(these: &[Unit], those: &[Unit]) -> bool
    ensures { IsTrue result → these.now ≡ those.now }
{
    these == those
}

/// Whether the two lists have the same dislodged units in the same order.
fn same_dislodged(these: &[Dislodged], those: &[Dislodged]) -> bool
    ensures { IsTrue result → these.now ≡ those.now }
{
    these == those
}

/// Whether the two lists have the same provinces in the same order.
fn same_provinces(these: &[Prov], those: &[Prov]) -> bool
    ensures { IsTrue result → these.now ≡ those.now }
{
    these == those
}

/// Whether the two lists have the same owners in the same order.
fn same_owners(these: &[Option<Power>], those: &[Option<Power>]) -> bool
    ensures { IsTrue result → these.now ≡ those.now }
{
    these == those
}

/// Whether two boards are equal in each part. Where they are not, nothing is known.
pub(crate) fn are_surely_same(one: &Board, other: &Board) -> bool
    ensures { IsTrue result → one.now ≡ other.now }
{
    one.phase() == other.phase()
        && one.intent() == other.intent()
        && same_units(one.units(), other.units())
        && same_dislodged(one.dislodged(), other.dislodged())
        && same_provinces(one.standoff(), other.standoff())
        && same_owners(one.owners(), other.owners())
}
