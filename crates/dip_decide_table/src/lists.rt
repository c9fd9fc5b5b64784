//! Lists of provinces.
ghost use Rattle.std.specs.Prelude.{◌≡◌, IfOk, OnOk};
ghost use Rattle.dip_decide_table.specs.Situations.{is_listed};

use dip_names::Prov;
use std::alloc::{AllocError, Global};

/// A list of the same provinces.
pub fn copy_of(alloc: Global, list: &[Prov]) -> Result<Vec<Prov>, AllocError>
    ensures { IfOk result (λ v. v.items ≡ list.now) }
{
    list.to_vec(alloc)
}

/// Writes the same provinces over a list.
pub fn write_over(list: &mut Vec<Prov>, from: &[Prov]) -> Result<(), AllocError>
    ensures { OnOk result (list.new.items ≡ from.now) }
{
    list.clear();
    list.extend_from_slice(from)?;
    Ok(())
}

/// Whether a province is one of these.
pub fn is_in(list: &[Prov], p: Prov) -> bool
    ensures { result ≡ is_listed list.now p }
{
    list.contains(&p)
}
