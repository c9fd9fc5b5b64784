//! The texts of each change.
ghost use Rattle.dip_desk_state.specs.ChangeRows as desk_rows;
ghost use Rattle.dip_store_tables.specs.ChangeTexts.{HasTexts};

use dip_desk_state::Change;

/// The texts of each change are of characters, by their types.
pub fn has_texts(change: &Change)
    ensures { HasTexts (desk_rows.change change.now) }
{
    let _change = change;
}
