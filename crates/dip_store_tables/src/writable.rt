//! Whether a change can be written in the tables.
ghost use Rattle.std.specs.Prelude.{◌↔◌, IsTrue};
ghost use Rattle.dip_desk_state.specs.ChangeRows as desk_rows;
ghost use Rattle.dip_store_tables.specs.ChangeColumns.{IsWritable};

use crate::writable_effects::is_writable_effect;
use crate::writable_parts::is_author;
use crate::writable_texts::lacks;
use dip_desk_state::Change;
use dip_map::Map;

/// Whether the change can be written: what it names is of the map, its letter has a number, no name, word or line of it would break the
/// text that it stands in, and its numbers fit their columns.
pub fn is_writable(map: &Map, change: &Change) -> bool
    ensures { IsTrue result ↔ IsWritable map.now (desk_rows.change change.now) }
{
    is_author(map, change.author)
        && change.kept.number != 0
        && lacks(change.game.as_str(), b'\n')
        && is_writable_effect(map, &change.effect)
}
