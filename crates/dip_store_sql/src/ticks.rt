//! Ticks as values of a column.
ghost use Rattle.std.specs.Prelude.{◌≡◌, ◌<◌, ◌^◌, pos};
ghost use Rattle.sqlite.specs.declared.types.Value.TheVariants.{Int};
ghost use Rattle.sqlite.specs.Value.{owned};

use sqlite::types::ValueRef;

/// A tick as the database has it, where it is under 2^63.
pub fn tick_of(due: u64) -> ValueRef<'static>
    requires { due < 2 ^ 63 }
    ensures { owned result ≡ Int (pos due) }
{
    ValueRef::Int(due as i64)
}
