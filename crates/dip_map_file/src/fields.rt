//! Fields of a table.
ghost use Rattle.std.specs.Prelude.{◌≡◌, map, option_map};
ghost use Rattle.std.specs.List.{list_any};
ghost use Rattle.std.specs.Str.{bytes_eq};
ghost use Rattle.toml.specs.Data.{get_member, as_str, as_table, as_array};
ghost use Rattle.toml.specs.View.{view, table_view, array_view};
ghost use Rattle.dip_map_file.specs.Fields.{or_wrong, field_at, text_at, table_at, flag_of, keys_are_among};
ghost use Rattle.dip_names.specs.Results.{Gives};

use dip_names::MapFault;
use toml::value::{Array, Table, Value};

/// The value of a key, if the table has that key.
pub(crate) fn member<'a>(table: &'a Table, key: &str) -> Option<&'a Value>
    ensures { option_map (λ v. view v.now) result ≡ get_member key.now (table_view table.now) }
{
    table.get(key)
}

/// The value of a key that has to be there.
#[tactic(auto, unfolding(crate::specs::Fields::field_at))]
pub(crate) fn field_of<'a>(table: &'a Table, key: &str) -> Result<&'a Value, MapFault>
    ensures { Gives (λ v. view v.now) result (field_at key.now (table_view table.now)) }
{
    match member(table, key) {
        Some(value) => Ok(value),
        None => Err(MapFault::WrongField),
    }
}

/// The text that a value is; `WrongField` where it is of another type.
pub(crate) fn text_in(value: &Value) -> Result<&str, MapFault>
    ensures { Gives (λ s. s.now) result (or_wrong (as_str (view value.now))) }
{
    match value.as_str() {
        Some(text) => Ok(text),
        None => Err(MapFault::WrongField),
    }
}

/// The table that a value is; `WrongField` where it is of another type.
pub(crate) fn table_in(value: &Value) -> Result<&Table, MapFault>
    ensures { Gives (λ t. table_view t.now) result (or_wrong (as_table (view value.now))) }
{
    match value.as_table() {
        Some(table) => Ok(table),
        None => Err(MapFault::WrongField),
    }
}

/// The array that a value is; `WrongField` where it is of another type.
pub(crate) fn array_in(value: &Value) -> Result<&Array, MapFault>
    ensures { Gives (λ a. array_view a.now) result (or_wrong (as_array (view value.now))) }
{
    match value.as_array() {
        Some(array) => Ok(array),
        None => Err(MapFault::WrongField),
    }
}

/// A field that has to be there and be a text.
#[tactic(auto, unfolding(crate::specs::Fields::text_at))]
pub(crate) fn text_of<'a>(table: &'a Table, key: &str) -> Result<&'a str, MapFault>
    ensures { Gives (λ s. s.now) result (text_at key.now (table_view table.now)) }
{
    let value = field_of(table, key)?;
    text_in(value)
}

/// A field that has to be there and be a table.
#[tactic(auto, unfolding(crate::specs::Fields::table_at))]
pub(crate) fn table_of<'a>(table: &'a Table, key: &str) -> Result<&'a Table, MapFault>
    ensures { Gives (λ t. table_view t.now) result (table_at key.now (table_view table.now)) }
{
    let value = field_of(table, key)?;
    table_in(value)
}

/// Whether an option is set; one that isn't there is not.
pub(crate) fn flag_in(table: &Table, key: &str) -> Result<bool, MapFault>
    ensures { Gives (λ b. b) result (flag_of (get_member key.now (table_view table.now))) }
{
    match member(table, key) {
        Some(value) => match value.as_bool() {
            Some(flag) => Ok(flag),
            None => Err(MapFault::WrongField),
        },
        None => Ok(false),
    }
}

/// Whether the key is one of these.
fn is_among(keys: &[&str], key: &str) -> bool
    ensures { result ≡ list_any (λ k. bytes_eq k key.now) (map (λ s. s.now) keys.now) }
{
    for known in keys {
        if *known == key {
            return true;
        }
    }
    false
}

/// Whether the table has no keys but these.
pub(crate) fn has_keys_among(table: &Table, keys: &[&str]) -> bool
    ensures { result ≡ keys_are_among (map (λ s. s.now) keys.now) (table_view table.now) }
{
    for (key, _) in table.iter() {
        if !is_among(keys, key.as_str()) {
            return false;
        }
    }
    true
}
