//! The one row of an answer.
ghost use Rattle.std.specs.Prelude.{◌≡◌, Option, option_to_list};
ghost use Rattle.sqlite.specs.Order.{Row as Values};

use sqlite::Row;

/// The row of an answer that has one or none.
pub fn only(mut rows: Vec<Row>) -> Option<Row>
    ensures { (o : Option Values) → rows.items ≡ option_to_list o → result ≡ o }
{
    rows.pop()
}
