//! A desk's ten tables in an SQL store: made, known, checked, and renewed from version 1. No keeper is named here.
#![tactic(auto)]

mod checking;
mod creating;
mod desk_row;
mod faults;
mod founding;
mod known;
mod making;
mod old_rows;
mod renewing;

pub use checking::{VERSION, check_desk, check_old_desk};
pub use desk_row::read_desk;
pub use faults::{StoreFault, open_fault};
pub use founding::set_up_tables;
pub use known::{has_ballots, is_known, knows_all, knows_none};
pub use making::{has_32, make_tables};
pub use renewing::renew;
