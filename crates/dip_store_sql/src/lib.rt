//! SQL over the tables of a desk: the schema, what each text means against it, and each statement that writes and each query as a function.
#![tactic(auto)]

mod adding;
mod dropping;
mod listings;
mod lookups;
mod noting;
mod only;
mod row_faults;
mod rows;
mod ticks;
mod values;

pub use adding::{
    add_ballot, add_centre, add_choice, add_desk, add_game, add_item, add_paper, add_pending,
    add_seat, add_three_pending, add_unit,
};
pub use dropping::{
    drop_ballots, drop_centres, drop_choices, drop_items, drop_orders, drop_papers, drop_pending,
    drop_seats, drop_units,
};
pub use listings::{list_centres, list_games, list_orders, list_seats, list_units, list_votes};
pub use lookups::{
    find_ballot, find_choice, find_desk, find_digest, find_game, find_item, find_paper, find_seat,
};
pub use noting::{
    clear_votes, count_item, note_ballot, note_desk, renew_game, renew_seat, replace_digest,
    set_version,
};
pub use row_faults::RowFault;
pub use rows::{GameRow, ItemRow, LastLetter, OrderRow, SeatRow, UnitRow};
pub use values::{digest_at, number_at, text_at, tick_at};
