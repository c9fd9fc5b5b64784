//! Laws of explained movements: the numbers of their lines are of the units named, and what a line tells is what the rules decide.
#![tactic(auto)]

mod laws;

pub use laws::{
    boards_have_such_situations, counted_supports_are_given, each_decision_has_one_line,
    each_unit_is_counted_once, lines_rest_on_those_above, lines_say_what_came_out,
    names_are_of_the_units_counted, numbers_decide_moves, numbers_stand_before_their_units,
    routes_are_of_the_fleets_named, strengths_are_as_said, strengths_count_the_units_named,
    supporters_are_as_said, supports_are_cut_by_those_named, verdicts_are_as_told,
};
