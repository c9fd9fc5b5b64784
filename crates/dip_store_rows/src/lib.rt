//! The rows of the tables, a record a row: which are of a game or a seat, and how they are made, numbered and apart. It knows no map and
//! no desk, so that the statements over SQL are proved beside both.
#![tactic(auto)]
