//! A run over letters, from a reader to a writer, over any keeper or from a fresh desk on, and the map's file.
#![tactic(auto)]

mod fresh;
mod map_file;
mod reading;
mod run;

pub use fresh::answer_letters;
pub use map_file::{FileFault, MOST_MAP, NoMap, read_map, read_text, text_said};
pub use reading::ReadFault;
pub use run::{MOST_INPUT, RunFault, read_input, run_file};
