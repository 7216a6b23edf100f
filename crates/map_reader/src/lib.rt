//! Texts of maps, read line by line.
//!
//! In goes a text, out comes the map whose text it is, or that there is none (`read_map`). In go the words of a line, out
//! comes the line (`read_line`), as `line_in` of `map_text` reads it. `specs/Views.antt` says which line of the definition
//! a line in memory is.
#![tactic(auto)]

mod fields;
mod line;
mod lines;
mod lists;
mod numbers;
mod ops;
mod places;
mod reading;
mod refusal;
mod tree;
mod whole;
mod words;

pub use line::Line;
pub use refusal::MapRefusal;
pub use whole::read_map;
pub use words::words_of;
