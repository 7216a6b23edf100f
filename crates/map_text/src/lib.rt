//! Maps: what is where in an image, as a text of lines beside it.
//!
//! The definitions, in `specs/`: the tree of a map (`Maps.antt`), its rules (`Rules.antt`), its lines and their text
//! (`Words.antt`), how a text is read back (`Reading.antt`), and what a map shows of the machine at the statements that
//! it marks (`Marks.antt`). `one_whole_map` says that a text is that of one map at most. In goes what a line says, out
//! comes its text behind what was there (`push_point`).
#![tactic(auto)]

mod digits;
mod head_lines;
mod laws;
mod map_laws;
mod names;
mod op_words;
mod point_lines;

pub use digits::{push_address, push_number};
pub use head_lines::{push_array, push_end, push_function, push_object, push_title, push_variable};
pub use laws::worked_example;
pub use map_laws::{map_is_read, no_prefix, one_whole_map};
pub use names::Named;
pub use op_words::push_op;
pub use point_lines::{push_after, push_before, push_block, push_board, push_point, push_spilled};
