//! The items of a whole function, over any legal map of its graph.
//!
//! In: the graph of a function and a legal map of it. Out: the items of its code (`select`), with the instructions
//! between points that bring each variable to where it is wanted next. The promise: the items are those that the
//! definitions name, and the graph has code over them (`specs/Selections.antt`). The only refusal is want of memory.
//!
//! `places` are places of a map as the code has them, `exits` the points that follow a point, `edges` the instructions
//! from one to the next, `move_table` and `table_of_moves` those of the whole graph; `frame` has where its arrays stand,
//! `site` where each variable stands by its number, and `headers`, `blocks`, `ops`, `operands`, `arrays` and `branches`
//! the items. `size_laws` has laws alone: what an assembler and a linker ask of the items, over any placement that
//! supports them.
#![tactic(auto)]

mod arrays;
mod blocks;
mod branches;
mod edges;
mod exits;
mod frame;
mod headers;
mod move_table;
mod operands;
mod ops;
mod places;
mod selection;
mod site;
mod size_laws;
mod stretch;
mod table_of_moves;

pub use selection::select;
pub use size_laws::{blocks_are_few, selected_is_code};
