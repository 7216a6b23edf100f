//! The graphs of a typed program: one for each function, and its static objects.
//!
//! In: a typed program in memory. Out: the graphs that `lower_lines` has for it. The promise: they do what the program
//! does, for every input and number of turns, and they are a program of graphs. The only refusal is want of memory; a
//! number above 32 bits counts as it.
//!
//! `walk` has the lines of statements, with `items`, `switches`, `labels`, `turns` of loops and `started_blocks`, where
//! control goes before a statement that may start a block; `functions` those of a function, made twice, since some
//! blocks are named before it is known which ones they are; `lowered` its graph, and `program` all of them.
#![tactic(auto)]

mod functions;
mod graphs;
mod items;
mod labels;
mod lowered;
mod objects;
mod parts;
mod program;
mod started_blocks;
mod switches;
mod turns;
mod walk;

pub use functions::function;
pub use graphs::Graphs;
pub use items::{first_part, item};
pub use labels::{Starts, cases_of};
pub use lowered::graph;
pub use parts::{evaluated, go, return_value};
pub use program::lower;
pub use walk::{sequence, statement};
