//! What lines are made with: a builder of lines, the variables of a function, and lines that move and compute values.
//!
//! In: ops, the starts of blocks, a function of a typed program, and values by their variables. Out: the lines behind
//! those that are there, and the graph that all of them are, with its variables and frame arrays. The promise: each
//! function adds exactly the lines that `lower_lines` has, from the first block that isn't taken, and takes exactly
//! their blocks (`Adds` of `specs/Built.antt`); `Lines::graph` is the graph of the lines. The only refusal is want of
//! memory; a number above 32 bits counts as it.
//!
//! `lines` has the builder, `graph` and `frames` the graph with its widths and arrays, `heights` how many temporaries
//! expressions take; `site`, `spot` and `temporaries` the variables; `moves`, `numbers`, `operators`, `conversions` and
//! `arguments` lines on values that stand in variables, and `objects` those of static objects.
#![tactic(auto)]

mod arguments;
mod conversions;
mod frames;
mod graph;
mod heights;
mod line;
mod lines;
mod moves;
mod numbers;
mod objects;
mod operators;
mod site;
mod sites;
mod spot;
mod temporaries;
mod wanted;

pub use arguments::{passed_type, push_words};
pub use conversions::converting;
pub use frames::{arrays_of, widths_of};
pub use heights::{height, statements_height};
pub use line::Line;
pub use lines::{Lines, plus};
pub use moves::{
    copied, delivered, moved, null_pointer, number_test, pointer_test, reading, target, tested,
};
pub use objects::{bits_of, object, text_count};
pub use operators::{applied, computing, end_truth, on_numbers, tested_number};
pub use site::Site;
pub use spot::Spot;
pub use wanted::Wanted;
