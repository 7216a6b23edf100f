//! The items of each op of a graph, over any placement of its variables (`specs/Rows.antt`), and what a state of
//! the machine shows of a state of a program of graphs. No code.
//!
//! Where variables, frame arrays and code stand is in `specs/Placements.antt`, the relation between the two states
//! in `specs/Shows.antt`, and the runs of the machine that lead from one to the other in `specs/Paths.antt`. What
//! it means that code follows its program, step by step and in whole runs, for any list of graphs and any
//! placement, is in `specs/Follows.antt`; whole runs follow from single steps (`whole_runs`). `effects` has the
//! laws of straight code, and `calls` those of a function's first items and of the end of the run.
#![tactic(auto)]

mod calls;
mod effects;
mod laws;
mod shows;

pub use calls::{endings_halt, functions_are_entered};
pub use effects::{
    other_places_are_kept, rows_change_words, rows_compute_words, rows_move_words,
    straight_code_goes, words_have_bytes,
};
pub use laws::{labels_and_points_stand_once, rows_are_short};
pub use shows::{
    arrays_are_there, calls_wait, inputs_are_bytes, jumps_lead, loops_fill, whole_runs,
};
