//! The three-address graph of one function: variables of width One or Two, frame arrays, and blocks
//! of points, each point with one op.
//!
//! In: calls that add variables, arrays, blocks and points. Out: readers of the same. `specs/Graphs.antt`
//! has what a contract sees of a graph, what each call leaves, and what every graph keeps: an op fits
//! where it stands, a point stands in one block once, and an end stands only last in its block.
//!
//! What graphs mean is here too: their states (`specs/States.antt`), what each op does
//! (`specs/Meaning.antt`), the outcome of a number of turns (`specs/Running.antt`), and which variables are
//! live, by paths (`specs/Liveness.antt`). The laws say that a run has one outcome, and that states of a program keep
//! what the first one keeps (`state_laws`, `specs/WellFormed.antt`).
#![tactic(auto)]

mod graph;
mod laws;
mod live_sets;
mod op;
mod order;
mod state_laws;
mod words;

pub use graph::Graph;
pub use laws::{
    live_step, live_within, never_stuck, one_block, one_outcome, one_state, worked_example,
    worked_unsigned,
};
pub use live_sets::LiveSets;
pub use op::{Bits, Comparison, Op, Order};
pub use state_laws::{
    first_is_state, functions_begin, held_arrays, held_frames, states_are_states, step_keeps_state,
    worked_depths, worked_states,
};
pub use words::Words;
