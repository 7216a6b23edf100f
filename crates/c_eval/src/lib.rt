//! The evaluation of typed programs from their start to their end.
//!
//! In: a typed program, an input and an output that are lent, and a number of turns. Out: how the program ended, with
//! the bytes that it writes on the output. The promise: `eval` answers what the source meaning says of so many turns
//! (`specs/Runs.antt`): the exit status, the trap, or that the program still goes; it takes exactly the bytes that the
//! program takes. The only refusal is want of memory.
//!
//! `run` has the loops over steps and turns. `steps` does one step, by a function of `expressions`, `values` and
//! `stores` or of `statements`, `items` and `calls` for each task, and each does what the step of `c_eval_laws` for its
//! task does; `at_once` finds small expressions by recursion, and `turns` begins a turn.
#![tactic(auto)]

mod ahead;
mod at_once;
mod calls;
mod evaluate;
mod expressions;
mod items;
mod locals;
mod logical;
mod next;
mod operators;
mod passing;
mod run;
mod statements;
mod step;
mod steps;
mod stores;
mod turns;
mod values;

pub use evaluate::eval;
pub use locals::declare_local;
pub use next::Next;
