//! Laws of the evaluation of source programs (`specs/Evaluation.antt` of `c_tree`). No code.
//!
//! What it keeps, and that the bounds of calls and loops are never met before the turns are used
//! (`specs/Laws.antt`). Evaluation as a machine of tasks: what is left to do of a program is tasks, values, found
//! places and the state, and no step changes the outcome that comes of it (`specs/Tasks.antt`, `specs/Steps.antt`,
//! `specs/TasksLaws.antt`).
#![tactic(auto)]

mod laws;
mod tasks;

pub use laws::{
    call_bounds_agree, calls_extend, calls_keep, calls_unfold, ends_stay, goes_without_turns,
    loop_bounds_agree, loops_keep, loops_unfold, outcomes_go_on, taken_is_there, trees_agree,
    trees_extend, trees_keep, worked_example,
};
pub use tasks::{
    arguments_are_last, calls_step, expressions_step, is_served, items_step, many_steps_keep,
    places_step, rest_goes_on, stacks_stay_fit, start_and_end, start_fits, statements_step,
    steps_come_to, steps_keep, tasks_step, weights_fall, worked_tasks,
};
