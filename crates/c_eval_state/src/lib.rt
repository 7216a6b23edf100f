//! What is left to do of a program while it is evaluated, and what it holds, without a call of the evaluator for a call
//! of the program.
//!
//! In: what is left to do (`Evaluation`), and a task, value or place that comes or goes. Out: what is left then, as
//! `specs/Changes.antt` says in the words of the steps of `c_eval_laws`. In: the calls of an evaluator, from the start
//! of a program on. Out: static objects, and the locals and arrays of active calls (`Store`), as `specs/Store.antt` of
//! `c_tree` has them (`specs/Kept.antt`). `streams` has the steps of `getchar` and `putchar`. The only refusal is want
//! of memory.
#![tactic(auto)]

mod arrays;
mod calls;
mod end;
mod evaluation;
mod operators;
mod store;
pub mod streams;
mod task;
mod value;

pub use end::EvalEnd;
pub use evaluation::Evaluation;
pub use store::Store;
pub use task::{StatementPart, Task, Way};
pub use value::{ArrayName, Place, Value};
