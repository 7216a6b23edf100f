//! Statements of a function's body: their typed trees, or the least of their faults (C99 6.8).
//!
//! In: the raw statements of a body, what is known before them, and what the function returns. Out: the typed
//! statements, or the fault that is answered; what statements that fit say beside is put behind a list. The promise:
//! what is answered is exactly what `typed_statements` of `c_typing` has (`specs/Answers.antt`), and so are the notes;
//! names are seen in their scopes, and statements and items take their numbers in the order of the text. The only
//! refusal is want of memory.
//!
//! `walk` judges each statement once; `conditions`, `jumps`, `heads` and `parts` judge its parts, `label` and `labels`
//! the labels of a switch, and `nodes` has one function for each kind of statement of judged parts.
#![tactic(auto)]

mod around;
mod conditions;
mod heads;
mod jumps;
mod label;
mod labels;
mod nodes;
mod parts;
mod walk;
mod whole;

pub use heads::{DoHead, ForHead, SwitchHead, TestHead, for_head, switch_head};
pub use jumps::evaluated;
pub use label::one_label;
pub use nodes::{Branch, block, do_loop, for_loop, if_else, switch, while_loop};
pub use parts::{declared, joined};
pub use whole::body;
