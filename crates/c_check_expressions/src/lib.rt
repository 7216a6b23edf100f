//! The typed tree of an expression where names are seen, or the least of its faults (C99 6.5).
//!
//! In: a raw expression, and what is known at its place. Out: its typed tree with what it is as an integer constant, or
//! the fault that is answered; what a tree that fits says beside (`Note`) is put behind a list. The promise: what is
//! answered is exactly what `c_typing` has of the expression, and so are the notes (`IsSaid` of `specs/Said.antt`). The
//! only refusal is want of memory.
//!
//! `walk` judges each part once, `nodes` and `operators` put judged parts together, and `named`, `calls`, `texts` and
//! `type_names` have names, calls, strings and casts. The rows of typing stand in `prefix`, `one_operand`,
//! `two_operands`, `choice` and `lvalues`, and those of constants (C99 6.6) in `constant`.
#![tactic(auto)]

mod arguments;
mod callees;
mod calls;
mod choice;
mod constant;
mod fault_order;
mod judged;
mod least_faults;
mod lvalues;
mod named;
mod nodes;
mod notes;
mod one_operand;
mod operators;
mod places;
mod prefix;
mod result_types;
pub mod texts;
mod two_operands;
pub mod type_names;
mod walk;
mod whole;

pub use constant::Constant;
pub use fault_order::earlier;
pub use judged::{Judged, Operand};
pub use least_faults::both;
pub use lvalues::{address, dereferenced, place_named};
pub use notes::{Contents, Note, Notes, Stored};
pub use one_operand::{assigned, negated, on_number, selected, tested};
pub use places::{first_piece, first_token};
pub use whole::{expression, expression_if_any, expressions};
