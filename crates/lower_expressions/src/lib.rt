//! Lines of expressions, and of what is done with their values.
//!
//! In: a builder of lines, a function of a program with the variables of its locals, and a typed expression, with what
//! is wanted of it. Out: the lines that `lower_lines` has for it (`specs/Expressions.antt` there), behind those that
//! are there. The promise: exactly these lines are added, from the first block that isn't taken, and exactly their
//! blocks are taken. The only refusal is want of memory; a number above 32 bits counts as it.
//!
//! `walk` puts the lines of each part behind those before it. `leaves` has numbers, names and strings, `operands`,
//! `names` and `places` what is done with operands and places that were found, `ways` conditions, `calls` and
//! `parameters` calls, `kinds` what is known of an expression before its lines are; `items` fills locals and arrays,
//! and `ends` has where control goes behind a statement.
#![tactic(auto)]

mod after;
mod ahead;
mod arguments;
mod calls;
mod ends;
mod found;
mod items;
mod kinds;
mod leaves;
mod names;
mod operands;
mod parameters;
mod places;
mod walk;
mod ways;

pub use after::{After, Exits};
pub use ahead::Ahead;
pub use ends::{go_onward, leave, start_dead, start_exit, take_dead, take_exit};
pub use items::{clear_array, copy_text, reads_none, store_element, zero};
pub use leaves::object_type;
pub use operands::{converted, element_sum, loaded};
pub use parameters::take_parameters;
pub use walk::{assign_local, emit, returned, stood, typed};
