//! Declarations: what they declare, with its initialisers, or the least of their faults (C99 6.7).
//!
//! In: a raw declaration or its parts, and what is known at their place. Out: the types that its specifiers and
//! declarators give, and the declared items with the typed trees of their initialisers, or the fault that is answered;
//! the names that they declare are seen behind them. The promise: what is answered is exactly what `c_typing` has of
//! the part (`specs/DeclaratorAnswers.antt`, `specs/ItemAnswers.antt`), and so are the notes. The only refusal is want
//! of memory.
//!
//! `specifiers`, `sizes`, `objects` and `parameter_lists` judge what declares, `initial_value` and `initial_values` the
//! values of an initialiser, and `initialisers`, `items` and `stored` put them together.
#![tactic(auto)]

mod answers;
mod forms;
mod initial_value;
mod initial_values;
mod initialisers;
mod items;
mod objects;
mod parameter_lists;
mod sizes;
mod specifiers;
mod stored;

pub use answers::{also, behind, maybe_behind};
pub use initialisers::scalar_values;
pub use items::declaration;
pub use objects::{ObjectType, bind_object, object_allowed, type_fault};
pub use parameter_lists::{parameters, parameters_apart};
pub use sizes::object_declared;
pub use specifiers::{Position, Specified, specifiers_at};
pub use stored::stored_object;
