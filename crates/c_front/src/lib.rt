//! The typed program of source files.
//!
//! In: the texts of at most 16 files, in their order. Out: their one typed program, or why they have none, and where.
//! The promise: `typed_program` gives exactly the program of `specs/Answers.antt`, through tokens, raw trees and
//! typing, or the first fault that the texts have, or the limit that they are above, that on frames with the function's
//! name; texts have one such answer (`one_answer`). The only other refusal is want of memory.
//!
//! `lexed` has the tokens of each file, `parsed` its raw tree (`specs/Accepted.antt`), refused only for the reasons of
//! `specs/Refusals.antt`; `typed` puts all together, and `names` tells the functions that files define. `unit_laws` and
//! `answer_laws` have laws alone.
#![tactic(auto)]

mod answer_laws;
mod lexed;
mod names;
mod parsed;
mod refused;
mod typed;
mod unit_laws;

pub use answer_laws::one_answer;
pub use lexed::Lexed;
pub use names::name_of;
pub use refused::Refused;
pub use typed::typed_program;
pub use unit_laws::units_have_names;
