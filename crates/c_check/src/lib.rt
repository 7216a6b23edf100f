//! The typed program of raw trees, or why there is none (C99 6.2 to 6.9).
//!
//! In: the raw trees of files, and where the last one ends. Out: their one typed program, the least fault of kinds 8 to
//! 19 at its place, or the limit on static objects or frames that the program is above. The promise: `check` answers as
//! `specs/Typed.antt` of `c_typing` defines it; files have one such answer (`one_answer`). No element is built before
//! the program is known to be within the limits. The only other refusal is want of memory.
//!
//! `units` goes over files, with `definitions`, `functions`, `outside_items` and `outside_objects`. Files are judged
//! where nothing has a number (`planned`), and then with the numbers that `numbers` gives (`finished`); `first_values`
//! has what objects hold at first, `missing` what no file defines, and `limits` with the heights of trees what a
//! program may take.
#![tactic(auto)]

mod copies;
mod definitions;
mod expression_heights;
mod first_values;
mod frame_sizes;
mod functions;
mod item_heights;
mod known;
mod laws;
mod limits;
mod missing;
mod numbering_laws;
mod numbers;
mod outers;
mod outlines;
mod outside_items;
mod outside_objects;
mod programs;
mod statement_heights;
mod tables;
mod units;
mod whole_program;

pub use expression_heights::{Height, expression, higher, on_one};
pub use first_values::{Described, arrays_bytes, built};
pub use functions::{declare_function, function_signature};
pub use item_heights::item;
pub use known::{Known, defined};
pub use laws::one_answer;
pub use missing::has_main;
pub use numbering_laws::functions_are_defined_once;
pub use numbers::numbered;
pub use outlines::{Outline, Plan, planned};
pub use programs::finished;
pub use whole_program::check;
