//! Copies between places that are made all at once, as straight instructions.
//!
//! In: moves, each from a place to another, and the word of the frame that is free for scratch. Out: at most 20
//! instructions. The promise: where a function's frame has the slots, each place that a move leads to then has what the
//! place that it comes from had before, and nothing else has changed but ESI, EDI and that word (`specs/Copies.antt`).
//! No memory is taken.
//!
//! `moves` has the moves, `legal` whether they can be made at once, `overlap` which places have a byte in common,
//! `choice` which step comes next, and `steps` makes it.
#![tactic(auto)]

mod choice;
mod copies;
mod legal;
mod moves;
mod overlap;
mod steps;

pub use copies::{is_busy, repair};
pub use legal::can_repair;
pub use moves::Move;
