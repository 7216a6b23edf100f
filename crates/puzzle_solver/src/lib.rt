//! Register allocation at one point, by puzzle solving; and boards and placements as texts.
//!
//! In: a board, no piece of which is placed, or the text of one; variables with their distances; hints, which say where
//! pieces are wanted, and of which nothing is promised. Out: whether the board has a legal placement, with every piece
//! placed if so; the variables that are spilled where it has none; the text of a placement. The promise: `solve`, and
//! `solve_near` whatever the hints are, is true with a legal placement and false exactly where there is none, in at
//! most 32 steps an area and 128 more (`specs/Solved.antt`); `fit` and `fit_near` spill the shortest prefix of the
//! order without whose pieces the board is solvable (`specs/Prefixes.antt`); a text is refused exactly where it is no
//! board's (`specs/Texts.antt`). The only other refusal is want of memory.
//!
//! `near` solves a board, and `solving` and `fitting` are it without hints; `near_counts` and `wanted` have what becomes
//! of hints, `board_counts`, `wide_shares` and `place` choose how many pieces of width Two go where and the areas that
//! take them, `order` what is spilled first; `board_text`, `word_reading` and `placement_text` have the texts.
#![tactic(auto)]

mod board_counts;
mod board_text;
mod fitting;
mod kept_bounds;
mod narrow;
mod near;
mod near_counts;
mod order;
mod place;
mod placement_text;
mod solving;
mod text_laws;
mod wanted;
mod wide_places;
mod wide_shares;
mod word_reading;
mod words;

pub use board_counts::{AreaCounts, PieceCounts};
pub use board_text::{BoardRefusal, read_board};
pub use fitting::fit;
pub use kept_bounds::{areas_of, is_bounded, pieces_of};
pub use near::{fit_near, solve_near};
pub use order::{Candidate, spill_order};
pub use placement_text::print_placement;
pub use solving::solve;
pub use text_laws::one_board;
