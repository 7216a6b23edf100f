//! In: a board, no piece of which is placed and each variable of which has one piece. Out: the fewest variables
//! without whose pieces the board is solvable, with every other piece placed. The promise: no fewer variables would do
//! (`specs/Least.antt`). The only refusal is want of memory.
#![tactic(auto)]

mod fewest;
mod most;
mod removing;

pub use fewest::least;
