//! Register allocation of a graph: where each variable stands before and after each point, by a puzzle at each point.
//!
//! In: the elementary form of a graph, which `split` makes, and its distances. Out: a map that says where each variable
//! stands before and after each point, with the slots of spilled variables and the bytes of the frame. The promise: the
//! map is legal, and at each point the shortest prefix of the spill order is spilled (`specs/Allocations.antt`); areas
//! and pieces of a point's board are those of the definitions (`specs/PointPuzzles.antt`). The only refusal is want of
//! memory.
//!
//! `elementary` makes the form. `point_board`, `point_pieces`, `variable_pieces`, `registers` and `fixed` have the
//! board of a point, `solution` solves it, `stood` says where pieces are wanted, `candidates` tells what may be spilled,
//! `spots` and `piece_places` where pieces stand, and `slot_offsets` and `given_slots` have slots.
#![tactic(auto)]

mod allocation;
mod board_laws;
mod candidates;
mod elementary;
mod fixed;
mod frame;
mod given_board;
mod given_slots;
mod piece_places;
mod point_board;
mod point_numbers;
mod point_pieces;
mod registers;
mod slot_offsets;
mod solution;
mod spots;
mod stood;
mod variable_pieces;
mod variables;
mod worked_laws;

pub use allocation::allocate;
pub use board_laws::{worked_boards, worked_maps};
pub use elementary::{Elementary, split};
pub use point_board::board_of;
pub use point_pieces::pieces_of;
pub use registers::areas_of;
pub use solution::Solution;
pub use worked_laws::worked_example;
