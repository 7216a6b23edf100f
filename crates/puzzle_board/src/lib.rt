//! In: areas and pieces. Out: a board on which pieces are placed, found and counted by kind, and a map of where
//! variables are before and after each point. The promise: each call changes exactly what it names, and the placed
//! pieces always stand legally (`specs/Placements.antt`).
//!
//! A puzzle that has a legal placement keeps eleven bounds on its areas and pieces, counted by kind
//! (`specs/Bounds.antt`).
#![tactic(auto)]

mod area;
mod board;
mod bounds;
mod by_kind;
mod filing;
mod laws;
mod piece;
mod place;
mod point_map;
mod side;
mod waiting;

pub use area::{Area, AreaKind, Column};
pub use board::Board;
pub use bounds::solvable_is_bounded;
pub use laws::worked_example;
pub use piece::{Columns, Kind, Piece, Spot, State};
pub use place::Place;
pub use point_map::PointMap;
