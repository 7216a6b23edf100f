//! The whole map of a program as a tree, its text, and whether it keeps the rules of a map.
//!
//! In goes the tree of a map (`MapFile`), out comes its text (`print_map`), or whether it is a map (`is_map`).
//! `specs/Views.antt` says which map of `map_text` a tree is.
#![tactic(auto)]

mod distinct;
mod file;
mod laws;
mod names;
mod needs;
mod ops;
mod parts;
mod pieces;
mod points;
mod printing;
mod rules;
mod standings;

pub use file::{MapArray, MapBlock, MapFile, MapFunction, MapName, MapObject, MapPoint, MapVar};
pub use laws::maps_are_numbered;
pub use printing::print_map;
pub use rules::is_map;
