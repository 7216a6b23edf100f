//! The map of a program, and what it is worth.
//!
//! In: a typed program, what is live in the graphs of its functions and where their variables stand (`Home`), and the
//! addresses of points and static objects. Out: the text of the program's map (`specs/MapOf.antt`): every point with its
//! op, its board, where variables stand before it and after it, and those that are spilled there. The only refusal is
//! want of memory.
//!
//! By `map_laws` this map is that of the program and of its code, keeps the rules of a map, lists locals, and shows of the
//! machine what the program's graphs show at their marks; `visits_laws` has what it finds of frames and arrays.
#![tactic(auto)]

mod home;
mod map_laws;
mod printed;
mod printed_heads;
mod printed_points;
mod visits_laws;

pub use home::Home;
pub use map_laws::{
    map_belongs, map_by_same_addresses, map_keeps_rules, map_lists_locals, map_shows_visits,
};
pub use printed::print_map;
pub use visits_laws::{arrays_are_found, frames_are_found};
