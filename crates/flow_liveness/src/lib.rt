//! Which variables of a graph are live at each of its points, and how far the next use of each is.
//!
//! In: the graph of a function. Out: which variables are live before and after each point (`live`), or how far the next
//! use of each is (`next_use`). The promise: both are what `specs/Liveness.antt` and `specs/Lives.antt` of `flow_graph`
//! say of the graph, in the time of points, edges, and pairs of a point and a variable that has a distance there. The
//! only refusal is want of memory.
//!
//! `search` goes back from the uses of each variable, with what `search_back` has found, `marks` and `predecessors`.
//! `specs/Names.antt` and `specs/Forms.antt` define the elementary form of a graph, in which each variable has a fresh
//! name before and after each point, and `form_laws` has its laws; `allocator` makes the form.
#![tactic(auto)]

mod block_uses;
mod distances;
mod form_laws;
mod lists;
mod live_sets;
mod marks;
mod predecessors;
mod search;
mod search_back;
mod uses;
mod ways;

pub use block_uses::add_block;
pub use distances::{Distances, next_use};
pub use form_laws::{form_keeps_meaning, names_are_fresh, worked_example};
pub use lists::Lists;
pub use live_sets::live;
pub use marks::Marks;
pub use search_back::Search;
