//! Lists of nodes by their numbers, each node in at most one list and linked both ways there, so that none is searched
//! for.
//!
//! In: calls that put a node into a list or take it out. Out: readers of the same. `specs/Lists.antt` has what a
//! contract sees of index lists and what each call leaves; `specs/Links.antt` how the links stand for the lists, both
//! ways. Each call changes exactly the list that has the node, and each call that moves or asks takes one step.
#![tactic(auto)]

mod link;
mod lists;

pub use lists::IndexLists;
