//! What names mean where they are seen, and linkage (C99 6.2.1 to 6.2.4).
//!
//! In: declarations, in the order of the text, and names as they go out of scope. Out: what a name means at the place
//! that was come to, what a declaration names, and whether it goes against an earlier one of the same thing. The
//! promise: `Scopes` is seen as the `Scope` of `c_typing`, `Names` as its bindings, the innermost first; each call does
//! to them exactly what a function of `specs/Names.antt` there does, in constant time, taken over all calls. The only
//! refusal is want of memory.
//!
//! `scopes` has all that is known at a place, of which `names` has the bindings, `outers` what is declared outside
//! functions, `numbers` the numbers of objects and functions, and `library` the library's functions; `linkage`, `same`
//! and `sums` tell what is the same thing, and what is known of all its declarations.
#![tactic(auto)]

mod entity;
mod library;
mod linkage;
mod meaning;
mod names;
mod numbers;
mod outers;
mod same;
mod scopes;
mod sums;

pub use entity::{Entity, LibraryFunction};
pub use meaning::{Declared, Meaning, Outer, Signature, Storage};
pub use names::Entry;
pub use numbers::{Numbers, number};
pub use same::same_entity;
pub use scopes::{Mark, Scopes};
