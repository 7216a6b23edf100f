//! What every crate of the compiler speaks of: want of memory, traps, wrapping, places in a source,
//! faults, limits, refusals, values on the heap, and how a run of a program or an image comes out.
//!
//! `specs/Outcome.antt` has the outcome of a run, one type for the source, the graph and the machine,
//! and `specs/Wrapping.antt` what a number is in 8, 16 or 32 bits.
#![tactic(auto)]

mod fault;
mod heap;
mod keyword;
mod memory;
mod name;
mod object;
mod refusal;
mod run;
mod span;
mod steps;
mod wrapping;

pub use fault::{Fault, FaultKind};
pub use heap::boxed;
pub use keyword::Keyword;
pub use memory::NoMemory;
pub use name::Name;
pub use object::DataObject;
pub use refusal::{Limit, Refusal};
pub use run::{Stop, Trap, Width};
pub use span::Span;
pub use steps::Steps;
pub use wrapping::{wrap8, wrap16, wrap32, wrapped_once};
