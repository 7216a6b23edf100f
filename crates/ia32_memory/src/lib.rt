//! The memory of the machine: areas of bytes, each at an address and with what may be done there.
//!
//! In go the segments of an image, out comes a memory; loads, stores and fetches then answer exactly as
//! the flat memory of `specs/State.antt` of `ia32_insn` does. All memory is taken when the segments are
//! loaded. `Cells` are the bytes of an area, of which the first and the last ones are kept.
#![tactic(auto)]

mod area;
mod cells;
mod memory;

pub use cells::Cells;
pub use memory::Memory;
