//! Assembling: in go the items of one function, out comes its section: bytes, where labels and points
//! stand, and where the addresses of a program are awaited.
//!
//! Wherever the section stands, and whatever addresses its targets have, its bytes with the words for
//! them are a text of the items (`specs/Sections.antt`, `IsSection`). `specs/Pieces.antt` has inner words only.
//!
//! `encode` is the encoder. In goes an instruction that has a spelling, out come its bytes: those of the preferred
//! spelling of `specs/Preferred.antt` of `ia32_insn`, which is a spelling by `specs/Spelling.antt`. No memory is taken.
//! How many they are is known without them (`lengths`), so that labels get their offsets before anything is spelled, and
//! each instruction is spelled once.
#![tactic(auto)]

mod assembly;
mod fields;
mod lengths;
mod numbers;
mod offsets;
mod opcode_bytes;
mod piece;
mod section;
mod spelling;

pub use assembly::assemble;
pub use section::{Relocation, Section, Symbol, Target};
pub use spelling::encode;
