//! The instructions and the registers of the machine and what they mean, for this compiler's part of IA-32.
//!
//! In: a register and a number, of the code. Out: the number that a register has. The promise: contracts see the
//! registers as 32 bytes, four for each, the lowest first (`specs/Registers.antt`); setting one changes its bytes and
//! no others.
//!
//! The rest is types and definitions: a state of the machine (`specs/State.antt`), how instructions are spelled in
//! bytes (`specs/Spelling.antt`), what one does (`specs/Arithmetic.antt`, `specs/Meaning.antt`), a step and a run of
//! steps (`specs/Runs.antt`), texts of items (`specs/Items.antt`), and where a variable stands (`specs/Places.antt`).
//! `specs/Reading.antt` has spelling as a map of the opcodes, which a decoder follows: it is no further thing to
//! believe, since `proofs/Spelling.antt` proves that the two agree.
#![tactic(auto)]

mod flags;
mod insn;
mod item;
mod laws;
mod operand;
mod register_file;
mod register_laws;
mod register_names;
mod step_laws;

pub use flags::Flags;
pub use insn::{AluOp, Cond, Insn, ShiftOp};
pub use item::{Item, Stub};
pub use laws::{one_outcome, one_spelling, one_step};
pub use operand::{Mem, Rm8, Rm32};
pub use register_file::RegFile;
pub use register_laws::areas_are_named;
pub use register_names::{Reg8, Reg32};
pub use step_laws::{instruction_keeps, load_after_store, store_keeps, worked_steps};
