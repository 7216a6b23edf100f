//! Reading instructions: in go bytes, out comes the instruction whose spelling begins them.
//!
//! In: bytes. Out: the instruction whose spelling begins them, and how many bytes that has. The promise: it is found
//! exactly where there is one, by the definition of spelling of `ia32_insn`. Nothing is allocated.
//!
//! The opcode says what follows it (`one_byte`, `two_byte`), the fields are read (`operand_fields`, `memory_fields`,
//! `moves`, as `specs/Reading.antt` of `ia32_insn` has it), and the opcode makes an instruction of them (`opcodes`),
//! with registers, conditions and operations by their numbers (`register_numbers`, `condition_numbers`).
#![tactic(auto)]

mod condition_numbers;
mod decoding;
mod memory_fields;
mod moves;
mod one_byte;
mod opcodes;
mod operand_fields;
mod register_numbers;
mod two_byte;

pub use decoding::decode;
