//! The machine that runs images: this compiler's part of IA-32, with the system calls of Linux on i386.
//!
//! In: the segments of an image, an input and a place for output. Out: how the run ended. The promise: a run of some
//! number of steps has exactly the outcome that the definition of a step gives (`specs/Runs.antt` of `ia32_insn`), from
//! the first state of the image (`specs/First.antt`). The only refusal is want of memory.
//!
//! `machine` has the run, `system_calls` the input and the output. `processor` has registers, flags, EIP and memory,
//! `effects` and `instructions` what one instruction does to them, exactly as `specs/Meaning.antt` of `ia32_insn` says;
//! `operations`, `words`, `whole_words` and `division` what it computes. `decoded` keeps decoded instructions, since no
//! instruction changes code that may not be written (`code_laws`).
#![tactic(auto)]

mod changes;
mod code_laws;
mod conditions;
mod decoded;
mod division;
mod effects;
mod ends;
mod halt;
mod instruction;
mod instructions;
mod laws;
mod machine;
mod operands;
mod operations;
mod processor;
mod system_calls;
mod whole_words;
mod words;

pub use code_laws::{instruction_keeps_code, store_keeps_code};
pub use conditions::holds;
pub use division::{divide, divide_signed};
pub use ends::{MachineEnd, StepEnd};
pub use laws::one_first;
pub use machine::Machine;
pub use operands::low16;
pub use operations::alu;
pub use whole_words::{complement, negation, product, sign_extend8, sign_extend16, sign_word};
pub use words::{shift, with_low16};
