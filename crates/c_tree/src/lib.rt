//! Source programs and what they mean.
//!
//! In: the parts of a typed program. Out: the program, and readers of its parts, which are public. The only
//! refusal is want of memory. `specs/Program.antt` has the trees without boxes that contracts speak of, and
//! `specs/Erased.antt` which of them a program in memory is. `specs/Evaluation.antt` has the outcome of a
//! number of turns of a program over an input, on the store of `specs/Store.antt` and the operators of
//! `specs/Operators.antt`; `worked_example` reads it on small programs. `specs/WellTyped.antt` has what evaluation and
//! lowering rely on in a typed program.
#![tactic(auto)]

mod expression;
mod laws;
mod program;
mod statement;
mod types;

pub use expression::{ArrayRef, BinaryOp, Expression, Place, StepOp, UnaryOp};
pub use laws::{worked_example, worked_operators, worked_types};
pub use program::{Function, Local, LocalArray, Program, StaticObject};
pub use statement::{First, Initialiser, Item, Label, Statement};
pub use types::{IntegerType, ValueType};
