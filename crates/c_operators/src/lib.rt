//! What operators give of numbers, and the types that they work in (C99 6.5.3 to 6.5.12).
//!
//! In: an operator, the type that it works in, and its operands, numbers of 32 bits. Out: the number that the source meaning gives
//! (`specs/Operators.antt` of `c_tree`), or its trap. Nothing is allocated.
#![tactic(auto)]

mod numbers;
mod types;

pub use numbers::{binary_number, convert, is_true, unary_number};
pub use types::{
    Operator, common, is_signed, numbers_result, numbers_type, promoted, unary_type, working_type,
};
