//! The items of each op, by where its operands and its result stand.
//!
//! In: the places of an op's operands and result, and the items so far. Out: these items with those of the op's row
//! behind them. The promise: the items are those that the definitions name (`specs/Rows.antt`, `specs/Computing.antt`,
//! `specs/Accesses.antt` and `specs/Passing.antt` of `ia32_rows`). The only refusal is want of memory.
//!
//! `locations`, `moves` and `instructions` have what all rows are made of, `compared_words` and `comparisons`
//! comparisons, `operations`, `products`, `shifts` and `divisions` what is computed, `checks`, `loads`, `stores` and
//! `storing` accesses, `argument_words`, `calls` and `returns` calls, and `prologues` a function's first items.
#![tactic(auto)]

mod argument_words;
mod calls;
mod checks;
mod compared_words;
mod comparisons;
mod divisions;
mod instructions;
mod loads;
mod locations;
mod moves;
mod operations;
mod products;
mod prologues;
mod returns;
mod shifts;
mod stores;
mod storing;

pub use argument_words::{emit_exit, emit_getchar, emit_param, emit_putchar};
pub use calls::emit_call;
pub use compared_words::{emit_jump, emit_same};
pub use comparisons::{cond_of, cond_of_order, emit_branch, emit_set};
pub use instructions::{emit, emit_insns, emit_three, emit_two};
pub use loads::{emit_get, emit_load};
pub use locations::{Location, at_offset, at_register};
pub use moves::{emit_copy, emit_number};
pub use operations::{emit_commuting, emit_operation, emit_sum};
pub use products::{emit_complement, emit_half, emit_low, emit_negation, emit_product};
pub use prologues::emit_prologue;
pub use returns::{emit_leave, emit_return};
pub use shifts::{emit_division, emit_shift, emit_unsigned_division, emit_wide, emit_zero};
pub use stores::emit_store;
pub use storing::{emit_frame_array, emit_put, emit_static};
