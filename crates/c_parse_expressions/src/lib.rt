//! Expressions, and the cursor that all parsers have.
//!
//! In: tokens, and how high a tree may be. Out: the tree of the longest expression at their front, or the place where
//! no expression goes on. The promise: what is read is what the reader of the rule in `c_grammar` finds
//! (`specs/ExpressionReadings.antt`), to the height that is left, and a fault stands where that reader fails, and is as
//! deep. The only other refusal is want of memory.
//!
//! `Cursor` takes one token or a row of them from the front, and `Height` says how high a tree may be. `expression` and
//! `primary` have the rules, `nodes`, `build` and `found` the nodes that are put together.
#![tactic(auto)]

mod build;
mod casts;
mod cursor;
mod expression;
mod found;
mod height;
mod kinds;
mod nodes;
mod parse_error;
mod primary;
mod repeated_tokens;
mod token_operators;
mod turn;

pub use build::{found_of, one_more, one_value};
pub use cursor::Cursor;
pub use expression::{Rule, tree_of};
pub use found::{Found, Values};
pub use height::Height;
pub use kinds::{is_mark, specifier_of};
pub use parse_error::ParseError;
pub use repeated_tokens::push;
pub use token_operators::begins_expression;
pub use turn::ValuesTurn;
