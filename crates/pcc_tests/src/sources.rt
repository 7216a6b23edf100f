//! Tests of what is done with sources: in go small programs, out comes that each does what stands in its row. They
//! promise nothing: they try what is defined against rows written by hand, and against `gcc`.
//!
//! `tokens`, `trees`, `types` and `answers` test the public calls of `c_lex`, `c_front`, `c_tree` and `c_check`,
//! `values` the values of sums, `stores` those of `c_eval_state`, and `outcomes` that graphs of `lower` do what the source
//! does, by a plain interpreter of graphs (`machine`) that shares no code with `lower`. A row (`rows`) is a program,
//! with a `$` between two files and an `@` before the token at which the fault stands.

mod answers;
mod arrays;
mod calls;
mod code;
mod declarations;
mod expressions;
mod lowered;
mod machine;
mod numbers;
mod ops;
mod outcomes;
mod programs;
mod rows;
mod statements;
mod stores;
mod texts;
mod tokens;
mod tree_texts;
mod trees;
mod typed;
mod types;
mod values;
