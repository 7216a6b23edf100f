//! The raw tree of a file.
//!
//! In: the tokens of one file. Out: its raw tree of height at most 256, or why there is none, and where. The promise:
//! `parse` gives exactly the tree that `Tree` of the grammar has, and refuses exactly where there is none, at the exact
//! place (`specs/ParserRefusals.antt`). The only other refusal is want of memory.
//!
//! `declarators`, `initialisers` and `declarations` have the rules of declarations, `jumps`, `labels` and `statements`
//! those of statements, `externals` and `parser` a file. Each function reads what the reader of its rule in `c_grammar`
//! reads, and fails where that reader fails; a node of height 1 has no node below it, so calls are nested at most 256
//! deep.
#![tactic(auto)]

mod declarations;
mod declarators;
mod externals;
mod initialisers;
mod jumps;
mod keywords;
mod labels;
mod lists;
mod nodes;
mod optional_parts;
mod parser;
mod statement_parts;
mod statements;

pub use parser::parse;
pub use statements::statement;
