//! Raw trees: what a source file is by the grammar alone, before names and types are looked at; and the grammar.
//!
//! `RawUnit` is the raw tree of one file. It has one kind of node for each rule of the grammar that makes
//! one; a node holds its parts, and the place of each of its own tokens.
//!
//! The definitions, in `specs/`, say which raw trees a list of tokens has: trees without boxes, the tokens of a tree,
//! its height, and which trees the rules make (C99 6.5 to 6.9); `Tree` of `Grammar.antt` joins them. A list of tokens
//! has one raw tree at most (`one_raw_tree` of `c_grammar`).
#![tactic(auto)]

mod declaration;
mod expression;
mod operator;
mod statement;
mod unit;

pub use declaration::{
    ArrayPart, Declaration, Declarator, DeclaratorPart, Initialiser, InitialiserPart, Item,
    Parameter, ParametersPart,
};
pub use expression::{CallParts, Expression, Identifier, Pointer, Specifier, TextPiece, TypeName};
pub use operator::{AssignOp, BinaryOp, SpecifierWord, StepOp, UnaryOp};
pub use statement::{
    DoParts, ForDeclarationParts, ForParts, IfElseParts, Label, Statement, SwitchParts,
};
pub use unit::{External, RawUnit};
