use crate::declaration::{Declaration, Declarator};
use crate::expression::Specifier;
use crate::statement::Statement;

/// An external declaration (C99 6.9).
#[derive(Drop)]
pub enum External {
    /// `specifiers pointer? ident '(' parameters? ')' block`: the declarator is a function's, and the body
    /// a block.
    Function {
        specifiers: Vec<Specifier>,
        declarator: Declarator,
        body: Statement,
    },
    Declaration(Declaration),
}

/// The raw tree of one file: `unit : external*`.
#[derive(Drop)]
pub struct RawUnit {
    pub externals: Vec<External>,
}
