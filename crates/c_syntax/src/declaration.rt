use crate::expression::{Expression, Identifier, Pointer, Specifier};
use pcc_base::Span;

/// `'[' conditional? ']'`
#[derive(Drop)]
pub struct ArrayPart {
    pub opening: Span,
    pub size: Option<Box<Expression>>,
    pub close: Span,
}

/// `parameter : specifiers pointer? ident? ('[' conditional? ']')?`
#[derive(Drop)]
pub struct Parameter {
    pub specifiers: Vec<Specifier>,
    pub pointer: Option<Pointer>,
    pub name: Option<Identifier>,
    pub array: Option<ArrayPart>,
}

/// `'(' parameters? ')'`, and the commas between the parameters
#[derive(Drop)]
pub struct ParametersPart {
    pub opening: Span,
    pub parameters: Vec<Parameter>,
    pub commas: Vec<Span>,
    pub close: Span,
}

/// What stands behind the name of a declarator.
#[derive(Drop)]
pub enum DeclaratorPart {
    Plain,
    Array(ArrayPart),
    Function(ParametersPart),
}

/// `declarator : pointer? ident ('[' conditional? ']' | '(' parameters? ')')?`
#[derive(Drop)]
pub struct Declarator {
    pub pointer: Option<Pointer>,
    pub name: Identifier,
    pub part: DeclaratorPart,
}

/// `initialiser : assignment | '{' assignment (',' assignment)* ','? '}'`: of a list the commas between the
/// values, and the one behind the last value.
#[derive(Drop)]
pub enum Initialiser {
    Single(Box<Expression>),
    List {
        opening: Span,
        values: Vec<Expression>,
        commas: Vec<Span>,
        trailing: Option<Span>,
        close: Span,
    },
}

/// `'=' initialiser`
#[derive(Drop)]
pub struct InitialiserPart {
    pub equal: Span,
    pub value: Initialiser,
}

/// `item : declarator ('=' initialiser)?`
#[derive(Drop)]
pub struct Item {
    pub declarator: Declarator,
    pub initialiser: Option<InitialiserPart>,
}

/// `declaration : specifiers item (',' item)* ';'` (C99 6.7)
#[derive(Drop)]
pub struct Declaration {
    pub specifiers: Vec<Specifier>,
    pub items: Vec<Item>,
    pub commas: Vec<Span>,
    pub semicolon: Span,
}
