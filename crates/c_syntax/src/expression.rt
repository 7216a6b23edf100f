use crate::operator::{AssignOp, BinaryOp, SpecifierWord, StepOp, UnaryOp};
use pcc_base::{Name, Span};

/// An identifier, and where it stands.
#[derive(Drop)]
pub struct Identifier {
    pub name: Name,
    pub at: Span,
}

/// A specifier, and where it stands.
#[derive(Clone, Copy)]
pub struct Specifier {
    pub word: SpecifierWord,
    pub at: Span,
}

/// `pointer : '*' 'const'*`
#[derive(Drop)]
pub struct Pointer {
    pub star: Span,
    pub consts: Vec<Span>,
}

/// One of the string literals that stand one after the other.
#[derive(Drop)]
pub struct TextPiece {
    pub bytes: Name,
    pub at: Span,
}

/// What a call has beside its arguments: the function, and the commas between the arguments.
#[derive(Drop)]
pub struct CallParts {
    pub function: Identifier,
    pub opening: Span,
    pub commas: Vec<Span>,
    pub close: Span,
}

/// The type name of a cast: `'(' specifiers pointer? ')'` (C99 6.7.6)
#[derive(Drop)]
pub struct TypeName {
    pub opening: Span,
    pub specifiers: Vec<Specifier>,
    pub pointer: Option<Pointer>,
    pub close: Span,
}

/// An expression (C99 6.5). The parts of its largest nodes are in boxes, so that the others take less room.
#[derive(Drop)]
pub enum Expression {
    /// `ident`
    Identifier(Identifier),
    /// `number`
    Number(i32, Span),
    /// `text+`
    Text(Vec<TextPiece>),
    /// `'(' expression ')'`
    Parenthesised(Span, Box<Expression>, Span),
    /// `ident '(' (assignment (',' assignment)*)? ')'`, and the arguments
    Call(Box<CallParts>, Vec<Expression>),
    /// `postfix '[' expression ']'`
    Index(Box<Expression>, Span, Box<Expression>, Span),
    /// `postfix '++'`, `postfix '--'`
    Postfix(Box<Expression>, StepOp, Span),
    /// `'++' unary`, `'--' unary`
    Prefix(StepOp, Span, Box<Expression>),
    /// `('&' | '*' | '+' | '-' | '~' | '!') cast`
    Unary(UnaryOp, Span, Box<Expression>),
    /// `'(' specifiers pointer? ')' cast`
    Cast(Box<TypeName>, Box<Expression>),
    /// an operator of one of the levels of `binary`, or a comma of `expression`
    Binary(BinaryOp, Box<Expression>, Span, Box<Expression>),
    /// `binary '?' expression ':' conditional`: its expressions, and then its tokens, which leaves no room unused
    Conditional {
        condition: Box<Expression>,
        first: Box<Expression>,
        second: Box<Expression>,
        question: Span,
        colon: Span,
    },
    /// `unary assign-op assignment`
    Assignment(AssignOp, Box<Expression>, Span, Box<Expression>),
}
