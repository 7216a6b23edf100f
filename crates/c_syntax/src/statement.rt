use crate::declaration::Declaration;
use crate::expression::Expression;
use pcc_base::Span;

/// `label : 'case' conditional ':' | 'default' ':'` (C99 6.8.1)
#[derive(Drop)]
pub enum Label {
    Case(Span, Box<Expression>, Span),
    Default(Span, Span),
}

/// What an `if` with an `else` has beside its statements.
#[derive(Drop)]
pub struct IfElseParts {
    pub at: Span,
    pub opening: Span,
    pub condition: Box<Expression>,
    pub close: Span,
    pub otherwise: Span,
}

/// What a `do` has beside its body.
#[derive(Drop)]
pub struct DoParts {
    pub at: Span,
    pub until: Span,
    pub opening: Span,
    pub condition: Box<Expression>,
    pub close: Span,
    pub semicolon: Span,
}

/// What a `for` has beside its body.
#[derive(Drop)]
pub struct ForParts {
    pub at: Span,
    pub opening: Span,
    pub start: Option<Box<Expression>>,
    pub first: Span,
    pub condition: Option<Box<Expression>>,
    pub second: Span,
    pub step: Option<Box<Expression>>,
    pub close: Span,
}

/// What a `for` with a declaration has beside its body.
#[derive(Drop)]
pub struct ForDeclarationParts {
    pub at: Span,
    pub opening: Span,
    pub start: Declaration,
    pub condition: Option<Box<Expression>>,
    pub second: Span,
    pub step: Option<Box<Expression>>,
    pub close: Span,
}

/// What a `switch` has beside its statements.
#[derive(Drop)]
pub struct SwitchParts {
    pub at: Span,
    pub opening: Span,
    pub value: Box<Expression>,
    pub close: Span,
    pub begin: Span,
    pub end: Span,
}

/// A statement (C99 6.8). In a block a declaration may stand for one, and in a switch a statement with its
/// labels. Its expressions and the parts of its largest nodes are in boxes, so that the others take less room.
#[derive(Drop)]
pub enum Statement {
    /// A declaration, in a block alone (C99 6.8.2)
    Declaration(Declaration),
    /// `label* statement`, in a switch alone (C99 6.8.1)
    Labelled(Vec<Label>, Box<Statement>),
    /// `'{' (declaration | statement)* '}'`
    Block(Span, Vec<Statement>, Span),
    /// `expression? ';'`
    Simple(Option<Box<Expression>>, Span),
    /// `'if' '(' expression ')' statement`
    If {
        at: Span,
        opening: Span,
        condition: Box<Expression>,
        close: Span,
        then: Box<Statement>,
    },
    /// `'if' '(' expression ')' statement 'else' statement`
    IfElse(Box<IfElseParts>, Box<Statement>, Box<Statement>),
    /// `'while' '(' expression ')' statement`
    While {
        at: Span,
        opening: Span,
        condition: Box<Expression>,
        close: Span,
        body: Box<Statement>,
    },
    /// `'do' statement 'while' '(' expression ')' ';'`
    Do(Box<DoParts>, Box<Statement>),
    /// `'for' '(' expression? ';' expression? ';' expression? ')' statement`
    For(Box<ForParts>, Box<Statement>),
    /// `'for' '(' declaration expression? ';' expression? ')' statement`
    ForDeclaration(Box<ForDeclarationParts>, Box<Statement>),
    /// `'switch' '(' expression ')' '{' (label* statement)* '}'`
    Switch(Box<SwitchParts>, Vec<Statement>),
    /// `'break' ';'`
    Break(Span, Span),
    /// `'continue' ';'`
    Continue(Span, Span),
    /// `'return' expression? ';'`
    Return(Span, Option<Box<Expression>>, Span),
}
