//! Which operator or word a token is.

ghost use Rattle.std.specs.Prelude.{◌≡◌, ◌<◌, ℕ, None};
ghost use Rattle.c_syntax.specs.ExpressionTokens.{binary_level};
ghost use Rattle.c_grammar.specs.Taking.{is_word, of_mark, unary_of_mark, step_of_mark, assign_of_mark};
ghost use Rattle.c_grammar.specs.Taking.{binary_of_mark, at_level};
ghost use Rattle.c_grammar.specs.Heads.{begins};

use c_lex::{Punct, TokenKind};
use c_syntax::{AssignOp, BinaryOp, StepOp, UnaryOp};
use pcc_base::Keyword;

/// A level above those of all operators.
pub(crate) const NO_LEVEL: usize = 14;

/// Whether a token is this word.
pub fn is_word(kind: &TokenKind, word: Keyword) -> bool
    ensures { result ≡ is_word word kind.now }
{
    match kind {
        TokenKind::Word(found) => word == *found,
        TokenKind::Mark(_) | TokenKind::Ident(_) | TokenKind::Number { .. } | TokenKind::Text(_) =>
            false,
    }
}

/// The mark that a token is.
fn mark_of(kind: &TokenKind) -> Option<Punct>
    ensures { result ≡ of_mark Some kind.now }
{
    match kind {
        TokenKind::Mark(mark) => Some(*mark),
        TokenKind::Word(_) | TokenKind::Ident(_) | TokenKind::Number { .. } | TokenKind::Text(_) =>
            None,
    }
}

/// The operator before an operand that a mark is (C99 6.5.3).
fn unary_of_mark(mark: Punct) -> Option<UnaryOp>
    ensures { result ≡ unary_of_mark mark }
{
    match mark {
        Punct::And => Some(UnaryOp::AddressOf),
        Punct::Star => Some(UnaryOp::Dereference),
        Punct::Plus => Some(UnaryOp::Plus),
        Punct::Minus => Some(UnaryOp::Minus),
        Punct::Tilde => Some(UnaryOp::Complement),
        Punct::Bang => Some(UnaryOp::Not),
        _ => None,
    }
}

/// `++` or `--`, where a mark is one of them.
fn step_of_mark(mark: Punct) -> Option<StepOp>
    ensures { result ≡ step_of_mark mark }
{
    match mark {
        Punct::PlusPlus => Some(StepOp::Increment),
        Punct::MinusMinus => Some(StepOp::Decrement),
        _ => None,
    }
}

/// The assignment operator that a mark is (C99 6.5.16).
fn assign_of_mark(mark: Punct) -> Option<AssignOp>
    ensures { result ≡ assign_of_mark mark }
{
    match mark {
        Punct::Equal => Some(AssignOp::Assign),
        Punct::StarEqual => Some(AssignOp::Multiply),
        Punct::SlashEqual => Some(AssignOp::Divide),
        Punct::PercentEqual => Some(AssignOp::Remainder),
        Punct::PlusEqual => Some(AssignOp::Add),
        Punct::MinusEqual => Some(AssignOp::Subtract),
        Punct::ShiftLeftEqual => Some(AssignOp::ShiftLeft),
        Punct::ShiftRightEqual => Some(AssignOp::ShiftRight),
        Punct::AndEqual => Some(AssignOp::BitAnd),
        Punct::CaretEqual => Some(AssignOp::BitXor),
        Punct::OrEqual => Some(AssignOp::BitOr),
        _ => None,
    }
}

/// The operator between operands that a mark is (C99 6.5.5 to 6.5.14, 6.5.17).
fn binary_of_mark(mark: Punct) -> Option<BinaryOp>
    ensures { result ≡ binary_of_mark mark }
{
    match mark {
        Punct::Star => Some(BinaryOp::Multiply),
        Punct::Slash => Some(BinaryOp::Divide),
        Punct::Percent => Some(BinaryOp::Remainder),
        Punct::Plus => Some(BinaryOp::Add),
        Punct::Minus => Some(BinaryOp::Subtract),
        Punct::ShiftLeft => Some(BinaryOp::ShiftLeft),
        Punct::ShiftRight => Some(BinaryOp::ShiftRight),
        Punct::Less => Some(BinaryOp::Less),
        Punct::Greater => Some(BinaryOp::Greater),
        Punct::LessEqual => Some(BinaryOp::LessEqual),
        Punct::GreaterEqual => Some(BinaryOp::GreaterEqual),
        Punct::EqualEqual => Some(BinaryOp::Equal),
        Punct::BangEqual => Some(BinaryOp::NotEqual),
        Punct::And => Some(BinaryOp::BitAnd),
        Punct::Caret => Some(BinaryOp::BitXor),
        Punct::Or => Some(BinaryOp::BitOr),
        Punct::AndAnd => Some(BinaryOp::LogicalAnd),
        Punct::OrOr => Some(BinaryOp::LogicalOr),
        Punct::Comma => Some(BinaryOp::Comma),
        _ => None,
    }
}

/// The level of an operator, from the tightest.
fn binary_level(op: BinaryOp) -> usize
    ensures { result ≡ binary_level op }
{
    match op {
        BinaryOp::Multiply | BinaryOp::Divide | BinaryOp::Remainder => 1,
        BinaryOp::Add | BinaryOp::Subtract => 2,
        BinaryOp::ShiftLeft | BinaryOp::ShiftRight => 3,
        BinaryOp::Less | BinaryOp::Greater | BinaryOp::LessEqual | BinaryOp::GreaterEqual => 4,
        BinaryOp::Equal | BinaryOp::NotEqual => 5,
        BinaryOp::BitAnd => 6,
        BinaryOp::BitXor => 7,
        BinaryOp::BitOr => 8,
        BinaryOp::LogicalAnd => 9,
        BinaryOp::LogicalOr => 10,
        BinaryOp::Comma => 13,
    }
}

/// The operator before an operand that a token is.
pub(crate) fn unary_of(kind: &TokenKind) -> Option<UnaryOp>
    ensures { result ≡ of_mark unary_of_mark kind.now }
{
    unary_of_mark(mark_of(kind)?)
}

/// `++` or `--`, where a token is one of them.
pub(crate) fn step_of(kind: &TokenKind) -> Option<StepOp>
    ensures { result ≡ of_mark step_of_mark kind.now }
{
    step_of_mark(mark_of(kind)?)
}

/// The assignment operator that a token is.
pub(crate) fn assign_of(kind: &TokenKind) -> Option<AssignOp>
    ensures { result ≡ of_mark assign_of_mark kind.now }
{
    assign_of_mark(mark_of(kind)?)
}

/// The operator of this level that a token is.
pub(crate) fn binary_of(kind: &TokenKind, level: usize) -> Option<BinaryOp>
    ensures { result ≡ at_level level (of_mark binary_of_mark kind.now) }
{
    let op = binary_of_mark(mark_of(kind)?)?;
    if binary_level(op) == level {
        Some(op)
    } else {
        None
    }
}

/// The operator between operands that a token is.
fn operator_of(kind: &TokenKind) -> Option<BinaryOp>
    ensures { result ≡ of_mark binary_of_mark kind.now }
{
    binary_of_mark(mark_of(kind)?)
}

/// The level of the operator between operands that a token is, or one that is above all where it is none: it is no
/// operator of a tighter level.
pub(crate) fn level_of(kind: &TokenKind) -> usize
    ensures { (k : ℕ) → k < result → at_level k (of_mark binary_of_mark kind.now) ≡ None }
{
    match operator_of(kind) {
        Some(op) => binary_level(op),
        None => NO_LEVEL,
    }
}

/// Whether an expression may begin with this token.
pub fn begins_expression(kind: &TokenKind) -> bool
    ensures { result ≡ begins kind.now }
{
    match kind {
        TokenKind::Ident(_) | TokenKind::Text(_) => true,
        TokenKind::Number { unsigned, .. } => !*unsigned,
        TokenKind::Mark(mark) => *mark == Punct::LeftParen
            || unary_of_mark(*mark).is_some()
            || step_of_mark(*mark).is_some(),
        TokenKind::Word(_) => false,
    }
}
