//! Where expressions begin.

ghost use Rattle.std.specs.Prelude.{◌≡◌};
ghost use Rattle.c_syntax.specs.Expressions.{expr_of};
ghost use Rattle.c_typing.specs.Expressions.{first_piece, first_token};

use c_syntax::{Expression, TextPiece};
use pcc_base::Span;

/// The place of the first of the string literals that stand one after the other.
pub fn first_piece(pieces: &[TextPiece]) -> Span
    ensures { result ≡ first_piece pieces.now }
{
    match pieces.first() {
        Some(piece) => piece.at,
        None => Span {
            file: 0,
            line: 0,
            col: 0,
        },
    }
}

/// The place of an expression's first token.
pub fn first_token(e: &Expression) -> Span
    ensures { result ≡ first_token (expr_of e.now) }
{
    match e {
        Expression::Identifier(name) => name.at,
        Expression::Text(pieces) => first_piece(pieces.as_slice()),
        Expression::Call(parts, _) => parts.function.at,
        Expression::Number(_, at)
        | Expression::Parenthesised(at, _, _)
        | Expression::Prefix(_, at, _)
        | Expression::Unary(_, at, _) => *at,
        Expression::Cast(of, _) => of.opening,
        Expression::Index(first, _, _, _)
        | Expression::Postfix(first, _, _)
        | Expression::Binary(_, first, _, _)
        | Expression::Conditional {
            condition: first,
            ..
        }
        | Expression::Assignment(_, first, _, _) => first_token(first),
    }
}
