//! The forms of arrays' initialisers (C99 6.7.8p14 to p16).

ghost use Rattle.std.specs.Prelude.{◌≡◌, map, option_map};
ghost use Rattle.c_syntax.specs.Declarations.{initialiser_of};
ghost use Rattle.c_syntax.specs.Expressions.{expr_of, exprs_of};
ghost use Rattle.c_tree.specs.declared.types.IntegerType.TheVariants.{Char};
ghost use Rattle.c_typing.specs.Declarators.{array_values, only_text, text_of};
ghost use Rattle.c_check_declarations.specs.Forms.{letters_in, values_by};

use c_syntax::{Expression, Initialiser, TextPiece};
use c_tree::{IntegerType, ValueType};

/// The string literals that an expression is, without parentheses.
fn text_of(e: &Expression) -> Option<&[TextPiece]>
    ensures { option_map (λ p. p.now) result ≡ text_of (expr_of e.now) }
{
    match e {
        Expression::Text(pieces) => Some(pieces.as_slice()),
        _ => None,
    }
}

/// The string literals that are the only value of a list.
fn only_text(values: &[Expression]) -> Option<&[TextPiece]>
    ensures { option_map (λ p. p.now) result ≡ only_text (exprs_of (map expr_of values.now)) }
{
    match values {
        [] => None,
        [e] => text_of(e),
        [_, _, ..] => None,
    }
}

/// The string that initialises an array of `char`, in braces or not.
fn char_letters(value: &Initialiser) -> Option<&[TextPiece]>
    ensures { option_map (λ p. p.now) result ≡ letters_in (array_values Char (initialiser_of value.now)) }
{
    match value {
        Initialiser::Single(e) => text_of(e),
        Initialiser::List { values, .. } => only_text(values.as_slice()),
    }
}

/// The string that initialises an array with such elements, where it is one.
pub(crate) fn letters_in(of: Option<ValueType>, value: &Initialiser) -> Option<&[TextPiece]>
    ensures { option_map (λ p. p.now) result ≡ letters_in (values_by of (initialiser_of value.now)) }
{
    match of {
        Some(ValueType::Integer(IntegerType::Char)) => char_letters(value),
        _ => None,
    }
}
