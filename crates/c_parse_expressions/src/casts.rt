//! Specifiers and casts at the front of a list of tokens.

ghost use Rattle.std.specs.Prelude.{◌≡◌, ◌<◌, length, IfSome, IfNone, Some, [], ℕ};
ghost use Rattle.std.specs.Bool.{OnTrue, OnFalse};
ghost use Rattle.c_grammar.specs.Taking.{take_mark, take_specifiers};
ghost use Rattle.c_grammar.specs.Reading.{Readers, read_cast, read_unary};
ghost use Rattle.c_parse_expressions.specs.Fronts.{BeginsWithSpecifier};

use crate::kinds::{is_mark, specifier_of};
use c_lex::{Punct, Token};
use pcc_base::Span;

/// Whether a specifier stands at the front.
pub(crate) fn begins_with_specifier(tokens: &[Token]) -> bool
    ensures yes { OnTrue result (BeginsWithSpecifier tokens.now) }
    ensures no { OnFalse result (take_specifiers tokens.now ≡ ([], tokens.now)) }
{
    let Some((first, _)) = tokens.split_first() else {
        return false;
    };
    match specifier_of(&first.kind) {
        Some(_) => true,
        None => false,
    }
}

/// A `(` that begins a cast, since a specifier stands behind it: its place, and the tokens behind it.
pub(crate) fn cast_at(tokens: &[Token]) -> Option<(Span, &[Token])>
    ensures some { IfSome result (λ p. (take_mark Punct.LeftParen tokens.now ≡ Some (p.0, p.1.now))
        × BeginsWithSpecifier p.1.now) }
    ensures none { IfNone result ((height : ℕ) (below : Readers) → read_cast height below tokens.now
        ≡ read_unary height below tokens.now) }
    ensures shorter { IfSome result (λ p. length p.1.now < length tokens.now) }
{
    let (first, others) = tokens.split_first()?;
    if is_mark(&first.kind, Punct::LeftParen) && begins_with_specifier(others) {
        return Some((first.at, others));
    }
    None
}
