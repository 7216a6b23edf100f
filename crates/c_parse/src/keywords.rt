//! The keywords of C99 that the language leaves out.

ghost use Rattle.std.specs.Prelude.{◌≡◌, true, IfSome, IfNone};
ghost use Rattle.c_lex.specs.declared.token.TokenKind.TheVariants as kinds;
ghost use Rattle.c_parse.specs.ParserRefusals.{is_outside, IsInside, NoneUnsupported, FirstUnsupported};

use c_lex::{Token, TokenKind};
use pcc_base::{Keyword, Span};

/// Whether no rule of the grammar uses this keyword.
fn is_outside(word: Keyword) -> bool
    ensures { result ≡ is_outside word }
{
    match word {
        Keyword::Auto
        | Keyword::Break
        | Keyword::Case
        | Keyword::Char
        | Keyword::Const
        | Keyword::Continue
        | Keyword::Default
        | Keyword::Do
        | Keyword::Else
        | Keyword::Extern
        | Keyword::For
        | Keyword::If
        | Keyword::Int
        | Keyword::Register
        | Keyword::Return
        | Keyword::Short
        | Keyword::Signed
        | Keyword::Static
        | Keyword::Switch
        | Keyword::Void
        | Keyword::While => false,
        Keyword::Double
        | Keyword::Enum
        | Keyword::Float
        | Keyword::Goto
        | Keyword::Inline
        | Keyword::Long
        | Keyword::Restrict
        | Keyword::Sizeof
        | Keyword::Struct
        | Keyword::Typedef
        | Keyword::Union
        | Keyword::Unsigned
        | Keyword::Volatile
        | Keyword::Bool
        | Keyword::Complex
        | Keyword::Imaginary => true,
    }
}

/// The keyword left out of the language that a token is, if it is one.
fn outside_of(kind: &TokenKind) -> Option<Keyword>
    ensures is { IfSome result (λ word. kind.now ≡ kinds.Word word) }
    ensures some { IfSome result (λ word. is_outside word ≡ true) }
    ensures none { IfNone result (IsInside kind.now) }
{
    match kind {
        TokenKind::Word(word) => {
            if is_outside(*word) {
                return Some(*word);
            }
            None
        }
        TokenKind::Ident(_) | TokenKind::Number { .. } | TokenKind::Text(_) | TokenKind::Mark(_) =>
            None,
    }
}

/// The first token that is a keyword left out of the language, and where it stands.
pub(crate) fn first_outside(tokens: &[Token]) -> Option<(Keyword, Span)>
    ensures some { IfSome result (λ found. FirstUnsupported tokens.now found.0 found.1) }
    ensures none { IfNone result (NoneUnsupported tokens.now) }
{
    let mut rest = tokens;
    'tokens: while let Some((first, others)) = rest.split_first() {
        if let Some(word) = outside_of(&first.kind) {
            return Some((word, first.at));
        }
        rest = others;
    }
    None
}
