//! Which mark or specifier a token is.

ghost use Rattle.std.specs.Prelude.{◌≡◌};
ghost use Rattle.c_grammar.specs.Taking.{is_mark, specifier_of};

use c_lex::{Punct, TokenKind};
use c_syntax::SpecifierWord;
use pcc_base::Keyword;

/// Whether a token is this mark.
pub fn is_mark(kind: &TokenKind, mark: Punct) -> bool
    ensures { result ≡ is_mark mark kind.now }
{
    match kind {
        TokenKind::Mark(found) => mark == *found,
        TokenKind::Word(_) | TokenKind::Ident(_) | TokenKind::Number { .. } | TokenKind::Text(_) =>
            false,
    }
}

/// The specifier that a token is (C99 6.7).
pub fn specifier_of(kind: &TokenKind) -> Option<SpecifierWord>
    ensures { result ≡ specifier_of kind.now }
{
    match kind {
        TokenKind::Word(Keyword::Auto) => Some(SpecifierWord::Auto),
        TokenKind::Word(Keyword::Register) => Some(SpecifierWord::Register),
        TokenKind::Word(Keyword::Static) => Some(SpecifierWord::Static),
        TokenKind::Word(Keyword::Extern) => Some(SpecifierWord::Extern),
        TokenKind::Word(Keyword::Const) => Some(SpecifierWord::Const),
        TokenKind::Word(Keyword::Void) => Some(SpecifierWord::Void),
        TokenKind::Word(Keyword::Char) => Some(SpecifierWord::Char),
        TokenKind::Word(Keyword::Short) => Some(SpecifierWord::Short),
        TokenKind::Word(Keyword::Int) => Some(SpecifierWord::Int),
        TokenKind::Word(Keyword::Signed) => Some(SpecifierWord::Signed),
        _ => None,
    }
}
