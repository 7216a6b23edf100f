ghost use Rattle.std.specs.Prelude.{◌≡◌, ◌≤◌, ◌∷◌, ℕ, List, Bool, IsTrue, length, take, drop, MatchOption, Contains};
ghost use Rattle.c_lex.specs.Bytes.{is_letter, is_word_byte};
ghost use Rattle.c_lex.specs.Literals.{AllPass, StartsNot};
ghost use Rattle.c_lex.specs.Pieces.{IsNoKeyword};
ghost use Rattle.c_lex.specs.Scans.{IsScan};
ghost use Rattle.c_lex.specs.Spellings.{keyword_text};

use crate::recent::Recent;
use crate::scanned::Scanned;
use crate::token::TokenKind;
use pcc_base::{Keyword, NoMemory};
use std::alloc::Global;

/// The spelling of a keyword.
pub fn spelling(word: Keyword) -> &'static [u8]
    ensures { result.now ≡ keyword_text word }
{
    match word {
        Keyword::Auto => b"auto",
        Keyword::Break => b"break",
        Keyword::Case => b"case",
        Keyword::Char => b"char",
        Keyword::Const => b"const",
        Keyword::Continue => b"continue",
        Keyword::Default => b"default",
        Keyword::Do => b"do",
        Keyword::Double => b"double",
        Keyword::Else => b"else",
        Keyword::Enum => b"enum",
        Keyword::Extern => b"extern",
        Keyword::Float => b"float",
        Keyword::For => b"for",
        Keyword::Goto => b"goto",
        Keyword::If => b"if",
        Keyword::Inline => b"inline",
        Keyword::Int => b"int",
        Keyword::Long => b"long",
        Keyword::Register => b"register",
        Keyword::Restrict => b"restrict",
        Keyword::Return => b"return",
        Keyword::Short => b"short",
        Keyword::Signed => b"signed",
        Keyword::Sizeof => b"sizeof",
        Keyword::Static => b"static",
        Keyword::Struct => b"struct",
        Keyword::Switch => b"switch",
        Keyword::Typedef => b"typedef",
        Keyword::Union => b"union",
        Keyword::Unsigned => b"unsigned",
        Keyword::Void => b"void",
        Keyword::Volatile => b"volatile",
        Keyword::While => b"while",
        Keyword::Bool => b"_Bool",
        Keyword::Complex => b"_Complex",
        Keyword::Imaginary => b"_Imaginary",
    }
}

/// The keywords that begin with this byte (C99 6.4.1).
fn keywords_from(first: u8) -> &'static [Keyword]
    ensures { (word : Keyword) (others : List ℕ) → keyword_text word ≡ first ∷ others → Contains result.now word }
{
    match first {
        b'a' => &[Keyword::Auto],
        b'b' => &[Keyword::Break],
        b'c' => &[
            Keyword::Case,
            Keyword::Char,
            Keyword::Const,
            Keyword::Continue,
        ],
        b'd' => &[Keyword::Default, Keyword::Do, Keyword::Double],
        b'e' => &[Keyword::Else, Keyword::Enum, Keyword::Extern],
        b'f' => &[Keyword::Float, Keyword::For],
        b'g' => &[Keyword::Goto],
        b'i' => &[Keyword::If, Keyword::Inline, Keyword::Int],
        b'l' => &[Keyword::Long],
        b'r' => &[Keyword::Register, Keyword::Restrict, Keyword::Return],
        b's' => &[
            Keyword::Short,
            Keyword::Signed,
            Keyword::Sizeof,
            Keyword::Static,
            Keyword::Struct,
            Keyword::Switch,
        ],
        b't' => &[Keyword::Typedef],
        b'u' => &[Keyword::Union, Keyword::Unsigned],
        b'v' => &[Keyword::Void, Keyword::Volatile],
        b'w' => &[Keyword::While],
        b'_' => &[Keyword::Bool, Keyword::Complex, Keyword::Imaginary],
        _ => &[],
    }
}

/// The keyword with this spelling, and None where no keyword has it.
fn keyword_of(word: &[u8]) -> Option<Keyword>
    ensures { MatchOption result (IsNoKeyword word.now) (λ k. keyword_text k ≡ word.now) }
{
    let row = keywords_from(*word.first()?);
    row.iter()
        .copied()
        .find(|keyword| spelling(*keyword) == word)
}

/// Whether the byte may stand in an identifier (C99 6.4.2.1).
pub fn is_word_byte(byte: u8) -> bool
    ensures { result ≡ is_word_byte byte }
{
    byte.is_ascii_alphanumeric() || byte == b'_'
}

/// How many bytes of the rest are a word.
fn word_length(rest: &[u8]) -> usize
    ensures within { result ≤ length rest.now }
    ensures word { AllPass is_word_byte (take result rest.now) }
    ensures longest { StartsNot is_word_byte (drop result rest.now) }
{
    rest.iter()
        .position(|byte| !is_word_byte(*byte))
        .unwrap_or(rest.len())
}

/// The identifier or keyword that begins the rest (C99 6.4.1, 6.4.2), and None where it is an `L` before
/// a quote. A name that was met shares its bytes.
pub fn word_at(
    alloc: Global,
    met: &mut Recent,
    rest: &[u8],
) -> Result<Option<(usize, Scanned)>, NoMemory>
    requires { (b : ℕ) × (others : List ℕ) × (rest.now ≡ b ∷ others) × IsTrue (is_letter b) }
    ensures { (fresh : Bool) → IsScan fresh rest.now result }
{
    if rest.starts_with(b"L'") || rest.starts_with(b"L\"") {
        return Ok(None);
    }
    let length = word_length(rest);
    let word = &rest[..length];
    let kind = match keyword_of(word) {
        Some(keyword) => TokenKind::Word(keyword),
        None => TokenKind::Ident(met.name_of(alloc, word)?),
    };
    Ok(Some((length, Scanned::Token(kind))))
}
