ghost use Rattle.std.specs.Prelude.{◌∷◌, []};
ghost use Rattle.c_lex.specs.Scans.{IsMarkOf};

use crate::token::Punct;

/// The punctuator of two bytes, or the mark that a digraph spells (C99 6.4.6).
pub(crate) fn mark_of_two(first: u8, second: u8) -> Option<Punct>
    ensures { IsMarkOf (first ∷ second ∷ []) result }
{
    match (first, second) {
        (b'-', b'>') => Some(Punct::Arrow),
        (b'-', b'-') => Some(Punct::MinusMinus),
        (b'-', b'=') => Some(Punct::MinusEqual),
        (b'+', b'+') => Some(Punct::PlusPlus),
        (b'+', b'=') => Some(Punct::PlusEqual),
        (b'<', b'<') => Some(Punct::ShiftLeft),
        (b'<', b'=') => Some(Punct::LessEqual),
        (b'<', b':') => Some(Punct::LeftBracket),
        (b'<', b'%') => Some(Punct::LeftBrace),
        (b'>', b'>') => Some(Punct::ShiftRight),
        (b'>', b'=') => Some(Punct::GreaterEqual),
        (b'&', b'&') => Some(Punct::AndAnd),
        (b'&', b'=') => Some(Punct::AndEqual),
        (b'|', b'|') => Some(Punct::OrOr),
        (b'|', b'=') => Some(Punct::OrEqual),
        (b'=', b'=') => Some(Punct::EqualEqual),
        (b'!', b'=') => Some(Punct::BangEqual),
        (b'*', b'=') => Some(Punct::StarEqual),
        (b'/', b'=') => Some(Punct::SlashEqual),
        (b'%', b'=') => Some(Punct::PercentEqual),
        (b'%', b'>') => Some(Punct::RightBrace),
        (b'^', b'=') => Some(Punct::CaretEqual),
        (b':', b'>') => Some(Punct::RightBracket),
        _ => None,
    }
}

/// The punctuator of one byte (C99 6.4.6).
pub(crate) fn mark_of_one(first: u8) -> Option<Punct>
    ensures { IsMarkOf (first ∷ []) result }
{
    match first {
        b'[' => Some(Punct::LeftBracket),
        b']' => Some(Punct::RightBracket),
        b'(' => Some(Punct::LeftParen),
        b')' => Some(Punct::RightParen),
        b'{' => Some(Punct::LeftBrace),
        b'}' => Some(Punct::RightBrace),
        b'.' => Some(Punct::Dot),
        b'&' => Some(Punct::And),
        b'*' => Some(Punct::Star),
        b'+' => Some(Punct::Plus),
        b'-' => Some(Punct::Minus),
        b'~' => Some(Punct::Tilde),
        b'!' => Some(Punct::Bang),
        b'/' => Some(Punct::Slash),
        b'%' => Some(Punct::Percent),
        b'<' => Some(Punct::Less),
        b'>' => Some(Punct::Greater),
        b'^' => Some(Punct::Caret),
        b'|' => Some(Punct::Or),
        b'?' => Some(Punct::Question),
        b':' => Some(Punct::Colon),
        b';' => Some(Punct::Semicolon),
        b'=' => Some(Punct::Equal),
        b',' => Some(Punct::Comma),
        _ => None,
    }
}
