use pcc_base::{Keyword, Name, Span};

/// A punctuator (C99 6.4.6) but `#` and `##`. A digraph is the mark that it spells.
#[derive(Clone, Copy, Debug)]
pub enum Punct {
    LeftBracket,
    RightBracket,
    LeftParen,
    RightParen,
    LeftBrace,
    RightBrace,
    Dot,
    Arrow,
    PlusPlus,
    MinusMinus,
    And,
    Star,
    Plus,
    Minus,
    Tilde,
    Bang,
    Slash,
    Percent,
    ShiftLeft,
    ShiftRight,
    Less,
    Greater,
    LessEqual,
    GreaterEqual,
    EqualEqual,
    BangEqual,
    Caret,
    Or,
    AndAnd,
    OrOr,
    Question,
    Colon,
    Semicolon,
    Ellipsis,
    Equal,
    StarEqual,
    SlashEqual,
    PercentEqual,
    PlusEqual,
    MinusEqual,
    ShiftLeftEqual,
    ShiftRightEqual,
    AndEqual,
    CaretEqual,
    OrEqual,
    Comma,
}

/// What a token is. A character constant is a number (C99 6.4.4.4).
#[derive(Drop)]
pub enum TokenKind {
    Word(Keyword),
    Ident(Name),
    /// The value of a constant, and whether its type is unsigned: that of no constant of the language is (C99 6.4.4.1).
    Number { value: i32, unsigned: bool },
    /// The bytes of a string literal, without the zero byte at its end (C99 6.4.5).
    Text(Name),
    Mark(Punct),
}

/// A token, and where its first byte stands.
#[derive(Drop)]
pub struct Token {
    pub kind: TokenKind,
    pub at: Span,
}
