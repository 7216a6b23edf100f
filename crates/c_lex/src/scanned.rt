use crate::token::TokenKind;

/// A piece of a text.
#[derive(Drop)]
pub enum Scanned {
    Space,
    Comment,
    Skipped,
    Token(TokenKind),
}
