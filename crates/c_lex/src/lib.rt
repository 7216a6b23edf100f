//! The tokens of a text, and what they are.
//!
//! In: the bytes of a source file. Out: its list of tokens, or the first place where it has none. The promise: `lex`
//! gives exactly the token list of `specs/Tokens.antt`, which is a relation on whole texts: a text is a sequence of
//! pieces (`specs/Pieces.antt`), each the longest that begins there, and it has one token list at most
//! (`one_token_list`).
//!
//! `scanner` reads the piece that begins the rest of a text: `words`, `quotes`, `short_marks` and `mark_tokens`,
//! `number_texts` and `number_tokens`, `spaces_and_lines` and `comments` have one kind of piece each, and `place` goes
//! behind it.
#![tactic(auto)]

mod classes;
mod comments;
mod faults;
mod kept;
mod laws;
mod lexer;
mod mark_tokens;
mod number_texts;
mod number_tokens;
mod place;
mod quotes;
mod radix;
mod recent;
mod scanned;
mod scanner;
mod short_marks;
mod spaces_and_lines;
mod token;
mod words;

pub use laws::one_token_list;
pub use lexer::lex;
pub use mark_tokens::mark_at;
pub use number_tokens::number_at;
pub use place::advance;
pub use token::{Punct, Token, TokenKind};
pub use words::{is_word_byte, spelling};
