//! The tokens of files.

ghost use Rattle.std.specs.Prelude.{◌≡◌, ◌≤◌, ◌<◌, ◌+◌, ◌^◌, length, map, IfOk, IfErr};
ghost use Rattle.std.specs.List.{AllByRecursion};
ghost use Rattle.c_lex.specs.Tokens.{HasTokens};
ghost use Rattle.c_front.specs.Accepted.{HaveTokens, total};
ghost use Rattle.c_front.specs.Refusals.{AreUnread, ends_of, first_place, text_end};
ghost use Rattle.c_front.specs.SoFar.{IsUnread};

use c_lex::{Token, advance, lex};
use c_parse_expressions::push;
use pcc_base::{Limit, Refusal, Span};
use std::alloc::Global;

/// The most tokens of all files that are read.
const MOST_TOKENS: usize = 65_536;

/// The number of tokens that is told where there are more.
const MANY_TOKENS: u64 = 65_537;

/// A file in tokens, and the place behind its last byte.
#[derive(Drop)]
pub struct Lexed {
    pub tokens: Vec<Token>,
    pub end: Span,
}

/// The first place of the file at this position.
pub(crate) fn first_place(file: u32) -> Span
    ensures { result ≡ first_place file }
{
    Span {
        file,
        line: 1,
        col: 1,
    }
}

/// The place behind its text.
pub(crate) fn text_end(file: u32, text: &[u8]) -> Span
    requires small { length text.now + 1 < 2 ^ 32 }
    ensures { result ≡ text_end file text.now }
{
    advance(first_place(file), text)
}

/// The tokens of the file at this position, where at most so many are left of those that are read.
fn lex_file(alloc: Global, file: u32, text: &[u8], left: usize) -> Result<Lexed, Refusal>
    requires small { length text.now + 1 < 2 ^ 32 }
    ensures tokens { IfOk result (λ f. HasTokens file text.now f.tokens.items) }
    ensures few { IfOk result (λ f. length f.tokens.items ≤ left) }
    ensures end { IfOk result (λ f. f.end ≡ text_end file text.now) }
    ensures refused { IfErr result (IsUnread file text.now left) }
{
    match lex(alloc, file, text, left) {
        Ok(tokens) => Ok(Lexed {
            tokens,
            end: text_end(file, text),
        }),
        Err(Refusal::Limit(_)) => Err(Refusal::Limit(Limit::Tokens(MANY_TOKENS))),
        Err(refusal) => Err(refusal),
    }
}

/// The tokens of each file. The first lexical fault is answered where at most 65,536 tokens stand before it, and the
/// limit on tokens where more do.
pub(crate) fn lex_files(alloc: Global, texts: &[Vec<u8>]) -> Result<Vec<Lexed>, Refusal>
    requires few { length texts.now ≤ 16 }
    requires small { AllByRecursion (λ t. length t.items + 1 < 2 ^ 32) texts.now }
    ensures tokens { IfOk result (λ files. HaveTokens 0 (map (λ t. t.items) texts.now)
        (map (λ f. f.tokens.items) files.items)) }
    ensures few { IfOk result (λ files. total (map (λ f. f.tokens.items) files.items) ≤ 65536) }
    ensures ends { IfOk result (λ files. map (λ f. f.end) files.items ≡ ends_of 0 (map (λ t. t.items) texts.now)) }
    ensures refused { IfErr result (AreUnread (map (λ t. t.items) texts.now)) }
{
    let mut files = Vec::new(alloc);
    let mut left = MOST_TOKENS;
    let mut file = 0;
    let mut rest = texts;
    'texts: while let Some((text, others)) = rest.split_first() {
        let lexed = lex_file(alloc, file, text.as_slice(), left)?;
        left -= lexed.tokens.len();
        push(&mut files, lexed)?;
        file += 1;
        rest = others;
    }
    Ok(files)
}
