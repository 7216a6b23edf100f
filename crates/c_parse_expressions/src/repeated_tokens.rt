//! Rows of tokens of one kind: specifiers, the words `const`, string literals.

ghost use Rattle.std.specs.Prelude.{◌≡◌, ◌+◌, ◌≤◌, ◌∷◌, ◌++◌, [], length, IfOk, OnOk};
ghost use Rattle.c_syntax.specs.Expressions.{star_of};
ghost use Rattle.c_grammar.specs.Taking.{take_specifiers, take_consts, take_texts, take_pointer, with_front};
ghost use Rattle.c_parse_expressions.specs.Rows.{IsFront, IsRow};

use crate::cursor::Cursor;
use crate::kinds::specifier_of;
use c_lex::{Punct, TokenKind};
use c_syntax::{Pointer, Specifier, TextPiece};
use pcc_base::{Keyword, Name, NoMemory, Span};
use std::alloc::Global;

/// Appends a value. The room grows from one value on, and by half, since most rows are short.
pub fn push<T: Drop>(values: &mut Vec<T>, value: T) -> Result<(), NoMemory>
    ensures { OnOk result (values.new.items ≡ values.old.items ++ value ∷ []) }
{
    if values.len() == values.capacity()
        && values.reserve_exact((values.len() / 2).max(1)).is_err()
    {
        return Err(NoMemory);
    }
    Ok(values.push(value)?)
}

impl Cursor<'_> {
    /// Takes a specifier, where the next token is one.
    fn take_specifier(&mut self) -> Option<Specifier>
        ensures { IsFront take_specifiers self.old.rest.now self.new.rest.now result }
    {
        let (first, others) = self.rest.split_first()?;
        let word = specifier_of(&first.kind)?;
        self.rest = others;
        Some(Specifier { word, at: first.at })
    }

    /// The specifiers that come next.
    pub fn take_specifiers(&mut self) -> Result<Vec<Specifier>, NoMemory>
        ensures ok { IfOk result (λ v. take_specifiers self.old.rest.now ≡ (v.items, self.new.rest.now)) }
        ensures fewer { IfOk result (λ v. length self.new.rest.now + length v.items ≤ length self.old.rest.now) }
    {
        let mut specifiers = Vec::new(self.alloc);
        while let Some(specifier) = self.take_specifier() {
            push(&mut specifiers, specifier)?;
        }
        Ok(specifiers)
    }

    /// Takes a word `const`, where the next token is one.
    fn take_const(&mut self) -> Option<Span>
        ensures { IsFront take_consts self.old.rest.now self.new.rest.now result }
    {
        self.take_word(Keyword::Const)
    }

    /// The words `const` that come next.
    fn take_consts(&mut self) -> Result<Vec<Span>, NoMemory>
        ensures { IfOk result (λ v. IsRow take_consts self.old.rest.now self.new.rest.now v.items) }
    {
        let mut consts = Vec::new(self.alloc);
        while let Some(at) = self.take_const() {
            push(&mut consts, at)?;
        }
        Ok(consts)
    }

    /// `pointer?`, with `pointer : '*' 'const'*`
    pub fn take_pointer(&mut self) -> Result<Option<Pointer>, NoMemory>
        ensures { IfOk result (λ p. IsRow take_pointer self.old.rest.now self.new.rest.now (star_of p)) }
    {
        let Some(star) = self.take_mark(Punct::Star) else {
            return Ok(None);
        };
        let consts = self.take_consts()?;
        Ok(Some(Pointer { star, consts }))
    }

    /// Takes a string literal, where the next token is one.
    fn take_text(&mut self) -> Result<Option<TextPiece>, NoMemory>
        ensures { IfOk result (λ found. IsFront take_texts self.old.rest.now self.new.rest.now found) }
    {
        let rest = self.rest;
        let Some((first, others)) = rest.split_first() else {
            return Ok(None);
        };
        match &first.kind {
            TokenKind::Text(bytes) => {
                self.rest = others;
                let bytes = bytes.copy()?;
                Ok(Some(TextPiece {
                    bytes,
                    at: first.at,
                }))
            }
            TokenKind::Word(_)
            | TokenKind::Ident(_)
            | TokenKind::Number { .. }
            | TokenKind::Mark(_) => Ok(None),
        }
    }

    /// `text+`, whose first is taken already.
    pub fn take_texts(&mut self, first: TextPiece) -> Result<Vec<TextPiece>, NoMemory>
        ensures { IfOk result (λ v. IsRow (λ ts. with_front first (take_texts ts)) self.old.rest.now self.new.rest.now
            v.items) }
    {
        let mut pieces = Vec::new(self.alloc);
        push(&mut pieces, first)?;
        while let Some(piece) = self.take_text()? {
            push(&mut pieces, piece)?;
        }
        Ok(pieces)
    }
}
