ghost use Rattle.std.specs.Prelude.{◌≡◌, ◌<◌, length, IfSome, IfNone, Some, None, [], ℕ, false, is_some};
ghost use Rattle.std.specs.Bool.{OnTrue, OnFalse};
ghost use Rattle.c_parse_expressions.specs.declared.parse_error.ParseError.TheVariants.{Fault as Faulty};
ghost use Rattle.c_grammar.specs.Taking.{take_mark, take_word, take_unary, take_step, take_assign, take_binary};
ghost use Rattle.c_grammar.specs.Taking.{take_specifiers};
ghost use Rattle.c_grammar.specs.Reading.{Readers, read_cast, read_unary};
ghost use Rattle.c_parse_expressions.specs.Readings.{IsTaken};
ghost use Rattle.c_parse_expressions.specs.Fronts.{BeginsWithSpecifier};
ghost use Rattle.c_parse_expressions.specs.Places.{front_place, front_begins};

use crate::casts::{begins_with_specifier, cast_at};
use crate::kinds::is_mark;
use crate::parse_error::ParseError;
use crate::token_operators::{
    NO_LEVEL, assign_of, begins_expression, binary_of, is_word, level_of, step_of, unary_of,
};
use c_lex::{Punct, Token};
use c_syntax::{AssignOp, BinaryOp, StepOp, UnaryOp};
use pcc_base::{Keyword, Span};
use std::alloc::Global;

/// A place in a list of tokens, from which a parser reads on.
#[derive(Drop)]
pub struct Cursor<'a> {
    pub alloc: Global,
    /// The tokens that are left.
    pub rest: &'a [Token],
}

impl Cursor<'_> {
    /// Takes this mark, where it is the next token.
    pub fn take_mark(&mut self, mark: Punct) -> Option<Span>
        ensures { IsTaken (take_mark mark) self.old.rest.now self.new.rest.now result }
    {
        let (first, others) = self.rest.split_first()?;
        if is_mark(&first.kind, mark) {
            self.rest = others;
            return Some(first.at);
        }
        None
    }

    /// Whether this mark is the next token.
    pub fn at_mark(&self, mark: Punct) -> bool
        ensures { result ≡ is_some (take_mark mark self.now.rest.now) }
    {
        match self.rest.first() {
            Some(token) => is_mark(&token.kind, mark),
            None => false,
        }
    }

    /// Whether a specifier is the next token.
    pub fn at_specifier(&self) -> bool
        ensures yes { OnTrue result (BeginsWithSpecifier self.now.rest.now) }
        ensures no { OnFalse result (take_specifiers self.now.rest.now ≡ ([], self.now.rest.now)) }
    {
        begins_with_specifier(self.rest)
    }

    /// Takes a `(` that begins a cast: a specifier stands behind it.
    pub(crate) fn take_cast(&mut self) -> Option<Span>
        ensures some { IfSome result (λ at. (take_mark Punct.LeftParen self.old.rest.now ≡ Some (at, self.new.rest.now))
            × BeginsWithSpecifier self.new.rest.now) }
        ensures none { IfNone result ((height : ℕ) (below : Readers) → read_cast height below self.old.rest.now
            ≡ read_unary height below self.old.rest.now) }
        ensures stays { IfNone result (self.new.rest.now ≡ self.old.rest.now) }
        ensures shorter { IfSome result (λ _. length self.new.rest.now < length self.old.rest.now) }
    {
        let (at, others) = cast_at(self.rest)?;
        self.rest = others;
        Some(at)
    }

    /// Takes this word, where it is the next token.
    pub fn take_word(&mut self, word: Keyword) -> Option<Span>
        ensures { IsTaken (take_word word) self.old.rest.now self.new.rest.now result }
    {
        let (first, others) = self.rest.split_first()?;
        if is_word(&first.kind, word) {
            self.rest = others;
            return Some(first.at);
        }
        None
    }

    /// Takes an operator before an operand, where the next token is one.
    pub fn take_unary(&mut self) -> Option<(UnaryOp, Span)>
        ensures { IsTaken take_unary self.old.rest.now self.new.rest.now result }
    {
        let (first, others) = self.rest.split_first()?;
        let op = unary_of(&first.kind)?;
        self.rest = others;
        Some((op, first.at))
    }

    /// Takes `++` or `--`, where the next token is one of them.
    pub fn take_step(&mut self) -> Option<(StepOp, Span)>
        ensures { IsTaken take_step self.old.rest.now self.new.rest.now result }
    {
        let (first, others) = self.rest.split_first()?;
        let op = step_of(&first.kind)?;
        self.rest = others;
        Some((op, first.at))
    }

    /// Takes an assignment operator, where the next token is one.
    pub fn take_assign(&mut self) -> Option<(AssignOp, Span)>
        ensures { IsTaken take_assign self.old.rest.now self.new.rest.now result }
    {
        let (first, others) = self.rest.split_first()?;
        let op = assign_of(&first.kind)?;
        self.rest = others;
        Some((op, first.at))
    }

    /// Takes an operator of this level, where the next token is one.
    pub fn take_binary(&mut self, level: usize) -> Option<(BinaryOp, Span)>
        ensures { IsTaken (take_binary level) self.old.rest.now self.new.rest.now result }
    {
        let (first, others) = self.rest.split_first()?;
        let op = binary_of(&first.kind, level)?;
        self.rest = others;
        Some((op, first.at))
    }

    /// The level of the operator between operands that comes next, or one that is above all where none does: no
    /// operator of a tighter level comes.
    pub(crate) fn next_level(&self) -> usize
        ensures { (k : ℕ) → k < result → take_binary k self.now.rest.now ≡ None }
    {
        match self.rest.first() {
            Some(token) => level_of(&token.kind),
            None => NO_LEVEL,
        }
    }

    /// The place of the next token, where there is one.
    pub fn place(&self) -> Option<Span>
        ensures { result ≡ front_place self.now.rest.now }
    {
        match self.rest.first() {
            Some(token) => Some(token.at),
            None => None,
        }
    }

    /// The fault at the next token, or at the end where there is none: nothing of any height goes on with it.
    pub fn fault(&self) -> ParseError
        ensures { result ≡ Faulty false (front_place self.now.rest.now) }
    {
        ParseError::Fault {
            deep: false,
            at: self.place(),
        }
    }

    /// The fault at the next token, where an expression would be needed and no height is left for one: it is deep where
    /// an expression may begin with the token.
    pub fn no_height(&self) -> ParseError
        ensures { result ≡ Faulty (front_begins self.now.rest.now) (front_place self.now.rest.now) }
    {
        let deep = match self.rest.first() {
            Some(token) => begins_expression(&token.kind),
            None => false,
        };
        ParseError::Fault {
            deep,
            at: self.place(),
        }
    }
}
