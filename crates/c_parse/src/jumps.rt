//! Statements without a statement in them.

ghost use Rattle.c_syntax.specs.Statements.{stmt_of};
ghost use Rattle.c_grammar.specs.Taking.{take_word};
ghost use Rattle.c_grammar.specs.StatementReading.{or_break, break_behind, continue_behind, return_behind, read_simple};
ghost use Rattle.c_parse_expressions.specs.Readings.{IsRead};
ghost use Rattle.c_parse.specs.StatementParts.{below_node, boxed_of};

use crate::nodes::{boxed, return_node, simple_node};
use crate::statement_parts::take_clause;
use c_lex::Punct;
use c_parse_expressions::{Cursor, Height, ParseError};
use c_syntax::Statement;
use pcc_base::{Keyword, Span};

/// `'break' ';'`, behind the word
fn break_behind(cursor: &mut Cursor<'_>, at: Span) -> Result<Statement, ParseError>
    ensures { IsRead stmt_of (break_behind at) cursor.old.rest.now cursor.new.rest.now result }
{
    let Some(semicolon) = cursor.take_mark(Punct::Semicolon) else {
        return Err(cursor.fault());
    };
    Ok(Statement::Break(at, semicolon))
}

/// `'continue' ';'`, behind the word
fn continue_behind(cursor: &mut Cursor<'_>, at: Span) -> Result<Statement, ParseError>
    ensures { IsRead stmt_of (continue_behind at) cursor.old.rest.now cursor.new.rest.now result }
{
    let Some(semicolon) = cursor.take_mark(Punct::Semicolon) else {
        return Err(cursor.fault());
    };
    Ok(Statement::Continue(at, semicolon))
}

/// `'return' expression? ';'`, behind the word
fn return_behind(cursor: &mut Cursor<'_>, at: Span, height: Height) -> Result<Statement, ParseError>
    ensures { IsRead stmt_of (return_behind (below_node height.levels) at) cursor.old.rest.now
        cursor.new.rest.now result }
{
    let clause = take_clause(cursor, Punct::Semicolon, height)?;
    Ok(return_node(at, clause))
}

/// `expression? ';'`
fn simple(cursor: &mut Cursor<'_>, height: Height) -> Result<Statement, ParseError>
    ensures { IsRead stmt_of (read_simple (below_node height.levels)) cursor.old.rest.now cursor.new.rest.now result }
{
    let clause = take_clause(cursor, Punct::Semicolon, height)?;
    Ok(simple_node(clause))
}

/// `'break' ';' | 'continue' ';' | 'return' expression? ';' | expression? ';'`
fn jump_or_simple(cursor: &mut Cursor<'_>, height: Height) -> Result<Statement, ParseError>
    ensures { IsRead stmt_of
        (λ ts. or_break (below_node height.levels) (take_word Keyword.Break ts) ts)
        cursor.old.rest.now cursor.new.rest.now result }
{
    if let Some(at) = cursor.take_word(Keyword::Break) {
        return break_behind(cursor, at);
    }
    if let Some(at) = cursor.take_word(Keyword::Continue) {
        return continue_behind(cursor, at);
    }
    if let Some(at) = cursor.take_word(Keyword::Return) {
        return return_behind(cursor, at, height);
    }
    simple(cursor, height)
}

/// The same in a box
#[inline(never)]
pub(crate) fn boxed_simple(
    cursor: &mut Cursor<'_>,
    height: Height,
) -> Result<Box<Statement>, ParseError>
    ensures { IsRead boxed_of
        (λ ts. or_break (below_node height.levels) (take_word Keyword.Break ts) ts)
        cursor.old.rest.now cursor.new.rest.now result }
{
    let statement = jump_or_simple(cursor, height)?;
    Ok(boxed(cursor.alloc, statement)?)
}
