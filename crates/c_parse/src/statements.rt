//! Statements with statements in them. What stands before and behind those is read by `parts`.

ghost use Rattle.c_grammar.specs.Chains.{Found, then_read};
ghost use Rattle.c_grammar.specs.DeclarationReading.{read_declaration};
ghost use Rattle.c_syntax.specs.Statements.{stmt_of, Declared};
ghost use Rattle.c_grammar.specs.StatementReading.{read_statement, block_behind, else_from, if_behind, while_behind};
ghost use Rattle.c_grammar.specs.StatementReading.{do_behind, for_behind, switch_behind};
ghost use Rattle.c_grammar.specs.Taking.{take_word};
ghost use Rattle.c_parse_expressions.specs.Readings.{IsRead, IsPartRead};
ghost use Rattle.c_parse_expressions.specs.ExpressionReadings.{below};
ghost use Rattle.c_parse.specs.StatementParts.{below_node, boxed_of, closed_of, condition_of, fields_of, read_closed};

use crate::declarations::declaration;
use crate::jumps::boxed_simple;
use crate::labels::take_labels;
use crate::nodes::{
    block_node, declared_node, do_node, for_node, if_else_node, if_node, labelled_node, push_item,
    switch_node, while_node,
};
use crate::statement_parts::{
    Condition, StatementList, do_tail, for_head, no_item_height, parenthesised, switch_head,
};
use c_lex::Punct;
use c_parse_expressions::{Cursor, Height, ParseError};
use c_syntax::Statement;
use pcc_base::{Keyword, Span};

/// A statement below a node of this height; where there is none, the fault is that of a block's item.
pub(crate) fn statement_below(
    cursor: &mut Cursor<'_>,
    height: Height,
) -> Result<Statement, ParseError>
    ensures { IsRead stmt_of (below_node height.levels).statement cursor.old.rest.now cursor.new.rest.now result }
{
    let Some(lower) = height.lower() else {
        return Err(no_item_height(cursor));
    };
    statement(cursor, lower)
}

/// A statement of at most this height
pub fn statement(cursor: &mut Cursor<'_>, height: Height) -> Result<Statement, ParseError>
    ensures { IsRead stmt_of (read_statement (below_node height.levels)) cursor.old.rest.now
        cursor.new.rest.now result }
{
    let statement = any_statement(cursor, height)?;
    Ok(Box::into_inner(statement))
}

/// A statement in another one, of at most this height
#[cycle(statement)]
fn boxed_statement(cursor: &mut Cursor<'_>, lower: Height) -> Result<Box<Statement>, ParseError>
    ensures { IsRead boxed_of (fields_of lower.levels).statement cursor.old.rest.now cursor.new.rest.now result }
{
    any_statement(cursor, lower)
}

/// `declaration | statement`, in a block of this height
#[inline(never)]
#[cycle(statement)]
fn block_item(cursor: &mut Cursor<'_>, height: Height) -> Result<Box<Statement>, ParseError>
    ensures { IsRead boxed_of (below_node height.levels).item cursor.old.rest.now cursor.new.rest.now result }
{
    let Some(lower) = height.lower() else {
        return Err(no_item_height(cursor));
    };
    if cursor.at_specifier() {
        return declared(cursor, lower);
    }
    any_statement(cursor, lower)
}

/// A declaration of at most this height, as a statement
#[inline(never)]
fn declared(cursor: &mut Cursor<'_>, lower: Height) -> Result<Box<Statement>, ParseError>
    ensures { IsRead boxed_of (λ ts. then_read (read_declaration (below lower.levels) ts)
        (λ d us. Found (Declared d) us)) cursor.old.rest.now cursor.new.rest.now result }
{
    let declaration = declaration(cursor, lower)?;
    Ok(declared_node(cursor.alloc, declaration)?)
}

/// `label* statement`, of at most this height
#[inline(never)]
#[cycle(statement)]
fn labelled(cursor: &mut Cursor<'_>, lower: Height) -> Result<Box<Statement>, ParseError>
    ensures { IsRead boxed_of (fields_of lower.levels).labelled cursor.old.rest.now cursor.new.rest.now result }
{
    let list = take_labels(cursor, lower)?;
    let statement = boxed_statement(cursor, lower)?;
    Ok(labelled_node(cursor.alloc, list, statement)?)
}

/// `(declaration | statement)* '}'`, in a block of this height
#[inline(never)]
#[cycle(statement)]
fn block_items(cursor: &mut Cursor<'_>, height: Height) -> Result<StatementList, ParseError>
    ensures { IsRead closed_of (read_closed (below_node height.levels).item) cursor.old.rest.now
        cursor.new.rest.now result }
{
    let mut statements = Vec::new(cursor.alloc);
    'items: while !cursor.at_mark(Punct::RightBrace) {
        let item = block_item(cursor, height)?;
        push_item(&mut statements, item)?;
    }
    let Some(close) = cursor.take_mark(Punct::RightBrace) else {
        return Err(cursor.fault());
    };
    Ok(StatementList { statements, close })
}

/// `(label* statement)* '}'`, each statement of at most this height
#[inline(never)]
#[cycle(statement)]
fn switch_items(cursor: &mut Cursor<'_>, lower: Height) -> Result<StatementList, ParseError>
    ensures { IsRead closed_of (read_closed (fields_of lower.levels).labelled) cursor.old.rest.now
        cursor.new.rest.now result }
{
    let mut statements = Vec::new(cursor.alloc);
    'items: while !cursor.at_mark(Punct::RightBrace) {
        let item = labelled(cursor, lower)?;
        push_item(&mut statements, item)?;
    }
    let Some(close) = cursor.take_mark(Punct::RightBrace) else {
        return Err(cursor.fault());
    };
    Ok(StatementList { statements, close })
}

/// `block : '{' (declaration | statement)* '}'`, behind the `{`
#[inline(never)]
#[cycle(statement)]
fn block_behind(
    cursor: &mut Cursor<'_>,
    opening: Span,
    height: Height,
) -> Result<Box<Statement>, ParseError>
    ensures { IsRead boxed_of (block_behind (below_node height.levels) opening) cursor.old.rest.now
        cursor.new.rest.now result }
{
    let items = block_items(cursor, height)?;
    Ok(block_node(cursor.alloc, opening, items)?)
}

/// `'if' '(' expression ')' statement ('else' statement)?`, behind the word: the `else` belongs to the nearest
/// `if` that has none
#[inline(never)]
#[cycle(statement)]
fn if_behind(
    cursor: &mut Cursor<'_>,
    at: Span,
    height: Height,
) -> Result<Box<Statement>, ParseError>
    ensures { IsRead boxed_of (if_behind (below_node height.levels) at) cursor.old.rest.now
        cursor.new.rest.now result }
{
    let lower = height.below(at)?;
    let condition = parenthesised(cursor, lower)?;
    match boxed_statement(cursor, lower) {
        Ok(then) => else_behind(cursor, at, condition, then, lower),
        Err(error) => {
            drop(condition);
            Err(error)
        }
    }
}

/// `('else' statement)?`, behind an `if` with its condition and its statement: the other one of at most this height
#[inline(never)]
#[cycle(statement)]
fn else_behind(
    cursor: &mut Cursor<'_>,
    at: Span,
    condition: Condition,
    then: Box<Statement>,
    lower: Height,
) -> Result<Box<Statement>, ParseError>
    ensures { IsPartRead boxed_of
        (λ ts. else_from (fields_of lower.levels) at (condition_of condition) (stmt_of then.value)
        (take_word Keyword.Else ts) ts)
        cursor.old.rest.now cursor.new.rest.now result }
{
    let Some(otherwise) = cursor.take_word(Keyword::Else) else {
        return Ok(if_node(cursor.alloc, at, condition, then)?);
    };
    match boxed_statement(cursor, lower) {
        Ok(other) => Ok(if_else_node(cursor.alloc, at, condition, then, otherwise, other)?),
        Err(error) => {
            drop((condition, then));
            Err(error)
        }
    }
}

/// `'while' '(' expression ')' statement`, behind the word
#[inline(never)]
#[cycle(statement)]
fn while_behind(
    cursor: &mut Cursor<'_>,
    at: Span,
    height: Height,
) -> Result<Box<Statement>, ParseError>
    ensures { IsRead boxed_of (while_behind (below_node height.levels) at) cursor.old.rest.now
        cursor.new.rest.now result }
{
    let lower = height.below(at)?;
    let condition = parenthesised(cursor, lower)?;
    match boxed_statement(cursor, lower) {
        Ok(body) => Ok(while_node(cursor.alloc, at, condition, body)?),
        Err(error) => {
            drop(condition);
            Err(error)
        }
    }
}

/// `'do' statement 'while' '(' expression ')' ';'`, behind the first word
#[inline(never)]
#[cycle(statement)]
fn do_behind(
    cursor: &mut Cursor<'_>,
    at: Span,
    height: Height,
) -> Result<Box<Statement>, ParseError>
    ensures { IsRead boxed_of (do_behind (below_node height.levels) at) cursor.old.rest.now
        cursor.new.rest.now result }
{
    let lower = height.below(at)?;
    let body = boxed_statement(cursor, lower)?;
    match do_tail(cursor, lower) {
        Ok(tail) => Ok(do_node(cursor.alloc, at, body, tail)?),
        Err(error) => {
            drop(body);
            Err(error)
        }
    }
}

/// `'for' '(' (expression? ';' | declaration) expression? ';' expression? ')' statement`, behind the word
#[inline(never)]
#[cycle(statement)]
fn for_behind(
    cursor: &mut Cursor<'_>,
    at: Span,
    height: Height,
) -> Result<Box<Statement>, ParseError>
    ensures { IsRead boxed_of (for_behind (below_node height.levels) at) cursor.old.rest.now
        cursor.new.rest.now result }
{
    let lower = height.below(at)?;
    let head = for_head(cursor, height)?;
    match boxed_statement(cursor, lower) {
        Ok(body) => Ok(for_node(cursor.alloc, at, head, body)?),
        Err(error) => {
            drop(head);
            Err(error)
        }
    }
}

/// `'switch' '(' expression ')' '{' (label* statement)* '}'`, behind the word
#[inline(never)]
#[cycle(statement)]
fn switch_behind(
    cursor: &mut Cursor<'_>,
    at: Span,
    height: Height,
) -> Result<Box<Statement>, ParseError>
    ensures { IsRead boxed_of (switch_behind (below_node height.levels) at) cursor.old.rest.now
        cursor.new.rest.now result }
{
    let lower = height.below(at)?;
    let head = switch_head(cursor, lower)?;
    match switch_items(cursor, lower) {
        Ok(items) => Ok(switch_node(cursor.alloc, at, head, items)?),
        Err(error) => {
            drop(head);
            Err(error)
        }
    }
}

/// `statement : block | expression? ';' | 'if' .. | 'while' .. | 'do' .. | 'for' .. | 'switch' .. | 'break' ';' |
/// 'continue' ';' | 'return' expression? ';'` (C99 6.8)
#[cycle(statement)]
fn any_statement(cursor: &mut Cursor<'_>, height: Height) -> Result<Box<Statement>, ParseError>
    ensures { IsRead boxed_of (read_statement (below_node height.levels)) cursor.old.rest.now
        cursor.new.rest.now result }
{
    if let Some(opening) = cursor.take_mark(Punct::LeftBrace) {
        return block_behind(cursor, opening, height);
    }
    if let Some(at) = cursor.take_word(Keyword::If) {
        return if_behind(cursor, at, height);
    }
    if let Some(at) = cursor.take_word(Keyword::While) {
        return while_behind(cursor, at, height);
    }
    if let Some(at) = cursor.take_word(Keyword::Do) {
        return do_behind(cursor, at, height);
    }
    if let Some(at) = cursor.take_word(Keyword::For) {
        return for_behind(cursor, at, height);
    }
    if let Some(at) = cursor.take_word(Keyword::Switch) {
        return switch_behind(cursor, at, height);
    }
    boxed_simple(cursor, height)
}
