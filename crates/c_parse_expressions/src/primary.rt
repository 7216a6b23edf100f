//! The rules `postfix` and `primary`.

ghost use Rattle.std.specs.Prelude.{◌≡◌, ◌<◌, ◌≤◌, Some, length, suc, IfOk};
ghost use Rattle.c_grammar.specs.Chains as chains;
ghost use Rattle.c_grammar.specs.Chains.{then_read};
ghost use Rattle.c_syntax.specs.Expressions.{expr_of, exprs_of, Call};
ghost use Rattle.c_syntax.specs.ExpressionTokens.{expr_height};
ghost use Rattle.c_grammar.specs.Reading.{read_postfix, read_primary, read_arguments, suffix_step, value_step};
ghost use Rattle.c_grammar.specs.Reading.{call_from, index_from, parenthesised_from, readers, text_from};
ghost use Rattle.c_grammar.specs.Taking.{read_mark, take_mark, take_texts};
ghost use Rattle.c_parse_expressions.specs.ExpressionReadings.{IsReading, IsPartReading, IsTurn, AreValues, IsValuesTurn};
ghost use Rattle.c_parse_expressions.specs.ExpressionReadings.{below};
ghost use Rattle.c_parse_expressions.specs.Values.{values_of, height_of_values};
ghost use Rattle.c_parse_expressions.specs.declared.found.Found.{Found as Tree};
ghost use Rattle.c_parse_expressions.specs.Readings.{IsRead};

use crate::build::{one_more, one_value, parenthesised_node};
use crate::cursor::Cursor;
use crate::expression::{Rule, tree_of};
use crate::found::{Found, Values};
use crate::height::Height;
use crate::nodes::{call_node, identifier_node, index_node, number_node, postfix_node, text_node};
use crate::parse_error::ParseError;
use crate::turn::{Turn, ValuesTurn};
use c_lex::{Punct, TokenKind};
use c_syntax::{Identifier, TextPiece};
use pcc_base::{Name, NoMemory, Span};

/// `postfix : primary ('[' expression ']' | '++' | '--')*`
#[cycle(expression)]
pub(crate) fn postfix(cursor: &mut Cursor<'_>, height: Height) -> Result<Found, ParseError>
    ensures { IsReading height.levels (read_postfix height.levels (below height.levels)) cursor.old.rest.now
        cursor.new.rest.now result }
{
    let mut base = primary(cursor, height)?;
    'suffixes: loop {
        match suffix(cursor, base, height)? {
            Turn::More(more) => base = more,
            Turn::Last(last) => return Ok(last),
        }
    }
}

/// `'[' expression ']'`, `'++'` or `'--'`
#[tactic(auto, using(crate::proofs::Rooms::part_is_low, crate::proofs::Rooms::part_is_high))]
#[inline(never)]
#[cycle(expression)]
fn suffix(cursor: &mut Cursor<'_>, base: Found, height: Height) -> Result<Turn, ParseError>
    requires base { base.height ≡ expr_height (expr_of base.tree.value) }
    requires within { (0 < base.height) × (base.height ≤ height.levels) }
    ensures { IsTurn height.levels (suffix_step height.levels (below height.levels) (expr_of base.tree.value)
        cursor.old.rest.now)
        (expr_of base.tree.value) cursor.old.rest.now cursor.new.rest.now result }
{
    if let Some(opening) = cursor.take_mark(Punct::LeftBracket) {
        return index_behind(cursor, base, opening, height);
    }
    let Some((op, at)) = cursor.take_step() else {
        return Ok(Turn::Last(base));
    };
    if let Err(error) = height.above(base.height, at) {
        return Err(base.refused(error));
    }
    let more = postfix_node(cursor.alloc, base, op, at)?;
    Ok(Turn::More(more))
}

/// `expression ']'`, behind an expression and the `[`
#[tactic(auto, using(crate::proofs::Rooms::part_is_low, crate::proofs::Rooms::part_is_high))]
#[inline(never)]
#[cycle(expression)]
fn index_behind(
    cursor: &mut Cursor<'_>,
    base: Found,
    opening: Span,
    height: Height,
) -> Result<Turn, ParseError>
    requires base { base.height ≡ expr_height (expr_of base.tree.value) }
    requires within { (0 < base.height) × (base.height ≤ height.levels) }
    ensures { IsTurn height.levels (index_from height.levels (below height.levels) (expr_of base.tree.value) opening
        cursor.old.rest.now)
        (expr_of base.tree.value) cursor.old.rest.now cursor.new.rest.now result }
{
    let lower = match height.above(base.height, opening) {
        Ok(lower) => lower,
        Err(error) => return Err(base.refused(error)),
    };
    let index = match tree_of(cursor, Rule::Expression, lower) {
        Ok(index) => index,
        Err(error) => return Err(base.refused(error)),
    };
    let Some(close) = cursor.take_mark(Punct::RightBracket) else {
        drop(index);
        return Err(base.refused(cursor.fault()));
    };
    let more = index_node(cursor.alloc, base, opening, index, close)?;
    Ok(Turn::More(more))
}

/// `primary : ident | number | text+ | '(' expression ')' | ident '(' (assignment (',' assignment)*)? ')'`
#[inline(never)]
#[cycle(expression)]
fn primary(cursor: &mut Cursor<'_>, height: Height) -> Result<Found, ParseError>
    ensures { IsReading height.levels (read_primary (below height.levels)) cursor.old.rest.now
        cursor.new.rest.now result }
{
    let rest = cursor.rest;
    let Some((first, others)) = rest.split_first() else {
        return Err(cursor.fault());
    };
    let at = first.at;
    match &first.kind {
        TokenKind::Ident(name) => {
            cursor.rest = others;
            named(cursor, name, at, height)
        }
        TokenKind::Number { value, unsigned } => {
            if *unsigned {
                return Err(cursor.fault());
            }
            cursor.rest = others;
            Ok(number_node(cursor.alloc, *value, at)?)
        }
        TokenKind::Text(bytes) => {
            cursor.rest = others;
            Ok(texts(cursor, bytes, at)?)
        }
        TokenKind::Mark(mark) => {
            if Punct::LeftParen == *mark {
                cursor.rest = others;
                return parenthesised(cursor, at, height);
            }
            Err(cursor.fault())
        }
        TokenKind::Word(_) => Err(cursor.fault()),
    }
}

/// `'(' expression ')'`, behind the mark
#[tactic(auto, using(crate::proofs::Rooms::room_below, crate::proofs::Rooms::no_room_below))]
#[inline(never)]
#[cycle(expression)]
fn parenthesised(
    cursor: &mut Cursor<'_>,
    opening: Span,
    height: Height,
) -> Result<Found, ParseError>
    ensures { IsReading height.levels (parenthesised_from (below height.levels) opening) cursor.old.rest.now
        cursor.new.rest.now result }
{
    let lower = height.below(opening)?;
    let inner = tree_of(cursor, Rule::Expression, lower)?;
    let Some(close) = cursor.take_mark(Punct::RightParen) else {
        return Err(inner.refused(cursor.fault()));
    };
    Ok(parenthesised_node(cursor.alloc, opening, inner, close)?)
}

/// `text+`, whose first is taken already
#[inline(never)]
fn texts(cursor: &mut Cursor<'_>, first: &Name, at: Span) -> Result<Found, NoMemory>
    ensures read { IfOk result (λ f. text_from (record { bytes = first.now; at = at }) (take_texts cursor.old.rest.now)
        ≡ chains.Found (expr_of f.tree.value) cursor.new.rest.now) }
    ensures fewer { IfOk result (λ _. length cursor.new.rest.now ≤ length cursor.old.rest.now) }
    ensures height { IfOk result (λ f. (f.height ≡ 1) × (f.height ≡ expr_height (expr_of f.tree.value))) }
{
    let bytes = first.copy()?;
    let pieces = cursor.take_texts(TextPiece { bytes, at })?;
    text_node(cursor.alloc, pieces)
}

/// `ident` or `ident '(' (assignment (',' assignment)*)? ')'`, behind the identifier
#[inline(never)]
#[cycle(expression)]
fn named(
    cursor: &mut Cursor<'_>,
    name: &Name,
    at: Span,
    height: Height,
) -> Result<Found, ParseError>
    ensures { IsPartReading height.levels (λ ts. call_from (below height.levels) (record { name = name.now; at = at })
        (take_mark Punct.LeftParen ts) ts) cursor.old.rest.now cursor.new.rest.now result }
{
    let name = name.copy()?;
    let name = Identifier { name, at };
    let Some(opening) = cursor.take_mark(Punct::LeftParen) else {
        return Ok(identifier_node(cursor.alloc, name)?);
    };
    call_behind(cursor, name, opening, height)
}

/// `(assignment (',' assignment)*)? ')'`, behind the identifier and the `(`
#[inline(never)]
#[cycle(expression)]
fn call_behind(
    cursor: &mut Cursor<'_>,
    name: Identifier,
    opening: Span,
    height: Height,
) -> Result<Found, ParseError>
    ensures { IsReading height.levels (λ ts. call_from (below height.levels) name (Some (opening, ts)) ts)
        cursor.old.rest.now cursor.new.rest.now result }
{
    let arguments = arguments(cursor, height)?;
    let call = call_closed(cursor, name, opening, arguments)?;
    Ok(call)
}

/// `')'`, behind the arguments of a call
#[inline(never)]
fn call_closed(
    cursor: &mut Cursor<'_>,
    name: Identifier,
    opening: Span,
    arguments: Values,
) -> Result<Found, ParseError>
    requires arguments { arguments.height ≡ height_of_values arguments }
    requires within { arguments.height ≤ 256 }
    ensures read { IsRead (λ (f : Tree). expr_of f.tree.value) (λ ts. then_read (read_mark Punct.RightParen ts)
        (λ close us. chains.Found (Call name opening (exprs_of (values_of arguments).0) (values_of arguments).1 close) us))
        cursor.old.rest.now cursor.new.rest.now result }
    ensures height { IfOk result (λ f. (f.height ≡ expr_height (expr_of f.tree.value))
        × (f.height ≡ suc arguments.height)) }
{
    let Some(close) = cursor.take_mark(Punct::RightParen) else {
        return Err(arguments.refused(cursor.fault()));
    };
    Ok(call_node(cursor.alloc, name, opening, arguments, close)?)
}

/// `(assignment (',' assignment)*)?`, before a `)`
#[inline(never)]
#[cycle(expression)]
fn arguments(cursor: &mut Cursor<'_>, height: Height) -> Result<Values, ParseError>
    ensures { AreValues height.levels (read_arguments (below height.levels)) cursor.old.rest.now
        cursor.new.rest.now result }
{
    if cursor.at_mark(Punct::RightParen) {
        return Ok(Values {
            values: Vec::new(cursor.alloc),
            commas: Vec::new(cursor.alloc),
            height: 0,
        });
    }
    let Some(lower) = height.lower() else {
        return Err(cursor.no_height());
    };
    let first = tree_of(cursor, Rule::Assignment, lower)?;
    let mut values = one_value(cursor.alloc, first)?;
    'values: loop {
        match value(cursor, values, lower)? {
            ValuesTurn::MoreValues(more) => values = more,
            ValuesTurn::LastValues(last) => return Ok(last),
        }
    }
}

/// `',' assignment`, behind values, of at most this height
#[inline(never)]
#[cycle(expression)]
fn value(cursor: &mut Cursor<'_>, values: Values, lower: Height) -> Result<ValuesTurn, ParseError>
    requires values { values.height ≡ height_of_values values }
    requires within { values.height ≤ lower.levels }
    ensures { IsValuesTurn (suc lower.levels) (value_step (readers lower.levels) (values_of values) cursor.old.rest.now)
        (values_of values) cursor.old.rest.now cursor.new.rest.now result }
{
    let Some(comma) = cursor.take_mark(Punct::Comma) else {
        return Ok(ValuesTurn::LastValues(values));
    };
    match tree_of(cursor, Rule::Assignment, lower) {
        Ok(next) => Ok(ValuesTurn::MoreValues(one_more(values, comma, next)?)),
        Err(error) => Err(values.refused(error)),
    }
}
