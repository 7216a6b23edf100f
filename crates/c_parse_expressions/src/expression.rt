//! The rules from `expression` down to `unary`.

ghost use Rattle.std.specs.Prelude.{◌≡◌, ◌<◌, ◌≤◌, ◌-◌, nat_le, Some};
ghost use Rattle.c_syntax.specs.Expressions.{expr_of};
ghost use Rattle.c_syntax.specs.ExpressionTokens.{expr_height, looseness};
ghost use Rattle.c_grammar.specs.Reading.{read_expression, read_assignment, read_conditional, read_binary, read_cast};
ghost use Rattle.c_grammar.specs.Reading.{read_unary, infix_step, infix_from, assignment_from, conditional_from};
ghost use Rattle.c_grammar.specs.Reading.{cast_inside, prefix_from, unary_from, readers};
ghost use Rattle.c_grammar.specs.Chains.{chained};
ghost use Rattle.c_parse_expressions.specs.ExpressionReadings.{IsReading, IsPartReading, IsTurn, IsRule, below, reader_of};

use crate::build::binary_node;
use crate::cursor::Cursor;
use crate::found::Found;
use crate::height::Height;
use crate::nodes::{assignment_node, cast_node, conditional_node, prefix_node, unary_node};
use crate::parse_error::ParseError;
use crate::primary::postfix;
use crate::turn::Turn;
use c_lex::Punct;
use c_syntax::{AssignOp, BinaryOp, Expression, StepOp, UnaryOp};
use pcc_base::Span;

/// The level of the loosest operators of `binary`.
const LOOSEST: usize = 10;

/// The level of the comma operator.
const COMMA: usize = 13;

/// A rule whose trees stand below nodes of other rules.
#[derive(Clone, Copy)]
pub enum Rule {
    Expression,
    Assignment,
    Conditional,
    /// `binary`, from the level with this number on
    Binary(usize),
    Cast,
    Unary,
}

/// Whether an expression is one of the rule `unary`.
fn is_unary(e: &Expression) -> bool
    ensures { result ≡ nat_le (looseness (expr_of e.now)) 2 }
{
    match e {
        Expression::Identifier(_)
        | Expression::Number(_, _)
        | Expression::Text(_)
        | Expression::Parenthesised(_, _, _)
        | Expression::Call(_, _)
        | Expression::Index(_, _, _, _)
        | Expression::Postfix(_, _, _)
        | Expression::Prefix(_, _, _)
        | Expression::Unary(_, _, _) => true,
        Expression::Cast(_, _)
        | Expression::Binary(_, _, _, _)
        | Expression::Conditional { .. }
        | Expression::Assignment(_, _, _, _) => false,
    }
}

/// A tree of a rule, of at most this height.
#[cycle(expression)]
pub fn tree_of(cursor: &mut Cursor<'_>, rule: Rule, height: Height) -> Result<Found, ParseError>
    requires { IsRule rule }
    ensures { IsReading height.levels (reader_of rule (readers height.levels)) cursor.old.rest.now
        cursor.new.rest.now result }
{
    match rule {
        Rule::Expression => expression(cursor, height),
        Rule::Assignment => assignment(cursor, height),
        Rule::Conditional => conditional(cursor, height),
        Rule::Binary(level) => binary(cursor, level, height),
        Rule::Cast => cast(cursor, height),
        Rule::Unary => unary(cursor, height),
    }
}

/// `expression : assignment (',' assignment)*`
#[cycle(expression)]
pub fn expression(cursor: &mut Cursor<'_>, height: Height) -> Result<Found, ParseError>
    ensures { IsReading height.levels (read_expression height.levels (below height.levels)) cursor.old.rest.now
        cursor.new.rest.now result }
{
    let mut left = assignment(cursor, height)?;
    'operators: loop {
        match comma(cursor, left, height)? {
            Turn::More(more) => left = more,
            Turn::Last(last) => return Ok(last),
        }
    }
}

/// The right operand of an operator, a tree of this rule, behind the left one and the operator
#[tactic(auto, using(crate::proofs::Rooms::part_is_low, crate::proofs::Rooms::part_is_high))]
#[inline(never)]
#[cycle(expression)]
fn infix_behind(
    cursor: &mut Cursor<'_>,
    left: Found,
    op: BinaryOp,
    at: Span,
    rule: Rule,
    height: Height,
) -> Result<Turn, ParseError>
    requires rule { IsRule rule }
    requires left { left.height ≡ expr_height (expr_of left.tree.value) }
    requires within { (0 < left.height) × (left.height ≤ height.levels) }
    ensures { IsTurn height.levels (infix_from height.levels (reader_of rule (below height.levels))
        (expr_of left.tree.value) (Some ((op, at), cursor.old.rest.now)))
        (expr_of left.tree.value) cursor.old.rest.now cursor.new.rest.now result }
{
    let lower = match height.above(left.height, at) {
        Ok(lower) => lower,
        Err(error) => return Err(left.refused(error)),
    };
    match tree_of(cursor, rule, lower) {
        Ok(right) => Ok(Turn::More(binary_node(cursor.alloc, op, left, at, right)?)),
        Err(error) => Err(left.refused(error)),
    }
}

/// `',' assignment`
#[cycle(expression)]
fn comma(cursor: &mut Cursor<'_>, left: Found, height: Height) -> Result<Turn, ParseError>
    requires left { left.height ≡ expr_height (expr_of left.tree.value) }
    requires within { (0 < left.height) × (left.height ≤ height.levels) }
    ensures { IsTurn height.levels (infix_step 13 height.levels (below height.levels).assignment
        (expr_of left.tree.value) cursor.old.rest.now)
        (expr_of left.tree.value) cursor.old.rest.now cursor.new.rest.now result }
{
    let Some((op, at)) = cursor.take_binary(COMMA) else {
        return Ok(Turn::Last(left));
    };
    infix_behind(cursor, left, op, at, Rule::Assignment, height)
}

/// `assignment : conditional | unary assign-op assignment`
#[cycle(expression)]
pub fn assignment(cursor: &mut Cursor<'_>, height: Height) -> Result<Found, ParseError>
    ensures { IsReading height.levels (read_assignment height.levels (below height.levels)) cursor.old.rest.now
        cursor.new.rest.now result }
{
    let left = conditional(cursor, height)?;
    let Some((op, at)) = cursor.take_assign() else {
        return Ok(left);
    };
    assignment_behind(cursor, left, op, at, height)
}

/// `assignment`, behind an expression and an assignment operator
#[tactic(auto, using(crate::proofs::Rooms::part_is_low, crate::proofs::Rooms::part_is_high))]
#[inline(never)]
#[cycle(expression)]
fn assignment_behind(
    cursor: &mut Cursor<'_>,
    left: Found,
    op: AssignOp,
    at: Span,
    height: Height,
) -> Result<Found, ParseError>
    requires left { left.height ≡ expr_height (expr_of left.tree.value) }
    requires within { (0 < left.height) × (left.height ≤ height.levels) }
    ensures { IsReading height.levels (λ ts. assignment_from height.levels (below height.levels)
        (expr_of left.tree.value) (Some ((op, at), ts)) ts) cursor.old.rest.now cursor.new.rest.now result }
{
    if !is_unary(&left.tree) {
        return Err(left.refused(ParseError::Fault {
            deep: false,
            at: Some(at),
        }));
    }
    let lower = match height.above(left.height, at) {
        Ok(lower) => lower,
        Err(error) => return Err(left.refused(error)),
    };
    match tree_of(cursor, Rule::Assignment, lower) {
        Ok(right) => Ok(assignment_node(cursor.alloc, op, left, at, right)?),
        Err(error) => Err(left.refused(error)),
    }
}

/// `conditional : binary ('?' expression ':' conditional)?`
#[cycle(expression)]
pub fn conditional(cursor: &mut Cursor<'_>, height: Height) -> Result<Found, ParseError>
    ensures { IsReading height.levels (read_conditional height.levels (below height.levels)) cursor.old.rest.now
        cursor.new.rest.now result }
{
    let condition = binary(cursor, LOOSEST, height)?;
    let Some(question) = cursor.take_mark(Punct::Question) else {
        return Ok(condition);
    };
    conditional_behind(cursor, condition, question, height)
}

/// `expression ':' conditional`, behind a condition and the `?`
#[tactic(auto, using(crate::proofs::Rooms::part_is_low, crate::proofs::Rooms::part_is_high))]
#[inline(never)]
#[cycle(expression)]
fn conditional_behind(
    cursor: &mut Cursor<'_>,
    condition: Found,
    question: Span,
    height: Height,
) -> Result<Found, ParseError>
    requires condition { condition.height ≡ expr_height (expr_of condition.tree.value) }
    requires within { (0 < condition.height) × (condition.height ≤ height.levels) }
    ensures { IsReading height.levels (λ ts. conditional_from height.levels (below height.levels)
        (expr_of condition.tree.value) (Some (question, ts)) ts) cursor.old.rest.now cursor.new.rest.now result }
{
    let lower = match height.above(condition.height, question) {
        Ok(lower) => lower,
        Err(error) => return Err(condition.refused(error)),
    };
    let first = match tree_of(cursor, Rule::Expression, lower) {
        Ok(first) => first,
        Err(error) => return Err(condition.refused(error)),
    };
    let Some(colon) = cursor.take_mark(Punct::Colon) else {
        drop(first);
        return Err(condition.refused(cursor.fault()));
    };
    match tree_of(cursor, Rule::Conditional, lower) {
        Ok(second) => Ok(conditional_node(
            cursor.alloc,
            condition,
            question,
            first,
            colon,
            second,
        )?),
        Err(error) => {
            drop(first);
            Err(condition.refused(error))
        }
    }
}

/// `binary`, from the level with this number on, which counts from the tightest; level 0 is `cast`. The levels that
/// have no operator here are passed over.
#[cycle(expression)]
fn binary(cursor: &mut Cursor<'_>, level: usize, height: Height) -> Result<Found, ParseError>
    requires level { level ≤ 10 }
    ensures { IsReading height.levels (read_binary height.levels (below height.levels) level) cursor.old.rest.now
        cursor.new.rest.now result }
{
    let mut left = cast(cursor, height)?;
    let mut reached = 0;
    'levels: while reached < level {
        let next = cursor.next_level();
        if next > level {
            return Ok(left);
        }
        if next > reached {
            reached = next;
        } else {
            reached += 1;
        }
        left = operators(cursor, left, reached, height)?;
    }
    Ok(left)
}

/// The operators of a level, with their right operands, behind an operand
#[cycle(expression)]
fn operators(
    cursor: &mut Cursor<'_>,
    operand: Found,
    level: usize,
    height: Height,
) -> Result<Found, ParseError>
    requires bottom { 0 < level }
    requires top { level ≤ 10 }
    requires operand { operand.height ≡ expr_height (expr_of operand.tree.value) }
    requires within { (0 < operand.height) × (operand.height ≤ height.levels) }
    ensures { IsPartReading height.levels (λ ts. chained (infix_step level height.levels
        ((below height.levels).binary (level - 1))) (expr_of operand.tree.value) ts)
        cursor.old.rest.now cursor.new.rest.now result }
{
    let mut left = operand;
    'operators: loop {
        match operator(cursor, left, level, height)? {
            Turn::More(more) => left = more,
            Turn::Last(last) => return Ok(last),
        }
    }
}

/// An operator of a level, and its right operand
#[cycle(expression)]
fn operator(
    cursor: &mut Cursor<'_>,
    left: Found,
    level: usize,
    height: Height,
) -> Result<Turn, ParseError>
    requires bottom { 0 < level }
    requires top { level ≤ 10 }
    requires left { left.height ≡ expr_height (expr_of left.tree.value) }
    requires within { (0 < left.height) × (left.height ≤ height.levels) }
    ensures { IsTurn height.levels (infix_step level height.levels ((below height.levels).binary (level - 1))
        (expr_of left.tree.value) cursor.old.rest.now)
        (expr_of left.tree.value) cursor.old.rest.now cursor.new.rest.now result }
{
    let Some((op, at)) = cursor.take_binary(level) else {
        return Ok(Turn::Last(left));
    };
    infix_behind(cursor, left, op, at, Rule::Binary(level - 1), height)
}

/// `cast : unary | '(' specifiers pointer? ')' cast`
#[cycle(expression)]
fn cast(cursor: &mut Cursor<'_>, height: Height) -> Result<Found, ParseError>
    ensures { IsReading height.levels (read_cast height.levels (below height.levels)) cursor.old.rest.now
        cursor.new.rest.now result }
{
    let Some(opening) = cursor.take_cast() else {
        return unary(cursor, height);
    };
    cast_behind(cursor, opening, height)
}

/// `specifiers pointer? ')' cast`, behind the `(`
#[tactic(auto, using(crate::proofs::Rooms::room_below, crate::proofs::Rooms::no_room_below))]
#[inline(never)]
#[cycle(expression)]
fn cast_behind(cursor: &mut Cursor<'_>, opening: Span, height: Height) -> Result<Found, ParseError>
    ensures { IsReading height.levels (cast_inside (below height.levels) opening) cursor.old.rest.now
        cursor.new.rest.now result }
{
    let lower = height.below(opening)?;
    let specifiers = cursor.take_specifiers()?;
    let pointer = cursor.take_pointer()?;
    let Some(close) = cursor.take_mark(Punct::RightParen) else {
        return Err(cursor.fault());
    };
    let operand = tree_of(cursor, Rule::Cast, lower)?;
    Ok(cast_node(cursor.alloc, opening, specifiers, pointer, close, operand)?)
}

/// `unary : postfix | ('++' | '--') unary | ('&' | '*' | '+' | '-' | '~' | '!') cast`
#[cycle(expression)]
fn unary(cursor: &mut Cursor<'_>, height: Height) -> Result<Found, ParseError>
    ensures { IsReading height.levels (read_unary height.levels (below height.levels)) cursor.old.rest.now
        cursor.new.rest.now result }
{
    if let Some((op, at)) = cursor.take_step() {
        return prefix_behind(cursor, op, at, height);
    }
    if let Some((op, at)) = cursor.take_unary() {
        return unary_behind(cursor, op, at, height);
    }
    postfix(cursor, height)
}

/// `unary`, behind `++` or `--`
#[tactic(auto, using(crate::proofs::Rooms::room_below, crate::proofs::Rooms::no_room_below))]
#[inline(never)]
#[cycle(expression)]
fn prefix_behind(
    cursor: &mut Cursor<'_>,
    op: StepOp,
    at: Span,
    height: Height,
) -> Result<Found, ParseError>
    ensures { IsReading height.levels (λ ts. prefix_from height.levels (below height.levels) (Some ((op, at), ts)) ts)
        cursor.old.rest.now cursor.new.rest.now result }
{
    let lower = height.below(at)?;
    let operand = tree_of(cursor, Rule::Unary, lower)?;
    Ok(prefix_node(cursor.alloc, op, at, operand)?)
}

/// `cast`, behind an operator before an operand
#[tactic(auto, using(crate::proofs::Rooms::room_below, crate::proofs::Rooms::no_room_below))]
#[inline(never)]
#[cycle(expression)]
fn unary_behind(
    cursor: &mut Cursor<'_>,
    op: UnaryOp,
    at: Span,
    height: Height,
) -> Result<Found, ParseError>
    ensures { IsReading height.levels (λ ts. unary_from height.levels (below height.levels) (Some ((op, at), ts)) ts)
        cursor.old.rest.now cursor.new.rest.now result }
{
    let lower = height.below(at)?;
    let operand = tree_of(cursor, Rule::Cast, lower)?;
    Ok(unary_node(cursor.alloc, op, at, operand)?)
}
