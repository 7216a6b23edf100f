//! The walk over a raw expression, which judges each part once, in the order of the text.

ghost use Rattle.std.specs.Prelude.{◌≡◌, ◌&&◌, List, IfOk, map};
ghost use Rattle.c_syntax.specs.Expressions.{expr_of, exprs_of};
ghost use Rattle.c_tree.specs.Program.{Expression as Typed};
ghost use Rattle.c_typing.specs.Checked.{pair, Checked, Note};
ghost use Rattle.c_typing.specs.Expressions.{
  arguments_for,
  first_token,
  given,
  has_type,
  have_types,
  typed_expression,
};
ghost use Rattle.c_check_expressions.specs.Judged.{IsOperandOf};
ghost use Rattle.c_check_expressions.specs.Arguments.{for_parameter, one_behind, AreArguments, AreTrees};
ghost use Rattle.c_check_expressions.specs.Said.{AreOperandsOf, AreThreeOperandsOf, IsSaid};

use crate::arguments::{Arguments, no_arguments, one_more};
use crate::callees::{called, parameter_at, parameters_of};
use crate::judged::{Judged, Operand};
use crate::named::named;
use crate::nodes::{cast_to, constant, postfix_of, prefix_of, three_parts, two_parts};
use crate::notes::Notes;
use crate::operators::{assignment_of, binary_of, conditional_of, index_of, unary_of};
use crate::places::first_token;
use crate::texts::text;
use c_check_names::Scopes;
use c_syntax::Expression;
use c_tree::ValueType;
use pcc_base::NoMemory;
use std::alloc::Global;

/// The typed tree of an expression, or the least of its faults.
#[cycle(walked)]
pub(crate) fn walked(
    alloc: Global,
    scopes: &Scopes,
    e: &Expression,
    notes: &mut Notes,
) -> Result<Judged<Operand>, NoMemory>
    ensures { IfOk result (λ j. IsSaid IsOperandOf (typed_expression scopes.now (expr_of e.now)) j
        notes.old notes.new) }
{
    match e {
        Expression::Identifier(name) => named(alloc, scopes, notes, name),
        Expression::Number(value, _) => constant(alloc, *value),
        Expression::Text(pieces) => text(alloc, scopes, notes, pieces.as_slice()),
        Expression::Parenthesised(_, inner, _) => walked(alloc, scopes, inner, notes),
        Expression::Call(parts, arguments) => {
            let function = &parts.function;
            let meaning = scopes.meaning(&function.name);
            let parameters = parameters_of(meaning);
            let given = each_argument(alloc, scopes, arguments.as_slice(), parameters, notes)?;
            called(
                alloc,
                scopes,
                notes,
                function,
                meaning,
                given,
                arguments.len(),
            )
        }
        Expression::Index(base, opening, index, _) => {
            let first = walked(alloc, scopes, base, notes)?;
            let parts = and_second(alloc, scopes, index, first, notes)?;
            index_of(alloc, *opening, parts)
        }
        Expression::Postfix(base, op, at) => {
            let part = walked(alloc, scopes, base, notes)?;
            postfix_of(alloc, *op, *at, part)
        }
        Expression::Prefix(op, at, operand) => {
            let part = walked(alloc, scopes, operand, notes)?;
            prefix_of(alloc, *op, *at, part)
        }
        Expression::Unary(op, at, operand) => {
            let part = walked(alloc, scopes, operand, notes)?;
            unary_of(alloc, *op, *at, part)
        }
        Expression::Cast(of, operand) => {
            let part = walked(alloc, scopes, operand, notes)?;
            cast_to(
                alloc,
                of.opening,
                of.specifiers.as_slice(),
                &of.pointer,
                part,
            )
        }
        Expression::Binary(op, left, at, right) => {
            let first = walked(alloc, scopes, left, notes)?;
            let parts = and_second(alloc, scopes, right, first, notes)?;
            binary_of(alloc, *op, *at, parts)
        }
        Expression::Conditional {
            condition,
            question,
            first,
            second,
            ..
        } => {
            let test = walked(alloc, scopes, condition, notes)?;
            let front = and_second(alloc, scopes, first, test, notes)?;
            let parts = and_third(alloc, scopes, second, front, notes)?;
            conditional_of(alloc, *question, parts)
        }
        Expression::Assignment(op, left, at, right) => {
            let target = walked(alloc, scopes, left, notes)?;
            let parts = and_second(alloc, scopes, right, target, notes)?;
            assignment_of(alloc, *op, *at, parts)
        }
    }
}

/// One more part behind a first one.
#[cycle(walked)]
fn and_second(
    alloc: Global,
    scopes: &Scopes,
    e: &Expression,
    first: Judged<Operand>,
    notes: &mut Notes,
) -> Result<Judged<(Operand, Operand)>, NoMemory>
    ensures { IfOk result (λ j. (c : Checked Typed) (before : List Note)
        → IsSaid IsOperandOf c first before notes.old
        → IsSaid AreOperandsOf (pair c (typed_expression scopes.now (expr_of e.now))) j before notes.new) }
{
    match walked(alloc, scopes, e, notes) {
        Ok(second) => Ok(two_parts(first, second)),
        Err(refusal) => {
            drop(first);
            Err(refusal)
        }
    }
}

/// One more part behind two.
#[cycle(walked)]
fn and_third(
    alloc: Global,
    scopes: &Scopes,
    e: &Expression,
    front: Judged<(Operand, Operand)>,
    notes: &mut Notes,
) -> Result<Judged<(Operand, (Operand, Operand))>, NoMemory>
    ensures { IfOk result (λ j. (a b : Checked Typed) (before : List Note)
        → IsSaid AreOperandsOf (pair a b) front before notes.old
        → IsSaid AreThreeOperandsOf (pair a (pair b (typed_expression scopes.now (expr_of e.now)))) j
        before notes.new) }
{
    match walked(alloc, scopes, e, notes) {
        Ok(third) => Ok(three_parts(front, third)),
        Err(refusal) => {
            drop(front);
            Err(refusal)
        }
    }
}

/// One more argument behind others.
#[cycle(walked)]
fn and_argument(
    alloc: Global,
    scopes: &Scopes,
    e: &Expression,
    parameter: Option<ValueType>,
    so_far: Arguments,
    notes: &mut Notes,
) -> Result<Arguments, NoMemory>
    ensures said { IfOk result (λ r. (front : Checked (List Typed)) (before : List Note)
        → IsSaid AreTrees front so_far.values before notes.old
        → IsSaid AreTrees (one_behind front (for_parameter parameter (first_token (expr_of e.now))
        (typed_expression scopes.now (expr_of e.now)))) r.values before notes.new) }
    ensures typed { IfOk result (λ r.
        r.typed ≡ (so_far.typed && has_type (typed_expression scopes.now (expr_of e.now)))) }
{
    match walked(alloc, scopes, e, notes) {
        Ok(part) => one_more(so_far, parameter, first_token(e), part),
        Err(refusal) => {
            drop(so_far);
            Err(refusal)
        }
    }
}

/// The arguments of a call, each judged alone (C99 6.5.2.2).
#[cycle(walked)]
pub(crate) fn each_argument(
    alloc: Global,
    scopes: &Scopes,
    values: &[Expression],
    parameters: &[ValueType],
    notes: &mut Notes,
) -> Result<Arguments, NoMemory>
    ensures said { IfOk result (λ r. IsSaid AreArguments
        (arguments_for parameters.now (given scopes.now (exprs_of (map expr_of values.now))))
        r.values notes.old notes.new) }
    ensures typed { IfOk result (λ r.
        r.typed ≡ have_types (given scopes.now (exprs_of (map expr_of values.now)))) }
{
    let mut so_far = no_arguments(alloc);
    'arguments: for (index, value) in values.iter().enumerate() {
        let parameter = parameter_at(parameters, index);
        so_far = and_argument(alloc, scopes, value, parameter, so_far, notes)?;
    }
    Ok(so_far)
}
