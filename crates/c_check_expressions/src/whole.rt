//! Whole expressions.

ghost use Rattle.std.specs.Prelude.{[], IfOk, List, Some, map};
ghost use Rattle.c_syntax.specs.Declarations.{maybe_expr_of};
ghost use Rattle.c_syntax.specs.Expressions.{expr_of, exprs_of};
ghost use Rattle.c_tree.specs.Program.{Expression as Typed};
ghost use Rattle.c_typing.specs.Checked.{fits, if_fits, Checked, Note};
ghost use Rattle.c_typing.specs.Expressions.{arguments_for, given, typed_expression, typed_if_any};
ghost use Rattle.c_check_expressions.specs.Judged.{IsOperand, IsOperandOf};
ghost use Rattle.c_check_expressions.specs.Arguments.{AreArguments};
ghost use Rattle.c_check_expressions.specs.Said.{IfFits, IsSaid};
ghost use Rattle.c_check_expressions.specs.Maybe.{IsOperandIfAny, IsOperandWhere};

use crate::judged::{Judged, Operand};
use crate::notes::Notes;
use crate::walk::{each_argument, walked};
use c_check_names::Scopes;
use c_syntax::Expression;
use c_tree::Expression as Tree;
use pcc_base::NoMemory;
use std::alloc::Global;

/// The typed tree of an expression, or the least of its faults; where it fits, the notes grow by its own (C99 6.5).
pub fn expression(
    alloc: Global,
    scopes: &Scopes,
    e: &Expression,
    notes: &mut Notes,
) -> Result<Judged<Operand>, NoMemory>
    ensures said { IfOk result (λ j. IsSaid IsOperandOf (typed_expression scopes.now (expr_of e.now)) j
        notes.old notes.new) }
    ensures operand { IfOk result (λ j. IfFits j IsOperand) }
{
    walked(alloc, scopes, e, notes)
}

/// An expression where there is one.
fn some(part: Judged<Operand>) -> Judged<Option<Operand>>
    ensures said { (c : Checked Typed) (before after : List Note) → IsSaid IsOperandOf c part before after
        → IsSaid IsOperandIfAny (if_fits c (λ x. fits (Some x))) result before after }
    ensures operand { IfFits part IsOperand → IfFits result IsOperandWhere }
{
    match part {
        Judged::Fits(operand) => Judged::Fits(Some(operand)),
        Judged::Fails(fault) => Judged::Fails(fault),
    }
}

/// The same of an expression that may be absent.
pub fn expression_if_any(
    alloc: Global,
    scopes: &Scopes,
    e: &Option<Box<Expression>>,
    notes: &mut Notes,
) -> Result<Judged<Option<Operand>>, NoMemory>
    ensures said { IfOk result (λ j. IsSaid IsOperandIfAny (typed_if_any scopes.now (maybe_expr_of e.now)) j
        notes.old notes.new) }
    ensures operand { IfOk result (λ j. IfFits j IsOperandWhere) }
{
    match e {
        None => Ok(Judged::Fits(None)),
        Some(e) => Ok(some(expression(alloc, scopes, e, notes)?)),
    }
}

/// The typed trees of expressions that no type is asked of, each judged alone, or the least of their faults.
pub fn expressions(
    alloc: Global,
    scopes: &Scopes,
    values: &[Expression],
    notes: &mut Notes,
) -> Result<Judged<Vec<Tree>>, NoMemory>
    ensures { IfOk result (λ j. IsSaid AreArguments
        (arguments_for [] (given scopes.now (exprs_of (map expr_of values.now)))) j notes.old notes.new) }
{
    let alone = each_argument(alloc, scopes, values, &[], notes)?;
    Ok(alone.values)
}
