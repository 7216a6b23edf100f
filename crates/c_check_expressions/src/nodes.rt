//! Nodes of raw expressions, whose parts were judged.

ghost use Rattle.std.specs.Prelude.{◌≡◌, List, IfOk};
ghost use Rattle.c_syntax.specs.Expressions.{star_of};
ghost use Rattle.c_tree.specs.Program as typed;
ghost use Rattle.c_tree.specs.Program.{Expression as Typed};
ghost use Rattle.c_tree.specs.declared.types.IntegerType.TheVariants.{Int};
ghost use Rattle.c_typing.specs.Checked.{both, fits, if_fits, pair, Checked, Note};
ghost use Rattle.c_typing.specs.Expressions.{postfix_op, prefix_op, type_name};
ghost use Rattle.c_typing.specs.Rows.{cast_row, place_named, step_row};
ghost use Rattle.c_check_expressions.specs.Judged.{IsOperand, IsOperandOf};
ghost use Rattle.c_check_expressions.specs.Said.{AreOperandsOf, AreThreeOperandsOf, IfFits, IsSaid};

use crate::judged::{Judged, Operand};
use crate::least_faults::both;
use crate::named::number;
use crate::operators::{cast_of, step_of};
use crate::type_names::type_name;
use c_syntax::{Pointer, Specifier, StepOp};
use c_tree::StepOp as TypedStep;
use pcc_base::{NoMemory, Span};
use std::alloc::Global;

/// A number (C99 6.4.4).
pub(crate) fn constant(alloc: Global, value: i32) -> Result<Judged<Operand>, NoMemory>
    ensures { (before : List Note)
        → IfOk result (λ j. IsSaid IsOperandOf (fits (typed.Constant Int value)) j before before) }
{
    Ok(Judged::Fits(number(alloc, value)?))
}

/// `++` and `--` behind their operand.
fn postfix_op(op: StepOp) -> TypedStep
    ensures { result ≡ postfix_op op }
{
    match op {
        StepOp::Increment => TypedStep::PostIncrement,
        StepOp::Decrement => TypedStep::PostDecrement,
    }
}

/// `++` and `--` before their operand.
fn prefix_op(op: StepOp) -> TypedStep
    ensures { result ≡ prefix_op op }
{
    match op {
        StepOp::Increment => TypedStep::PreIncrement,
        StepOp::Decrement => TypedStep::PreDecrement,
    }
}

/// `operand++` and `operand--` (C99 6.5.2.4).
pub(crate) fn postfix_of(
    alloc: Global,
    op: StepOp,
    at: Span,
    part: Judged<Operand>,
) -> Result<Judged<Operand>, NoMemory>
    ensures { IfOk result (λ j. (c : Checked Typed) (before after : List Note)
        → IsSaid IsOperandOf c part before after
        → IsSaid IsOperandOf (if_fits c (λ e. step_row (postfix_op op) at (place_named e))) j before after) }
{
    step_of(alloc, postfix_op(op), at, part)
}

/// `++operand` and `--operand` (C99 6.5.3.1).
pub(crate) fn prefix_of(
    alloc: Global,
    op: StepOp,
    at: Span,
    part: Judged<Operand>,
) -> Result<Judged<Operand>, NoMemory>
    ensures { IfOk result (λ j. (c : Checked Typed) (before after : List Note)
        → IsSaid IsOperandOf c part before after
        → IsSaid IsOperandOf (if_fits c (λ e. step_row (prefix_op op) at (place_named e))) j before after) }
{
    step_of(alloc, prefix_op(op), at, part)
}

/// A cast (C99 6.5.4).
pub(crate) fn cast_to(
    alloc: Global,
    opening: Span,
    specifiers: &[Specifier],
    pointer: &Option<Pointer>,
    part: Judged<Operand>,
) -> Result<Judged<Operand>, NoMemory>
    requires { IfFits part IsOperand }
    ensures { IfOk result (λ j. (c : Checked Typed) (before after : List Note)
        → IsSaid IsOperandOf c part before after
        → IsSaid IsOperandOf (both (type_name opening specifiers.now (star_of pointer.now)) c (cast_row opening))
        j before after) }
{
    let named = type_name(opening, specifiers, pointer);
    cast_of(alloc, opening, both(named, part))
}

/// Two parts.
pub(crate) fn two_parts(
    first: Judged<Operand>,
    second: Judged<Operand>,
) -> Judged<(Operand, Operand)>
    ensures { (a b : Checked Typed) (before between after : List Note)
        → IsSaid IsOperandOf a first before between → IsSaid IsOperandOf b second between after
        → IsSaid AreOperandsOf (pair a b) result before after }
{
    both(first, second)
}

/// Three parts in turn.
fn in_turn(parts: Judged<((Operand, Operand), Operand)>) -> Judged<(Operand, (Operand, Operand))>
    ensures { (a b c : Checked Typed) (before after : List Note)
        → IsSaid (λ p q. AreOperandsOf p.0 q.0 × IsOperandOf p.1 q.1) (pair (pair a b) c) parts before after
        → IsSaid AreThreeOperandsOf (pair a (pair b c)) result before after }
{
    match parts {
        Judged::Fails(fault) => Judged::Fails(fault),
        Judged::Fits((front, third)) => {
            let (first, second) = front;
            Judged::Fits((first, (second, third)))
        }
    }
}

/// Three parts, of which the first two stand together.
pub(crate) fn three_parts(
    front: Judged<(Operand, Operand)>,
    third: Judged<Operand>,
) -> Judged<(Operand, (Operand, Operand))>
    ensures { (a b c : Checked Typed) (before between after : List Note)
        → IsSaid AreOperandsOf (pair a b) front before between → IsSaid IsOperandOf c third between after
        → IsSaid AreThreeOperandsOf (pair a (pair b c)) result before after }
{
    in_turn(both(front, third))
}
