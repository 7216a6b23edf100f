//! The rows of operators, where their parts fit.

ghost use Rattle.std.specs.Prelude.{List, IfOk};
ghost use Rattle.c_tree.specs.Program.{Expression as Typed};
ghost use Rattle.c_tree.specs.declared.types.ValueType.{ValueType as Type_};
ghost use Rattle.c_typing.specs.Checked.{Checked, Note, if_fits};
ghost use Rattle.c_typing.specs.Rows.{
  assignment_row,
  binary_row,
  cast_row,
  conditional_row,
  index_row,
  place_named,
  step_row,
  unary_row,
};
ghost use Rattle.c_check_expressions.specs.Judged.{IsOperand, IsOperandOf};
ghost use Rattle.c_check_expressions.specs.Said.{AreCastOf, AreOperandsOf, AreThreeOperandsOf, IfFits, IsSaid};

use crate::choice::conditional;
use crate::judged::{Judged, Operand};
use crate::lvalues::{assignment, index, step};
use crate::one_operand::cast;
use crate::prefix::unary;
use crate::two_operands::binary;
use c_syntax::{AssignOp, BinaryOp, UnaryOp};
use c_tree::{StepOp, ValueType};
use pcc_base::{NoMemory, Span};
use std::alloc::Global;

/// An operator before its operand (C99 6.5.3.2 and 6.5.3.3).
pub fn unary_of(
    alloc: Global,
    op: UnaryOp,
    at: Span,
    part: Judged<Operand>,
) -> Result<Judged<Operand>, NoMemory>
    requires { IfFits part IsOperand }
    ensures { IfOk result (λ j. (c : Checked Typed) (before after : List Note)
        → IsSaid IsOperandOf c part before after
        → IsSaid IsOperandOf (if_fits c (unary_row op at)) j before after) }
{
    match part {
        Judged::Fails(fault) => Ok(Judged::Fails(fault)),
        Judged::Fits(operand) => unary(alloc, op, at, operand),
    }
}

/// `++` and `--` (C99 6.5.2.4 and 6.5.3.1).
pub fn step_of(
    alloc: Global,
    op: StepOp,
    at: Span,
    part: Judged<Operand>,
) -> Result<Judged<Operand>, NoMemory>
    ensures { IfOk result (λ j. (c : Checked Typed) (before after : List Note)
        → IsSaid IsOperandOf c part before after
        → IsSaid IsOperandOf (if_fits c (λ e. step_row op at (place_named e))) j before after) }
{
    match part {
        Judged::Fails(fault) => Ok(Judged::Fails(fault)),
        Judged::Fits(operand) => step(alloc, op, at, operand),
    }
}

/// A cast to a type (C99 6.5.4).
pub(crate) fn cast_of(
    alloc: Global,
    at: Span,
    parts: Judged<(ValueType, Operand)>,
) -> Result<Judged<Operand>, NoMemory>
    requires { IfFits parts (λ p. IsOperand p.1) }
    ensures { IfOk result (λ j. (c : Checked (Type_ × Typed)) (before after : List Note)
        → IsSaid AreCastOf c parts before after
        → IsSaid IsOperandOf (if_fits c (λ v. cast_row at v.0 v.1)) j before after) }
{
    match parts {
        Judged::Fails(fault) => Ok(Judged::Fails(fault)),
        Judged::Fits((to, operand)) => cast(alloc, at, to, operand),
    }
}

/// `array[index]` (C99 6.5.2.1).
pub fn index_of(
    alloc: Global,
    at: Span,
    parts: Judged<(Operand, Operand)>,
) -> Result<Judged<Operand>, NoMemory>
    ensures { IfOk result (λ j. (c : Checked (Typed × Typed)) (before after : List Note)
        → IsSaid AreOperandsOf c parts before after
        → IsSaid IsOperandOf (if_fits c (λ v. index_row at v.0 v.1)) j before after) }
{
    match parts {
        Judged::Fails(fault) => Ok(Judged::Fails(fault)),
        Judged::Fits((array, place)) => index(alloc, at, array, place),
    }
}

/// An operator between two operands (C99 6.5.5 to 6.5.14 and 6.5.17).
pub fn binary_of(
    alloc: Global,
    op: BinaryOp,
    at: Span,
    parts: Judged<(Operand, Operand)>,
) -> Result<Judged<Operand>, NoMemory>
    requires { IfFits parts (λ p. IsOperand p.0 × IsOperand p.1) }
    ensures { IfOk result (λ j. (c : Checked (Typed × Typed)) (before after : List Note)
        → IsSaid AreOperandsOf c parts before after
        → IsSaid IsOperandOf (if_fits c (λ v. binary_row op at v.0 v.1)) j before after) }
{
    match parts {
        Judged::Fails(fault) => Ok(Judged::Fails(fault)),
        Judged::Fits((left, right)) => binary(alloc, op, at, left, right),
    }
}

/// `test ? first : second` (C99 6.5.15).
pub(crate) fn conditional_of(
    alloc: Global,
    at: Span,
    parts: Judged<(Operand, (Operand, Operand))>,
) -> Result<Judged<Operand>, NoMemory>
    requires { IfFits parts (λ p. IsOperand p.0 × (IsOperand p.1.0 × IsOperand p.1.1)) }
    ensures { IfOk result (λ j. (c : Checked (Typed × (Typed × Typed))) (before after : List Note)
        → IsSaid AreThreeOperandsOf c parts before after
        → IsSaid IsOperandOf (if_fits c (λ v. conditional_row at v.0 v.1.0 v.1.1)) j before after) }
{
    match parts {
        Judged::Fails(fault) => Ok(Judged::Fails(fault)),
        Judged::Fits((test, others)) => {
            let (first, second) = others;
            conditional(alloc, at, test, first, second)
        }
    }
}

/// An assignment (C99 6.5.16).
pub(crate) fn assignment_of(
    alloc: Global,
    op: AssignOp,
    at: Span,
    parts: Judged<(Operand, Operand)>,
) -> Result<Judged<Operand>, NoMemory>
    requires { IfFits parts (λ p. IsOperand p.1) }
    ensures { IfOk result (λ j. (c : Checked (Typed × Typed)) (before after : List Note)
        → IsSaid AreOperandsOf c parts before after
        → IsSaid IsOperandOf (if_fits c (λ v. assignment_row op at (place_named v.0) v.1)) j before after) }
{
    match parts {
        Judged::Fails(fault) => Ok(Judged::Fails(fault)),
        Judged::Fits((target, value)) => assignment(alloc, op, at, target, value),
    }
}
