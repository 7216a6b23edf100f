//! The rows of one operand (C99 6.5.3.3, 6.5.4), and of values that are assigned, tested or counted.

ghost use Rattle.std.specs.Prelude.{[], ◌∷◌, IfOk, if◌then◌else◌};
ghost use Rattle.c_tree.specs.Erased.{boxed_of};
ghost use Rattle.c_check_expressions.specs.Constants.{IsConstant};
ghost use Rattle.c_tree.specs.Program.{value_type, Expression as Typed, Unary, Cast};
ghost use Rattle.c_tree.specs.declared.expression.UnaryOp.TheVariants.{Not};
ghost use Rattle.c_tree.specs.declared.types.IntegerType.TheVariants.{Int};
ghost use Rattle.c_typing.specs.Checked.{fits};
ghost use Rattle.c_typing.specs.Rows.{assigned, cast_row, is_scalar, misfit, on_number, selected, tested};
ghost use Rattle.c_check_expressions.specs.Judged.{IsJudged, IsOperand, IsOperandOf};

use crate::constant::Constant;
use crate::judged::{Judged, Operand, misfit_one, misfit_two};
use crate::result_types::{can_assign, can_cast, is_scalar};
use c_operators::promoted;
use c_tree::{Expression, IntegerType, UnaryOp, ValueType};
use pcc_base::{NoMemory, Span};
use std::alloc::Global;

/// An operator on one operand, with the type of its result.
fn unary_of(
    alloc: Global,
    of: IntegerType,
    op: UnaryOp,
    operand: Operand,
) -> Result<Operand, NoMemory>
    requires { IsOperand operand }
    ensures { IfOk result (λ o. IsOperandOf (Unary of op (boxed_of operand.tree)) o) }
{
    let Operand { tree, constant } = operand;
    let tree = Expression::unary(alloc, of, op, tree)?;
    Ok(Operand {
        tree,
        constant: constant.unary(of, op),
    })
}

/// `+`, `-` and `~` (C99 6.5.3.3).
pub fn on_number(
    alloc: Global,
    op: UnaryOp,
    at: Span,
    operand: Operand,
) -> Result<Judged<Operand>, NoMemory>
    requires { IsOperand operand }
    ensures { IfOk result (λ j. IsJudged
        (on_number op at (value_type (boxed_of operand.tree)) (boxed_of operand.tree)) j) }
{
    match operand.tree.value_type() {
        ValueType::Integer(of) => Ok(Judged::Fits(unary_of(alloc, promoted(of), op, operand)?)),
        of => {
            drop(operand);
            Ok(Judged::Fails(misfit_one(at, of)))
        }
    }
}

/// `!` (C99 6.5.3.3).
pub fn negated(alloc: Global, at: Span, operand: Operand) -> Result<Judged<Operand>, NoMemory>
    requires { IsOperand operand }
    ensures { let e = boxed_of operand.tree in IfOk result (λ j. IsJudged
        (if is_scalar (value_type e) then fits (Unary Int Not e) else misfit at (value_type e ∷ [])) j) }
{
    let of = operand.tree.value_type();
    if is_scalar(of) {
        return Ok(Judged::Fits(unary_of(alloc, IntegerType::Int, UnaryOp::Not, operand)?));
    }
    drop(operand);
    Ok(Judged::Fails(misfit_one(at, of)))
}

/// What a cast to a type is as a constant: none where the type is no integer's.
fn constant_of(to: ValueType, constant: Constant) -> Constant
    ensures { (e : Typed) → IsConstant e constant → IsConstant (Cast to e) result }
{
    match to {
        ValueType::Integer(of) => constant.cast(of),
        ValueType::Void | ValueType::Pointer(_) => Constant::NotConstant,
    }
}

/// A cast, to a type that values can be cast to.
fn cast_of(alloc: Global, to: ValueType, operand: Operand) -> Result<Operand, NoMemory>
    requires { IsOperand operand }
    ensures { IfOk result (λ o. IsOperandOf (Cast to (boxed_of operand.tree)) o) }
{
    let Operand { tree, constant } = operand;
    let tree = Expression::cast(alloc, to, tree)?;
    Ok(Operand {
        tree,
        constant: constant_of(to, constant),
    })
}

/// A cast to a type (C99 6.5.4).
pub fn cast(
    alloc: Global,
    at: Span,
    to: ValueType,
    operand: Operand,
) -> Result<Judged<Operand>, NoMemory>
    requires { IsOperand operand }
    ensures { IfOk result (λ j. IsJudged (cast_row at to (boxed_of operand.tree)) j) }
{
    let from = operand.tree.value_type();
    if can_cast(to, from, operand.constant.is_null()) {
        return Ok(Judged::Fits(cast_of(alloc, to, operand)?));
    }
    drop(operand);
    Ok(Judged::Fails(misfit_two(at, to, from)))
}

/// An initialiser, argument or returned value (C99 6.5.2.2p7, 6.7.8p11 and 6.8.6.4p3).
pub fn assigned(to: ValueType, at: Span, operand: Operand) -> Judged<Operand>
    requires { IsOperand operand }
    ensures { IsJudged (assigned to at (boxed_of operand.tree)) result }
{
    let from = operand.tree.value_type();
    if can_assign(to, from, operand.constant.is_null()) {
        return Judged::Fits(operand);
    }
    drop(operand);
    Judged::Fails(misfit_two(at, to, from))
}

/// A condition (C99 6.8.4.1p1 and 6.8.5p2).
pub fn tested(at: Span, operand: Operand) -> Judged<Operand>
    requires { IsOperand operand }
    ensures { IsJudged (tested at (boxed_of operand.tree)) result }
{
    let of = operand.tree.value_type();
    if is_scalar(of) {
        return Judged::Fits(operand);
    }
    drop(operand);
    Judged::Fails(misfit_one(at, of))
}

/// The value of a switch (C99 6.8.4.2p1).
pub fn selected(at: Span, operand: Operand) -> Judged<Operand>
    requires { IsOperand operand }
    ensures { IsJudged (selected (value_type (boxed_of operand.tree)) at (boxed_of operand.tree)) result }
{
    match operand.tree.value_type() {
        ValueType::Integer(_) => Judged::Fits(operand),
        of => {
            drop(operand);
            Judged::Fails(misfit_one(at, of))
        }
    }
}
