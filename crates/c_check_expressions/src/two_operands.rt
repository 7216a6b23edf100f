//! The rows of two operands (C99 6.5.5 to 6.5.14 and 6.5.17).

ghost use Rattle.std.specs.Prelude.{◌≡◌, true, IfOk, IfSome};
ghost use Rattle.c_tree.specs.Erased.{boxed_of};
ghost use Rattle.c_tree.specs.Program.{value_type, Expression as Typed, Binary, And, Or, Comma};
ghost use Rattle.c_typing.specs.Constants.{is_integer_type};
ghost use Rattle.c_typing.specs.Rows.{binary_row, joined, row_at, types_of};
ghost use Rattle.c_check_expressions.specs.Judged.{IsJudged, IsOperand, IsOperandOf};
ghost use Rattle.c_check_expressions.specs.Operators.{joint_row, result_type};
ghost use Rattle.c_check_expressions.specs.declared.two_operands.Joint.TheVariants.{Evaluates};

use crate::constant::Constant;
use crate::judged::{Judged, Operand, misfits};
use crate::result_types::{
    of_conditions, of_difference, of_equality, of_numbers, of_order, of_shift, of_sum,
};
use c_operators::{Operator, working_type};
use c_syntax::BinaryOp as RawOp;
use c_tree::{BinaryOp, Expression, ValueType};
use pcc_base::{NoMemory, Span};
use std::alloc::Global;

/// An operator on two operands, with the type of its result.
fn binary_of(
    alloc: Global,
    of: ValueType,
    op: BinaryOp,
    left: Operand,
    right: Operand,
) -> Result<Operand, NoMemory>
    requires left { IsOperand left }
    requires right { IsOperand right }
    requires integer { is_integer_type (value_type (boxed_of left.tree)) ≡ true
        → is_integer_type (value_type (boxed_of right.tree)) ≡ true → is_integer_type of ≡ true }
    ensures { IfOk result (λ o.
        IsOperandOf (Binary of op (boxed_of left.tree) (boxed_of right.tree)) o) }
{
    let within = working_type(op, left.tree.value_type(), right.tree.value_type());
    let constant = left
        .constant
        .binary(Operator { op, within }, right.constant);
    let tree = Expression::binary(alloc, of, op, left.tree, right.tree)?;
    Ok(Operand { tree, constant })
}

/// An operator on two operands, where a row gives its type.
fn operated(
    alloc: Global,
    op: BinaryOp,
    of: Option<ValueType>,
    at: Span,
    left: Operand,
    right: Operand,
) -> Result<Judged<Operand>, NoMemory>
    requires left { IsOperand left }
    requires right { IsOperand right }
    requires integer { is_integer_type (value_type (boxed_of left.tree)) ≡ true
        → is_integer_type (value_type (boxed_of right.tree)) ≡ true
        → IfSome of (λ t. is_integer_type t ≡ true) }
    ensures { let a = boxed_of left.tree in let b = boxed_of right.tree in
        IfOk result (λ j. IsJudged (row_at at (types_of a b) of (λ t. Binary t op a b)) j) }
{
    match of {
        Some(of) => Ok(Judged::Fits(binary_of(alloc, of, op, left, right)?)),
        None => Ok(Judged::Fails(misfits(at, left, right))),
    }
}

/// `left && right`.
fn and_of(alloc: Global, left: Operand, right: Operand) -> Result<Operand, NoMemory>
    requires left { IsOperand left }
    requires right { IsOperand right }
    ensures { IfOk result (λ o. IsOperandOf (And (boxed_of left.tree) (boxed_of right.tree)) o) }
{
    let constant = left.constant.and(right.constant);
    let tree = Expression::and(alloc, left.tree, right.tree)?;
    Ok(Operand { tree, constant })
}

/// `left || right`.
fn or_of(alloc: Global, left: Operand, right: Operand) -> Result<Operand, NoMemory>
    requires left { IsOperand left }
    requires right { IsOperand right }
    ensures { IfOk result (λ o. IsOperandOf (Or (boxed_of left.tree) (boxed_of right.tree)) o) }
{
    let constant = left.constant.or(right.constant);
    let tree = Expression::or(alloc, left.tree, right.tree)?;
    Ok(Operand { tree, constant })
}

/// `left, right`, which is no constant expression.
fn comma_of(alloc: Global, left: Operand, right: Operand) -> Result<Operand, NoMemory>
    ensures { IfOk result (λ o. IsOperandOf (Comma (boxed_of left.tree) (boxed_of right.tree)) o) }
{
    let tree = Expression::comma(alloc, left.tree, right.tree)?;
    Ok(Operand {
        tree,
        constant: Constant::NotConstant,
    })
}

/// `&&` (C99 6.5.13).
fn and(alloc: Global, at: Span, left: Operand, right: Operand) -> Result<Judged<Operand>, NoMemory>
    requires left { IsOperand left }
    requires right { IsOperand right }
    ensures { let a = boxed_of left.tree in let b = boxed_of right.tree in
        IfOk result (λ j. IsJudged (joined And at a b) j) }
{
    match of_conditions(left.tree.value_type(), right.tree.value_type()) {
        Some(_) => Ok(Judged::Fits(and_of(alloc, left, right)?)),
        None => Ok(Judged::Fails(misfits(at, left, right))),
    }
}

/// `||` (C99 6.5.14).
fn or(alloc: Global, at: Span, left: Operand, right: Operand) -> Result<Judged<Operand>, NoMemory>
    requires left { IsOperand left }
    requires right { IsOperand right }
    ensures { let a = boxed_of left.tree in let b = boxed_of right.tree in
        IfOk result (λ j. IsJudged (joined Or at a b) j) }
{
    match of_conditions(left.tree.value_type(), right.tree.value_type()) {
        Some(_) => Ok(Judged::Fits(or_of(alloc, left, right)?)),
        None => Ok(Judged::Fails(misfits(at, left, right))),
    }
}

/// The type of an operator's result, where its row fits; whether each operand is the null constant stands beside its
/// type.
pub(crate) fn type_of(
    op: BinaryOp,
    t: ValueType,
    null: bool,
    u: ValueType,
    other: bool,
) -> Option<ValueType>
    ensures is { result ≡ result_type op t null u other }
    ensures integer { is_integer_type t ≡ true → is_integer_type u ≡ true
        → IfSome result (λ of. is_integer_type of ≡ true) }
{
    match op {
        BinaryOp::Multiply
        | BinaryOp::Divide
        | BinaryOp::Remainder
        | BinaryOp::BitAnd
        | BinaryOp::BitXor
        | BinaryOp::BitOr => of_numbers(t, u),
        BinaryOp::ShiftLeft | BinaryOp::ShiftRight => of_shift(t, u),
        BinaryOp::Add => of_sum(t, u),
        BinaryOp::Subtract => of_difference(t, u),
        BinaryOp::Less | BinaryOp::Greater | BinaryOp::LessOrEqual | BinaryOp::GreaterOrEqual =>
            of_order(t, u),
        BinaryOp::Equal | BinaryOp::NotEqual => of_equality(t, null, u, other),
    }
}

/// An operator between two operands that evaluates both (C99 6.5.5 to 6.5.12).
fn evaluated(
    alloc: Global,
    op: BinaryOp,
    at: Span,
    left: Operand,
    right: Operand,
) -> Result<Judged<Operand>, NoMemory>
    requires left { IsOperand left }
    requires right { IsOperand right }
    ensures { IfOk result (λ j. IsJudged
        (joint_row (Evaluates op) at (boxed_of left.tree) (boxed_of right.tree)) j) }
{
    let (t, u) = (left.tree.value_type(), right.tree.value_type());
    let of = type_of(op, t, left.constant.is_null(), u, right.constant.is_null());
    operated(alloc, op, of, at, left, right)
}

/// What an operator between two operands does in a typed tree.
enum Joint {
    /// It evaluates both operands.
    Evaluates(BinaryOp),
    And,
    Or,
    Comma,
}

/// What a raw operator does in a typed tree.
fn joint_of(op: RawOp) -> Joint
    ensures { (at : Span) (a b : Typed) → binary_row op at a b ≡ joint_row result at a b }
{
    match op {
        RawOp::Multiply => Joint::Evaluates(BinaryOp::Multiply),
        RawOp::Divide => Joint::Evaluates(BinaryOp::Divide),
        RawOp::Remainder => Joint::Evaluates(BinaryOp::Remainder),
        RawOp::Add => Joint::Evaluates(BinaryOp::Add),
        RawOp::Subtract => Joint::Evaluates(BinaryOp::Subtract),
        RawOp::ShiftLeft => Joint::Evaluates(BinaryOp::ShiftLeft),
        RawOp::ShiftRight => Joint::Evaluates(BinaryOp::ShiftRight),
        RawOp::Less => Joint::Evaluates(BinaryOp::Less),
        RawOp::Greater => Joint::Evaluates(BinaryOp::Greater),
        RawOp::LessEqual => Joint::Evaluates(BinaryOp::LessOrEqual),
        RawOp::GreaterEqual => Joint::Evaluates(BinaryOp::GreaterOrEqual),
        RawOp::Equal => Joint::Evaluates(BinaryOp::Equal),
        RawOp::NotEqual => Joint::Evaluates(BinaryOp::NotEqual),
        RawOp::BitAnd => Joint::Evaluates(BinaryOp::BitAnd),
        RawOp::BitXor => Joint::Evaluates(BinaryOp::BitXor),
        RawOp::BitOr => Joint::Evaluates(BinaryOp::BitOr),
        RawOp::LogicalAnd => Joint::And,
        RawOp::LogicalOr => Joint::Or,
        RawOp::Comma => Joint::Comma,
    }
}

/// An operator between two operands (C99 6.5.5 to 6.5.14 and 6.5.17).
pub fn binary(
    alloc: Global,
    op: RawOp,
    at: Span,
    left: Operand,
    right: Operand,
) -> Result<Judged<Operand>, NoMemory>
    requires left { IsOperand left }
    requires right { IsOperand right }
    ensures { IfOk result (λ j. IsJudged
        (binary_row op at (boxed_of left.tree) (boxed_of right.tree)) j) }
{
    match joint_of(op) {
        Joint::Evaluates(op) => evaluated(alloc, op, at, left, right),
        Joint::And => and(alloc, at, left, right),
        Joint::Or => or(alloc, at, left, right),
        Joint::Comma => Ok(Judged::Fits(comma_of(alloc, left, right)?)),
    }
}
