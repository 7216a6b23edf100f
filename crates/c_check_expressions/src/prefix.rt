//! The operators before one operand (C99 6.5.3).

ghost use Rattle.std.specs.Prelude.{IfOk};
ghost use Rattle.c_tree.specs.Erased.{boxed_of};
ghost use Rattle.c_typing.specs.Rows.{unary_row};
ghost use Rattle.c_check_expressions.specs.Judged.{IsJudged, IsOperand};

use crate::judged::{Judged, Operand};
use crate::lvalues::{address, dereferenced};
use crate::one_operand::{negated, on_number};
use c_syntax::UnaryOp as RawOp;
use c_tree::UnaryOp;
use pcc_base::{NoMemory, Span};
use std::alloc::Global;

/// An operator before its operand (C99 6.5.3.2 and 6.5.3.3).
pub fn unary(
    alloc: Global,
    op: RawOp,
    at: Span,
    operand: Operand,
) -> Result<Judged<Operand>, NoMemory>
    requires { IsOperand operand }
    ensures { IfOk result (λ j. IsJudged (unary_row op at (boxed_of operand.tree)) j) }
{
    match op {
        RawOp::AddressOf => address(alloc, at, operand),
        RawOp::Dereference => dereferenced(alloc, at, operand),
        RawOp::Plus => on_number(alloc, UnaryOp::Plus, at, operand),
        RawOp::Minus => on_number(alloc, UnaryOp::Minus, at, operand),
        RawOp::Complement => on_number(alloc, UnaryOp::Complement, at, operand),
        RawOp::Not => negated(alloc, at, operand),
    }
}
