//! Operands, and what comes of judging a part.

ghost use Rattle.std.specs.Prelude.{◌≡◌, [], ◌∷◌, false, IfOk, if◌then◌else◌};
ghost use Rattle.std.specs.List.{list_any};
ghost use Rattle.pcc_base.specs.declared.fault.FaultKind.TheVariants as kinds;
ghost use Rattle.c_tree.specs.Erased.{boxed_of, expression_of};
ghost use Rattle.c_tree.specs.Program.{value_type};
ghost use Rattle.c_typing.specs.Constants.{has_constant_form};
ghost use Rattle.c_typing.specs.Faults.{fault};
ghost use Rattle.c_typing.specs.Rows.{types_of};
ghost use Rattle.c_typing.specs.Types.{is_pointer};
ghost use Rattle.c_check_expressions.specs.Judged.{IsOperandOf};

use crate::constant::Constant;
use crate::result_types::is_pointer;
use c_tree::{Expression, ValueType};
use pcc_base::{Fault, FaultKind, NoMemory, Span};
use std::alloc::Global;

/// A typed expression, and what it is as an integer constant expression.
#[derive(Drop)]
pub struct Operand {
    pub tree: Box<Expression>,
    pub constant: Constant,
}

/// A part fits, or it has faults, of which this is the least.
#[derive(Drop)]
pub enum Judged<T> {
    Fits(T),
    Fails(Fault),
}

/// A tree that is no constant expression.
pub fn plain(tree: Box<Expression>) -> Operand
    requires { has_constant_form (boxed_of tree) ≡ false }
    ensures { IsOperandOf (boxed_of tree) result }
{
    Operand {
        tree,
        constant: Constant::NotConstant,
    }
}

/// The same of a tree that is in no box yet.
pub(crate) fn plain_node(alloc: Global, tree: Expression) -> Result<Operand, NoMemory>
    requires { has_constant_form (expression_of tree) ≡ false }
    ensures { IfOk result (λ o. IsOperandOf (expression_of tree) o) }
{
    Ok(plain(Box::new(alloc, tree)?))
}

/// The fault where no row fits: a pointer is among the types, or none.
pub(crate) fn misfit(at: Span, pointer: bool) -> Fault
    ensures { result ≡ fault (if pointer then kinds.PointerUse else kinds.TypeRule) at }
{
    let kind = if pointer {
        FaultKind::PointerUse
    } else {
        FaultKind::TypeRule
    };
    Fault { kind, at }
}

/// The fault of a type that fits no row.
pub(crate) fn misfit_one(at: Span, of: ValueType) -> Fault
    ensures { result
        ≡ fault (if list_any is_pointer (of ∷ []) then kinds.PointerUse else kinds.TypeRule) at }
{
    misfit(at, is_pointer(of))
}

/// The fault of two types that fit no row.
pub(crate) fn misfit_two(at: Span, t: ValueType, u: ValueType) -> Fault
    ensures { result
        ≡ fault (if list_any is_pointer (t ∷ u ∷ []) then kinds.PointerUse else kinds.TypeRule) at }
{
    misfit(at, is_pointer(t) || is_pointer(u))
}

/// The fault of three types that fit no row.
pub(crate) fn misfit_three(at: Span, t: ValueType, u: ValueType, v: ValueType) -> Fault
    ensures { result
        ≡ fault (if list_any is_pointer (t ∷ u ∷ v ∷ []) then kinds.PointerUse else kinds.TypeRule) at }
{
    misfit(at, is_pointer(t) || is_pointer(u) || is_pointer(v))
}

/// The fault of two operands that fit no row.
pub(crate) fn misfits(at: Span, left: Operand, right: Operand) -> Fault
    ensures { result
        ≡ fault (if list_any is_pointer (types_of (boxed_of left.tree) (boxed_of right.tree))
        then kinds.PointerUse else kinds.TypeRule) at }
{
    let (t, u) = (left.tree.value_type(), right.tree.value_type());
    drop(left);
    drop(right);
    misfit_two(at, t, u)
}
