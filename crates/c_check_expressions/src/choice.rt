//! `?:` (C99 6.5.15).

ghost use Rattle.std.specs.Prelude.{◌≡◌, ◌∷◌, true, None, IfOk, IfSome, if◌then◌else◌};
ghost use Rattle.std.specs.List.{list_any};
ghost use Rattle.pcc_base.specs.declared.fault.FaultKind.TheVariants as kinds;
ghost use Rattle.c_check_expressions.specs.Constants.{IsConstant};
ghost use Rattle.c_tree.specs.Erased.{boxed_of};
ghost use Rattle.c_tree.specs.Program.{value_type, Expression as Typed, Conditional};
ghost use Rattle.c_typing.specs.Constants.{is_integer_type, is_null};
ghost use Rattle.c_typing.specs.Faults.{fault};
ghost use Rattle.c_typing.specs.Rows.{conditional_row, is_scalar, of_choice, types_of};
ghost use Rattle.c_typing.specs.Types.{is_pointer};
ghost use Rattle.c_check_expressions.specs.Judged.{IsIntegral, IsJudged, IsOperand, IsOperandOf};

use crate::constant::Constant;
use crate::judged::{Judged, Operand, misfit_three};
use crate::result_types::{is_scalar, of_choice};
use c_tree::{Expression, ValueType};
use pcc_base::{Fault, NoMemory, Span};
use std::alloc::Global;

/// What `?:` of a type is as a constant: none where it is no integer.
#[tactic(auto, using(crate::proofs::Operands::not_constant))]
fn constant_of(of: ValueType, test: Constant, first: Constant, second: Constant) -> Constant
    ensures { (t a b : Typed) → IsConstant t test → IsConstant a first → IsConstant b second
        → (is_integer_type (value_type a) ≡ true → is_integer_type (value_type b) ≡ true
        → is_integer_type of ≡ true)
        → IsIntegral a → IsIntegral b → IsConstant (Conditional of t a b) result }
{
    match of {
        ValueType::Integer(of) => test.conditional(of, first, second),
        ValueType::Void | ValueType::Pointer(_) => Constant::NotConstant,
    }
}

/// `test ? first : second`, with its type.
fn conditional_of(
    alloc: Global,
    of: ValueType,
    test: Operand,
    first: Operand,
    second: Operand,
) -> Result<Operand, NoMemory>
    requires test { IsOperand test }
    requires first { IsOperand first }
    requires second { IsOperand second }
    requires integer { is_integer_type (value_type (boxed_of first.tree)) ≡ true
        → is_integer_type (value_type (boxed_of second.tree)) ≡ true → is_integer_type of ≡ true }
    ensures { IfOk result (λ o. IsOperandOf (Conditional of (boxed_of test.tree)
        (boxed_of first.tree) (boxed_of second.tree)) o) }
{
    let constant = constant_of(of, test.constant, first.constant, second.constant);
    let tree = Expression::conditional(alloc, of, test.tree, first.tree, second.tree)?;
    Ok(Operand { tree, constant })
}

/// The fault where the types of `test ? first : second` fit no row.
fn misfits(at: Span, test: Operand, first: Operand, second: Operand) -> Fault
    ensures { result ≡ fault (if list_any is_pointer (value_type (boxed_of test.tree)
        ∷ types_of (boxed_of first.tree) (boxed_of second.tree))
        then kinds.PointerUse else kinds.TypeRule) at }
{
    let t = test.tree.value_type();
    let (u, v) = (first.tree.value_type(), second.tree.value_type());
    drop(test);
    drop(first);
    drop(second);
    misfit_three(at, t, u, v)
}

/// The type of `test ? first : second`, where its row fits.
fn type_of(test: &Operand, first: &Operand, second: &Operand) -> Option<ValueType>
    requires first { IsOperand first.now }
    requires second { IsOperand second.now }
    ensures is { let a = boxed_of first.now.tree in let b = boxed_of second.now.tree in
        result ≡ (if is_scalar (value_type (boxed_of test.now.tree))
        then of_choice (value_type a) (is_null a) (value_type b) (is_null b) else None) }
    ensures integer { is_integer_type (value_type (boxed_of first.now.tree)) ≡ true
        → is_integer_type (value_type (boxed_of second.now.tree)) ≡ true
        → IfSome result (λ of. is_integer_type of ≡ true) }
{
    if !is_scalar(test.tree.value_type()) {
        return None;
    }
    let (t, u) = (first.tree.value_type(), second.tree.value_type());
    of_choice(t, first.constant.is_null(), u, second.constant.is_null())
}

/// `test ? first : second` (C99 6.5.15).
pub fn conditional(
    alloc: Global,
    at: Span,
    test: Operand,
    first: Operand,
    second: Operand,
) -> Result<Judged<Operand>, NoMemory>
    requires test { IsOperand test }
    requires first { IsOperand first }
    requires second { IsOperand second }
    ensures { IfOk result (λ j. IsJudged (conditional_row at (boxed_of test.tree)
        (boxed_of first.tree) (boxed_of second.tree)) j) }
{
    match type_of(&test, &first, &second) {
        Some(of) => Ok(Judged::Fits(conditional_of(alloc, of, test, first, second)?)),
        None => Ok(Judged::Fails(misfits(at, test, first, second))),
    }
}
