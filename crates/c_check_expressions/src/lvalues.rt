//! Places, and what is done with them (C99 6.5.2.1, 6.5.2.4, 6.5.3.1, 6.5.3.2 and 6.5.16).

ghost use Rattle.std.specs.Prelude.{◌≡◌, ◌∷◌, [], false, IfOk, option_map, if◌then◌else◌};
ghost use Rattle.std.specs.Option.{option_map_or};
ghost use Rattle.std.specs.List.{list_any};
ghost use Rattle.pcc_base.specs.declared.fault.FaultKind.TheVariants as kinds;
ghost use Rattle.c_tree.specs.Erased.{boxed_of, expression_of, place_of};
ghost use Rattle.c_tree.specs.Program.{value_type, Expression as Typed, Place as TypedPlace};
ghost use Rattle.c_typing.specs.Checked.{fits};
ghost use Rattle.c_typing.specs.Constants.{has_constant_form};
ghost use Rattle.c_typing.specs.Faults.{fault};
ghost use Rattle.c_typing.specs.Types.{is_pointer};
ghost use Rattle.c_typing.specs.Rows.{
  address_of_place,
  address_row,
  assign_row,
  assignment_row,
  can_assign,
  dereferenced,
  index_row,
  place_named,
  step_row,
  to_place_row,
};
ghost use Rattle.c_check_expressions.specs.Judged.{IsJudged, IsOperand};
ghost use Rattle.c_check_expressions.specs.Operators.{address_at, change_row, result_type};
ghost use Rattle.c_check_expressions.specs.declared.lvalues.Change.TheVariants.{Updates};

use crate::judged::{Judged, Operand, misfit_one, misfit_two, misfits, plain, plain_node};
use crate::result_types::{can_assign, of_sum};
use crate::two_operands::type_of;
use c_syntax::AssignOp;
use c_tree::{BinaryOp, Expression, IntegerType, Place, StepOp, ValueType};
use pcc_base::{Fault, FaultKind, NoMemory, Span};
use std::alloc::Global;

/// A tree that is no constant expression, where a row fits.
fn fits_plain(alloc: Global, tree: Expression) -> Result<Judged<Operand>, NoMemory>
    requires { has_constant_form (expression_of tree) ≡ false }
    ensures { IfOk result (λ j. IsJudged (fits (expression_of tree)) j) }
{
    Ok(Judged::Fits(plain_node(alloc, tree)?))
}

/// The place that an operand names, with its type; none where it names no place (C99 6.3.2.1p1).
pub fn place_named(operand: Operand) -> Option<(ValueType, Place)>
    ensures { option_map (λ p. (p.0, place_of p.1)) result ≡ place_named (boxed_of operand.tree) }
{
    match Box::into_inner(operand.tree) {
        Expression::Read(of, place) => Some((of, place)),
        other => {
            drop(other);
            None
        }
    }
}

/// The type of the element that a place is, where it is an element.
fn element_at(place: &Place) -> Option<IntegerType>
    ensures { (at : Span) → address_of_place at (place_of place.now) ≡ address_at at (place_of place.now) result }
{
    match place {
        Place::Target(element, _) | Place::Element(element, _, _) => Some(*element),
        Place::Local(_) | Place::Static(_) => None,
    }
}

/// `&` (C99 6.5.3.2), which is for elements alone.
pub fn address(alloc: Global, at: Span, operand: Operand) -> Result<Judged<Operand>, NoMemory>
    ensures { IfOk result (λ j. IsJudged (address_row at (place_named (boxed_of operand.tree))) j) }
{
    match place_named(operand) {
        None => Ok(Judged::Fails(Fault {
            kind: FaultKind::PointerUse,
            at,
        })),
        Some((_, place)) => address_of(alloc, at, place),
    }
}

/// `&` of a place.
fn address_of(alloc: Global, at: Span, place: Place) -> Result<Judged<Operand>, NoMemory>
    ensures { IfOk result (λ j. IsJudged (address_of_place at (place_of place)) j) }
{
    match element_at(&place) {
        Some(element) => fits_plain(alloc, Expression::Address(element, place)),
        None => {
            drop(place);
            Ok(Judged::Fails(Fault {
                kind: FaultKind::PointerUse,
                at,
            }))
        }
    }
}

/// `*` (C99 6.5.3.2).
pub fn dereferenced(alloc: Global, at: Span, operand: Operand) -> Result<Judged<Operand>, NoMemory>
    ensures { IfOk result (λ j. IsJudged
        (dereferenced at (value_type (boxed_of operand.tree)) (boxed_of operand.tree)) j) }
{
    match operand.tree.value_type() {
        ValueType::Pointer(element) => {
            let place = Place::Target(element, operand.tree);
            fits_plain(alloc, Expression::Read(ValueType::Integer(element), place))
        }
        of => {
            drop(operand);
            Ok(Judged::Fails(misfit_one(at, of)))
        }
    }
}

/// `array[index]` (C99 6.5.2.1).
pub fn index(
    alloc: Global,
    at: Span,
    array: Operand,
    index: Operand,
) -> Result<Judged<Operand>, NoMemory>
    ensures { IfOk result (λ j. IsJudged
        (index_row at (boxed_of array.tree) (boxed_of index.tree)) j) }
{
    match of_sum(array.tree.value_type(), index.tree.value_type()) {
        Some(ValueType::Pointer(element)) => {
            let place = Place::Element(element, array.tree, index.tree);
            fits_plain(alloc, Expression::Read(ValueType::Integer(element), place))
        }
        _ => Ok(Judged::Fails(misfits(at, array, index))),
    }
}

/// `++` and `--` (C99 6.5.2.4 and 6.5.3.1).
pub fn step(
    alloc: Global,
    op: StepOp,
    at: Span,
    operand: Operand,
) -> Result<Judged<Operand>, NoMemory>
    ensures { IfOk result (λ j. IsJudged (step_row op at (place_named (boxed_of operand.tree))) j) }
{
    match place_named(operand) {
        None => Ok(Judged::Fails(Fault {
            kind: FaultKind::NotAssignable,
            at,
        })),
        Some((of, place)) => fits_plain(alloc, Expression::Step(of, op, place)),
    }
}

/// What an assignment does with a place.
enum Change {
    Assigns,
    /// It assigns the result of an operator.
    Updates(BinaryOp),
}

/// What an assignment operator does.
fn change_of(op: AssignOp) -> Change
    ensures { (at : Span) (of : ValueType) (place : TypedPlace) (e : Typed)
        → to_place_row op at of place e ≡ change_row result at of place e }
{
    match op {
        AssignOp::Assign => Change::Assigns,
        AssignOp::Multiply => Change::Updates(BinaryOp::Multiply),
        AssignOp::Divide => Change::Updates(BinaryOp::Divide),
        AssignOp::Remainder => Change::Updates(BinaryOp::Remainder),
        AssignOp::Add => Change::Updates(BinaryOp::Add),
        AssignOp::Subtract => Change::Updates(BinaryOp::Subtract),
        AssignOp::ShiftLeft => Change::Updates(BinaryOp::ShiftLeft),
        AssignOp::ShiftRight => Change::Updates(BinaryOp::ShiftRight),
        AssignOp::BitAnd => Change::Updates(BinaryOp::BitAnd),
        AssignOp::BitXor => Change::Updates(BinaryOp::BitXor),
        AssignOp::BitOr => Change::Updates(BinaryOp::BitOr),
    }
}

/// The fault of a place and a value whose types fit no row.
fn unassigned(at: Span, of: ValueType, place: Place, value: Operand) -> Fault
    ensures { result ≡ fault (if list_any is_pointer (of ∷ value_type (boxed_of value.tree) ∷ [])
        then kinds.PointerUse else kinds.TypeRule) at }
{
    let from = value.tree.value_type();
    drop(place);
    drop(value);
    misfit_two(at, of, from)
}

/// `place = value`.
fn assign(
    alloc: Global,
    at: Span,
    of: ValueType,
    place: Place,
    value: Operand,
) -> Result<Judged<Operand>, NoMemory>
    requires { IsOperand value }
    ensures { IfOk result (λ j. IsJudged
        (assign_row at of (place_of place) (boxed_of value.tree)) j) }
{
    if !can_assign(of, value.tree.value_type(), value.constant.is_null()) {
        return Ok(Judged::Fails(unassigned(at, of, place, value)));
    }
    let tree = Expression::assign(alloc, of, place, value.tree)?;
    Ok(Judged::Fits(plain(tree)))
}

/// Whether the result of an operator on a place and a value may be assigned to the place.
fn can_update(op: BinaryOp, of: ValueType, from: ValueType) -> bool
    ensures { result ≡ option_map_or (λ t. can_assign of t false) (result_type op of false from false) false }
{
    match type_of(op, of, false, from, false) {
        Some(result) => can_assign(of, result, false),
        None => false,
    }
}

/// An assignment with an operator.
fn update(
    alloc: Global,
    op: BinaryOp,
    at: Span,
    of: ValueType,
    place: Place,
    value: Operand,
) -> Result<Judged<Operand>, NoMemory>
    ensures { IfOk result (λ j. IsJudged
        (change_row (Updates op) at of (place_of place) (boxed_of value.tree)) j) }
{
    if !can_update(op, of, value.tree.value_type()) {
        return Ok(Judged::Fails(unassigned(at, of, place, value)));
    }
    let tree = Expression::update(alloc, of, op, place, value.tree)?;
    Ok(Judged::Fits(plain(tree)))
}

/// An assignment to a place.
fn to_place(
    alloc: Global,
    op: AssignOp,
    at: Span,
    named: (ValueType, Place),
    value: Operand,
) -> Result<Judged<Operand>, NoMemory>
    requires { IsOperand value }
    ensures { IfOk result (λ j. IsJudged
        (to_place_row op at named.0 (place_of named.1) (boxed_of value.tree)) j) }
{
    let (of, place) = named;
    match change_of(op) {
        Change::Assigns => assign(alloc, at, of, place, value),
        Change::Updates(op) => update(alloc, op, at, of, place, value),
    }
}

/// `place = value`, and assignments with an operator (C99 6.5.16).
pub fn assignment(
    alloc: Global,
    op: AssignOp,
    at: Span,
    target: Operand,
    value: Operand,
) -> Result<Judged<Operand>, NoMemory>
    requires { IsOperand value }
    ensures { IfOk result (λ j. IsJudged
        (assignment_row op at (place_named (boxed_of target.tree)) (boxed_of value.tree)) j) }
{
    match place_named(target) {
        None => {
            drop(value);
            Ok(Judged::Fails(Fault {
                kind: FaultKind::NotAssignable,
                at,
            }))
        }
        Some(named) => to_place(alloc, op, at, named, value),
    }
}
