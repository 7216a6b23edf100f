//! The types of results (C99 6.5.2 to 6.5.17).

ghost use Rattle.std.specs.Prelude.{◌≡◌, true, IfSome};
ghost use Rattle.c_typing.specs.Constants.{is_integer_type};
ghost use Rattle.c_typing.specs.Types.{is_pointer, same_integer};
ghost use Rattle.c_typing.specs.Rows.{
  can_assign,
  can_cast,
  if_same,
  is_scalar,
  of_choice,
  of_conditions,
  of_difference,
  of_equality,
  of_numbers,
  of_order,
  of_pointers,
  of_shift,
  of_sum,
};

use c_operators::{common, promoted};
use c_tree::{IntegerType, ValueType};

pub(crate) const INT: ValueType = ValueType::Integer(IntegerType::Int);

/// Whether two integer types are one.
fn same_integer(t: IntegerType, u: IntegerType) -> bool
    ensures { result ≡ same_integer t u }
{
    match (t, u) {
        (IntegerType::Char, IntegerType::Char)
        | (IntegerType::Short, IntegerType::Short)
        | (IntegerType::Int, IntegerType::Int)
        | (IntegerType::UnsignedInt, IntegerType::UnsignedInt) => true,
        _ => false,
    }
}

/// Whether a type is a pointer's.
pub(crate) fn is_pointer(of: ValueType) -> bool
    ensures { result ≡ is_pointer of }
{
    match of {
        ValueType::Void | ValueType::Integer(_) => false,
        ValueType::Pointer(_) => true,
    }
}

/// Whether a value of a type may be tested.
pub(crate) fn is_scalar(of: ValueType) -> bool
    ensures { result ≡ is_scalar of }
{
    match of {
        ValueType::Void => false,
        ValueType::Integer(_) | ValueType::Pointer(_) => true,
    }
}

/// The type of `* / % & ^ |`.
pub(crate) fn of_numbers(t: ValueType, u: ValueType) -> Option<ValueType>
    ensures is { result ≡ of_numbers t u }
    ensures integer { is_integer_type t ≡ true → is_integer_type u ≡ true
        → IfSome result (λ of. is_integer_type of ≡ true) }
{
    match (t, u) {
        (ValueType::Integer(t), ValueType::Integer(u)) => Some(ValueType::Integer(common(t, u))),
        _ => None,
    }
}

/// The type of `<< >>`.
pub(crate) fn of_shift(t: ValueType, u: ValueType) -> Option<ValueType>
    ensures is { result ≡ of_shift t u }
    ensures integer { is_integer_type t ≡ true → is_integer_type u ≡ true
        → IfSome result (λ of. is_integer_type of ≡ true) }
{
    match (t, u) {
        (ValueType::Integer(t), ValueType::Integer(_)) => Some(ValueType::Integer(promoted(t))),
        _ => None,
    }
}

/// The type of `+`.
pub(crate) fn of_sum(t: ValueType, u: ValueType) -> Option<ValueType>
    ensures is { result ≡ of_sum t u }
    ensures integer { is_integer_type t ≡ true → is_integer_type u ≡ true
        → IfSome result (λ of. is_integer_type of ≡ true) }
{
    match (t, u) {
        (ValueType::Integer(t), ValueType::Integer(u)) => Some(ValueType::Integer(common(t, u))),
        (ValueType::Pointer(_), ValueType::Integer(_)) => Some(t),
        (ValueType::Integer(_), ValueType::Pointer(_)) => Some(u),
        _ => None,
    }
}

/// A type, where two integer types are one.
fn if_same(t: IntegerType, u: IntegerType, of: ValueType) -> Option<ValueType>
    ensures { result ≡ if_same t u of }
{
    if same_integer(t, u) { Some(of) } else { None }
}

/// The type of `-`.
pub(crate) fn of_difference(t: ValueType, u: ValueType) -> Option<ValueType>
    ensures is { result ≡ of_difference t u }
    ensures integer { is_integer_type t ≡ true → is_integer_type u ≡ true
        → IfSome result (λ of. is_integer_type of ≡ true) }
{
    match (t, u) {
        (ValueType::Integer(t), ValueType::Integer(u)) => Some(ValueType::Integer(common(t, u))),
        (ValueType::Pointer(_), ValueType::Integer(_)) => Some(t),
        (ValueType::Pointer(t), ValueType::Pointer(u)) => if_same(t, u, INT),
        _ => None,
    }
}

/// The type of `< > <= >=`.
pub(crate) fn of_order(t: ValueType, u: ValueType) -> Option<ValueType>
    ensures is { result ≡ of_order t u }
    ensures integer { is_integer_type t ≡ true → is_integer_type u ≡ true
        → IfSome result (λ of. is_integer_type of ≡ true) }
{
    match (t, u) {
        (ValueType::Integer(_), ValueType::Integer(_)) => Some(INT),
        (ValueType::Pointer(t), ValueType::Pointer(u)) => if_same(t, u, INT),
        _ => None,
    }
}

/// The pointer type of two values, of which one may be the null constant; whether each is stands beside its type.
fn of_pointers(t: ValueType, null: bool, u: ValueType, other: bool) -> Option<ValueType>
    ensures { result ≡ of_pointers t null u other }
{
    match (t, u) {
        (ValueType::Pointer(a), ValueType::Pointer(b)) => if_same(a, b, t),
        (ValueType::Pointer(_), ValueType::Integer(_)) if other => Some(t),
        (ValueType::Integer(_), ValueType::Pointer(_)) if null => Some(u),
        _ => None,
    }
}

/// The type of `==` and `!=`.
pub(crate) fn of_equality(t: ValueType, null: bool, u: ValueType, other: bool) -> Option<ValueType>
    ensures is { result ≡ of_equality t null u other }
    ensures integer { is_integer_type t ≡ true → is_integer_type u ≡ true
        → IfSome result (λ of. is_integer_type of ≡ true) }
{
    match (t, u) {
        (ValueType::Integer(_), ValueType::Integer(_)) => Some(INT),
        _ => match of_pointers(t, null, u, other) {
            Some(_) => Some(INT),
            None => None,
        },
    }
}

/// The type of the second and third operand of `?:`.
pub(crate) fn of_choice(t: ValueType, null: bool, u: ValueType, other: bool) -> Option<ValueType>
    ensures is { result ≡ of_choice t null u other }
    ensures integer { is_integer_type t ≡ true → is_integer_type u ≡ true
        → IfSome result (λ of. is_integer_type of ≡ true) }
{
    match (t, u) {
        (ValueType::Integer(t), ValueType::Integer(u)) => Some(ValueType::Integer(common(t, u))),
        (ValueType::Void, ValueType::Void) => Some(t),
        _ => of_pointers(t, null, u, other),
    }
}

/// The type of `&&` and `||`.
pub(crate) fn of_conditions(t: ValueType, u: ValueType) -> Option<ValueType>
    ensures is { result ≡ of_conditions t u }
    ensures integer { is_integer_type t ≡ true → is_integer_type u ≡ true
        → IfSome result (λ of. is_integer_type of ≡ true) }
{
    if is_scalar(t) && is_scalar(u) {
        Some(INT)
    } else {
        None
    }
}

/// Whether a value of the second type, which may be the null constant, is assigned to the first.
pub(crate) fn can_assign(to: ValueType, from: ValueType, null: bool) -> bool
    ensures { result ≡ can_assign to from null }
{
    match (to, from) {
        (ValueType::Integer(_), ValueType::Integer(_)) => true,
        (ValueType::Pointer(t), ValueType::Pointer(u)) => same_integer(t, u),
        (ValueType::Pointer(_), ValueType::Integer(_)) => null,
        _ => false,
    }
}

/// Whether a value of the second type, which may be the null constant, is cast to the first.
pub(crate) fn can_cast(to: ValueType, from: ValueType, null: bool) -> bool
    ensures { result ≡ can_cast to from null }
{
    match to {
        ValueType::Void => true,
        ValueType::Integer(_) | ValueType::Pointer(_) => can_assign(to, from, null),
    }
}
