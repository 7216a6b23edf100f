//! The types that operators on numbers work in (C99 6.3.1.1, 6.3.1.8, 6.5.3 to 6.5.12).

ghost use Rattle.std.specs.Prelude.{◌≡◌};
ghost use Rattle.c_tree.specs.Operators.{
  common,
  is_signed,
  numbers_result,
  numbers_type,
  promoted,
  unary_type,
  working_type,
};

use c_tree::{BinaryOp, IntegerType, UnaryOp, ValueType};

/// An operator on two operands, with the type that it works in.
#[derive(Clone, Copy)]
pub struct Operator {
    pub op: BinaryOp,
    pub within: IntegerType,
}

/// Whether the numbers of a type have a sign (C99 6.2.5p4 and 6.2.5p6).
pub fn is_signed(of: IntegerType) -> bool
    ensures { result ≡ is_signed of }
{
    match of {
        IntegerType::Char | IntegerType::Short | IntegerType::Int => true,
        IntegerType::UnsignedInt => false,
    }
}

/// The type that a number is promoted to (C99 6.3.1.1p2).
pub fn promoted(of: IntegerType) -> IntegerType
    ensures { result ≡ promoted of }
{
    match of {
        IntegerType::Char | IntegerType::Short | IntegerType::Int => IntegerType::Int,
        IntegerType::UnsignedInt => IntegerType::UnsignedInt,
    }
}

/// The type that two numbers have in common (C99 6.3.1.8p1).
pub fn common(one: IntegerType, other: IntegerType) -> IntegerType
    ensures { result ≡ common one other }
{
    match one {
        IntegerType::Char | IntegerType::Short | IntegerType::Int => promoted(other),
        IntegerType::UnsignedInt => IntegerType::UnsignedInt,
    }
}

/// The type that an operator on two numbers works in: their common type, or for a shift that of its left operand
/// (C99 6.5.7p3).
pub fn numbers_type(op: BinaryOp, left: IntegerType, right: IntegerType) -> IntegerType
    ensures { result ≡ numbers_type op left right }
{
    match op {
        BinaryOp::ShiftLeft | BinaryOp::ShiftRight => promoted(left),
        _ => common(left, right),
    }
}

/// The type of what an operator on two numbers gives: an `int` where it compares (C99 6.5.8p6 and 6.5.9p3).
pub fn numbers_result(op: BinaryOp, within: IntegerType) -> IntegerType
    ensures { result ≡ numbers_result op within }
{
    match op {
        BinaryOp::Less
        | BinaryOp::Greater
        | BinaryOp::LessOrEqual
        | BinaryOp::GreaterOrEqual
        | BinaryOp::Equal
        | BinaryOp::NotEqual => IntegerType::Int,
        _ => within,
    }
}

/// The type that an operator on two values works in; with a pointer among them it is `int`, as its index is.
pub fn working_type(op: BinaryOp, left: ValueType, right: ValueType) -> IntegerType
    ensures { result ≡ working_type op left right }
{
    match (left, right) {
        (ValueType::Integer(t), ValueType::Integer(u)) => numbers_type(op, t, u),
        _ => IntegerType::Int,
    }
}

/// The type of what an operator on one number gives (C99 6.5.3.3).
pub fn unary_type(op: UnaryOp, of: IntegerType) -> IntegerType
    ensures { result ≡ unary_type op of }
{
    match op {
        UnaryOp::Plus | UnaryOp::Minus | UnaryOp::Complement => promoted(of),
        UnaryOp::Not => IntegerType::Int,
    }
}
