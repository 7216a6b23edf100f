//! What operators give of values (C99 6.5.3 to 6.5.9).

ghost use Rattle.std.specs.Prelude.{◌≡◌};
ghost use Rattle.c_eval_state.specs.Values.{computed_of, held_of, name_of};
ghost use Rattle.c_tree.specs.Operators.{Computes, binary_value, in_one_array, number, numbers_value};
ghost use Rattle.c_tree.specs.Operators.{pointer_number_value};
ghost use Rattle.c_tree.specs.Operators.{pointers_value, same_array, unary_value};

use crate::value::{ArrayName, Value};
use c_operators::{Operator, binary_number, convert, unary_number};
use c_tree::{BinaryOp, IntegerType, UnaryOp};
use pcc_base::Trap;

impl Value {
    /// What an operator gives of the value, in the type of the result (C99 6.5.3.3).
    pub fn unary(self, of: IntegerType, op: UnaryOp) -> Value
        ensures { held_of result ≡ unary_value of op (held_of self) }
    {
        match (op, self) {
            (_, Value::Number(n)) => Value::Number(convert(of, unary_number(op, n))),
            (UnaryOp::Not, Value::Pointer { .. }) => Value::Number(i32::from(!self.is_true())),
            (_, Value::Pointer { .. }) => Value::Number(0),
        }
    }

    /// What an operator gives of the value and another in the type that it works in, or its trap (C99 6.5.5 to 6.5.12).
    pub fn binary(self, operator: Operator, other: Value) -> Result<Value, Trap>
        ensures { computed_of result ≡ binary_value operator.within operator.op (held_of self) (held_of other) }
    {
        match (self, other) {
            (Value::Number(a), Value::Number(b)) => numbers(operator, a, b),
            (Value::Pointer { array: a, index: i }, Value::Pointer { array: b, index: j }) =>
                pointers(operator.op, a, i, b, j),
            (Value::Pointer { array, index }, Value::Number(n))
            | (Value::Number(n), Value::Pointer { array, index }) => {
                Ok(pointer_number(operator.op, array, index, n))
            }
        }
    }
}

/// An operator on two numbers.
fn numbers(operator: Operator, a: i32, b: i32) -> Result<Value, Trap>
    ensures { computed_of result ≡ numbers_value operator.within operator.op a b }
{
    match binary_number(operator, a, b) {
        Ok(n) => Ok(Value::Number(n)),
        Err(trap) => Err(trap),
    }
}

/// Whether two arrays are the same.
fn same_array(a: ArrayName, b: ArrayName) -> bool
    ensures { result ≡ same_array (name_of a) (name_of b) }
{
    match (a, b) {
        (ArrayName::Null, ArrayName::Null) | (ArrayName::Unknown, ArrayName::Unknown) => true,
        (ArrayName::Static(k), ArrayName::Static(l)) => k == l,
        (
            ArrayName::InFrame { array: k, depth },
            ArrayName::InFrame {
                array: l,
                depth: other,
            },
        ) => k == l && depth == other,
        _ => false,
    }
}

/// A number, where two pointers go to one array; else a trap (C99 6.5.6p9, 6.5.8p5).
fn in_one_array(a: ArrayName, b: ArrayName, n: i32) -> Result<Value, Trap>
    ensures { computed_of result ≡ in_one_array (name_of a) (name_of b) (number n) }
{
    if same_array(a, b) {
        Ok(Value::Number(n))
    } else {
        Err(Trap::Check)
    }
}

/// An operator on two pointers (C99 6.5.6, 6.5.8 and 6.5.9).
#[tactic(auto, using(std::proofs::lemmas::Int::wraps))]
fn pointers(op: BinaryOp, a: ArrayName, i: i32, b: ArrayName, j: i32) -> Result<Value, Trap>
    ensures { computed_of result ≡ pointers_value op (name_of a) i (name_of b) j }
{
    match op {
        BinaryOp::Subtract => in_one_array(a, b, i.wrapping_sub(j)),
        BinaryOp::Less => in_one_array(a, b, i32::from(i < j)),
        BinaryOp::Greater => in_one_array(a, b, i32::from(i > j)),
        BinaryOp::LessOrEqual => in_one_array(a, b, i32::from(i <= j)),
        BinaryOp::GreaterOrEqual => in_one_array(a, b, i32::from(i >= j)),
        BinaryOp::Equal => Ok(Value::Number(i32::from(same_array(a, b) && i == j))),
        BinaryOp::NotEqual => Ok(Value::Number(i32::from(!(same_array(a, b) && i == j)))),
        _ => Ok(Value::Number(0)),
    }
}

/// An operator on a pointer and a number: an index that moves, or a comparison with the null constant.
#[tactic(auto, using(std::proofs::lemmas::Int::wraps))]
fn pointer_number(op: BinaryOp, array: ArrayName, index: i32, n: i32) -> Value
    ensures { Computes (held_of result) ≡ pointer_number_value op (name_of array) index n }
{
    match op {
        BinaryOp::Add => Value::Pointer {
            array,
            index: index.wrapping_add(n),
        },
        BinaryOp::Subtract => Value::Pointer {
            array,
            index: index.wrapping_sub(n),
        },
        BinaryOp::Equal => Value::Number(i32::from(
            same_array(array, ArrayName::Null) && index == 0,
        )),
        BinaryOp::NotEqual => Value::Number(i32::from(
            !(same_array(array, ArrayName::Null) && index == 0),
        )),
        _ => Value::Number(0),
    }
}
