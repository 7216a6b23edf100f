//! The ops of operators on two numbers, by the type that they work in (C99 6.5.5 to 6.5.12).

ghost use Rattle.std.specs.Prelude.{◌≡◌, option_map};
ghost use Rattle.lower_lines.specs.Operators.{
  order_in,
  quotient_op,
  remainder_op,
  right_shift_op,
  test_branch,
  test_of,
  test_set,
};
ghost use Rattle.lower_builder.specs.Computed.{number_test_of, op_of};

use c_operators::{Operator, is_signed};
use c_tree::{BinaryOp, IntegerType};
use flow_graph::{Comparison, Op, Order};

/// What two numbers are asked.
#[derive(Clone, Copy)]
pub(crate) enum NumberTest {
    /// A comparison of numbers that have a sign.
    WithSigns(Comparison),
    /// An order of numbers that have none.
    WithoutSigns(Order),
}

/// The order of two numbers of a type.
fn order_in(within: IntegerType, signed: Comparison, unsigned: Order) -> NumberTest
    ensures { number_test_of result ≡ order_in within signed unsigned }
{
    if is_signed(within) {
        NumberTest::WithSigns(signed)
    } else {
        NumberTest::WithoutSigns(unsigned)
    }
}

/// What an operator asks of two numbers, where it compares them.
pub(crate) fn test_of(operator: Operator) -> Option<NumberTest>
    ensures { option_map number_test_of result ≡ test_of operator.within operator.op }
{
    let within = operator.within;
    match operator.op {
        BinaryOp::Less => Some(order_in(within, Comparison::Lt, Order::Lt)),
        BinaryOp::Greater => Some(order_in(within, Comparison::Gt, Order::Gt)),
        BinaryOp::LessOrEqual => Some(order_in(within, Comparison::Le, Order::Le)),
        BinaryOp::GreaterOrEqual => Some(order_in(within, Comparison::Ge, Order::Ge)),
        BinaryOp::Equal => Some(NumberTest::WithSigns(Comparison::Eq)),
        BinaryOp::NotEqual => Some(NumberTest::WithSigns(Comparison::Ne)),
        BinaryOp::Multiply | BinaryOp::Divide | BinaryOp::Remainder => None,
        BinaryOp::Add | BinaryOp::Subtract => None,
        BinaryOp::ShiftLeft | BinaryOp::ShiftRight => None,
        BinaryOp::BitAnd | BinaryOp::BitXor | BinaryOp::BitOr => None,
    }
}

/// The op that puts the answer in a variable.
fn test_set(test: NumberTest, to: u32, x: u32, y: u32) -> Op
    ensures { result ≡ test_set (number_test_of test) to x y }
{
    match test {
        NumberTest::WithSigns(how) => Op::Set(how, to, x, y),
        NumberTest::WithoutSigns(how) => Op::Setu(how, to, x, y),
    }
}

/// The op that goes to a block by the answer.
pub(crate) fn test_branch(test: NumberTest, x: u32, y: u32, holds: u32, fails: u32) -> Op
    ensures { result ≡ test_branch (number_test_of test) x y holds fails }
{
    match test {
        NumberTest::WithSigns(how) => Op::Branch(how, x, y, holds, fails),
        NumberTest::WithoutSigns(how) => Op::Branchu(how, x, y, holds, fails),
    }
}

/// The op of a quotient (C99 6.5.5p5).
fn quotient_op(within: IntegerType, to: u32, x: u32, y: u32) -> Op
    ensures { result ≡ quotient_op within to x y }
{
    if is_signed(within) {
        Op::Div(to, x, y)
    } else {
        Op::Udiv(to, x, y)
    }
}

/// The op of a remainder (C99 6.5.5p5).
fn remainder_op(within: IntegerType, to: u32, x: u32, y: u32) -> Op
    ensures { result ≡ remainder_op within to x y }
{
    if is_signed(within) {
        Op::Rem(to, x, y)
    } else {
        Op::Urem(to, x, y)
    }
}

/// The op of a shift to the right (C99 6.5.7p5).
fn right_shift_op(within: IntegerType, to: u32, x: u32, count: u32) -> Op
    ensures { result ≡ right_shift_op within to x count }
{
    if is_signed(within) {
        Op::Sar(to, x, count)
    } else {
        Op::Shr(to, x, count)
    }
}

/// The op of an operator on two numbers, which stand where it takes them.
pub(crate) fn op_of(operator: Operator, to: u32, x: u32, y: u32) -> Op
    ensures { result ≡ op_of operator.within operator.op to x y }
{
    let within = operator.within;
    match operator.op {
        BinaryOp::Multiply => Op::Mul(to, x, y),
        BinaryOp::Divide => quotient_op(within, to, x, y),
        BinaryOp::Remainder => remainder_op(within, to, x, y),
        BinaryOp::Add => Op::Add(to, x, y),
        BinaryOp::Subtract => Op::Sub(to, x, y),
        BinaryOp::ShiftLeft => Op::Shl(to, x, y),
        BinaryOp::ShiftRight => right_shift_op(within, to, x, y),
        BinaryOp::Less => test_set(order_in(within, Comparison::Lt, Order::Lt), to, x, y),
        BinaryOp::Greater => test_set(order_in(within, Comparison::Gt, Order::Gt), to, x, y),
        BinaryOp::LessOrEqual => test_set(order_in(within, Comparison::Le, Order::Le), to, x, y),
        BinaryOp::GreaterOrEqual => test_set(order_in(within, Comparison::Ge, Order::Ge), to, x, y),
        BinaryOp::Equal => Op::Set(Comparison::Eq, to, x, y),
        BinaryOp::NotEqual => Op::Set(Comparison::Ne, to, x, y),
        BinaryOp::BitAnd => Op::And(to, x, y),
        BinaryOp::BitXor => Op::Xor(to, x, y),
        BinaryOp::BitOr => Op::Or(to, x, y),
    }
}
