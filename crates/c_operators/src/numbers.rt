ghost use Rattle.std.specs.Prelude.{◌≡◌, not, pos, ◌%◌};
ghost use Rattle.std.specs.Int.{cast_unsigned, w32};
ghost use Rattle.std.specs.Ordering.{int_eq};
ghost use Rattle.c_operators.specs.Numbers.{computed_of};
ghost use Rattle.c_tree.specs.Operators.{is_less, numbers_value, quotient, remainder, shift_count, shifted};
ghost use Rattle.c_tree.specs.Operators.{unary_number};
ghost use Rattle.c_tree.specs.Store.{converted};

use crate::types::{Operator, is_signed};
use c_tree::{BinaryOp, IntegerType, UnaryOp};
use pcc_base::Trap;

/// A number in an integer type: a narrower one keeps the low bits (C99 6.3.1.3).
#[tactic(auto, using(crate::proofs::Narrow::low_8, crate::proofs::Narrow::low_16))]
pub fn convert(of: IntegerType, n: i32) -> i32
    ensures { result ≡ converted of n }
{
    match of {
        IntegerType::Char => i32::from(low_byte(n).cast_signed()),
        IntegerType::Short => i32::from(low_half(n).cast_signed()),
        IntegerType::Int | IntegerType::UnsignedInt => n,
    }
}

/// The lowest 8 bits.
fn low_byte(n: i32) -> u8
    ensures { result ≡ cast_unsigned w32 n % 256 }
{
    (n.cast_unsigned() % 256) as u8
}

/// The lowest 16 bits.
fn low_half(n: i32) -> u16
    ensures { result ≡ cast_unsigned w32 n % 65536 }
{
    (n.cast_unsigned() % 65536) as u16
}

/// Whether a number counts as true: it isn't 0 (C99 6.5.3.3, 6.8.4.1).
pub fn is_true(n: i32) -> bool
    ensures { result ≡ not (int_eq n (pos 0)) }
{
    n != 0
}

/// What an operator gives of one number (C99 6.5.3.3).
#[tactic(auto, using(std::proofs::lemmas::Int::wraps))]
pub fn unary_number(op: UnaryOp, n: i32) -> i32
    ensures { result ≡ unary_number op n }
{
    match op {
        UnaryOp::Plus => n,
        UnaryOp::Minus => n.wrapping_neg(),
        UnaryOp::Complement => !n,
        UnaryOp::Not => i32::from(n == 0),
    }
}

/// Whether the first number is below the second (C99 6.5.8).
fn is_less(within: IntegerType, a: i32, b: i32) -> bool
    ensures { result ≡ is_less within a b }
{
    if is_signed(within) {
        a < b
    } else {
        a.cast_unsigned() < b.cast_unsigned()
    }
}

/// The quotient, or a trap (C99 6.5.5p5).
fn quotient(within: IntegerType, a: i32, b: i32) -> Result<i32, Trap>
    ensures { computed_of result ≡ quotient within a b }
{
    if is_signed(within) {
        a.checked_div(b).ok_or(Trap::Divide)
    } else if b == 0 {
        Err(Trap::Divide)
    } else {
        Ok((a.cast_unsigned() / b.cast_unsigned()).cast_signed())
    }
}

/// The remainder, or a trap (C99 6.5.5p5).
fn remainder(within: IntegerType, a: i32, b: i32) -> Result<i32, Trap>
    ensures { computed_of result ≡ remainder within a b }
{
    if is_signed(within) {
        a.checked_rem(b).ok_or(Trap::Divide)
    } else if b == 0 {
        Err(Trap::Divide)
    } else {
        Ok((a.cast_unsigned() % b.cast_unsigned()).cast_signed())
    }
}

/// A number that is shifted to the right by a count, which is taken modulo 32 (C99 6.5.7p5).
fn shifted_right(within: IntegerType, n: i32, count: i32) -> i32
    ensures { result ≡ shifted within n (shift_count count) }
{
    if is_signed(within) {
        n.wrapping_shr(count.cast_unsigned())
    } else {
        n.cast_unsigned()
            .wrapping_shr(count.cast_unsigned())
            .cast_signed()
    }
}

/// What an operator gives of two numbers in the type that it works in, or its trap (C99 6.5.5 to 6.5.12). Sums,
/// differences, products and shifts wrap at 32 bits, and a shift count is taken modulo 32.
#[tactic(auto, using(std::proofs::lemmas::Int::wraps, crate::proofs::Narrow::shifted_left, crate::proofs::Narrow::same_count))]
pub fn binary_number(operator: Operator, a: i32, b: i32) -> Result<i32, Trap>
    ensures { computed_of result ≡ numbers_value operator.within operator.op a b }
{
    let within = operator.within;
    match operator.op {
        BinaryOp::Multiply => Ok(a.wrapping_mul(b)),
        BinaryOp::Divide => quotient(within, a, b),
        BinaryOp::Remainder => remainder(within, a, b),
        BinaryOp::Add => Ok(a.wrapping_add(b)),
        BinaryOp::Subtract => Ok(a.wrapping_sub(b)),
        BinaryOp::ShiftLeft => Ok(a.wrapping_shl(b.cast_unsigned())),
        BinaryOp::ShiftRight => Ok(shifted_right(within, a, b)),
        BinaryOp::Less => Ok(i32::from(is_less(within, a, b))),
        BinaryOp::Greater => Ok(i32::from(is_less(within, b, a))),
        BinaryOp::LessOrEqual => Ok(i32::from(!is_less(within, b, a))),
        BinaryOp::GreaterOrEqual => Ok(i32::from(!is_less(within, a, b))),
        BinaryOp::Equal => Ok(i32::from(a == b)),
        BinaryOp::NotEqual => Ok(i32::from(a != b)),
        BinaryOp::BitAnd => Ok(a & b),
        BinaryOp::BitXor => Ok(a ^ b),
        BinaryOp::BitOr => Ok(a | b),
    }
}
