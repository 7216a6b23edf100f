//! What ops make of numbers.

ghost use Rattle.std.specs.Prelude.{◌<◌};

use crate::sources::machine::{End, Machine, Value};
use flow_graph::{Comparison, Op, Order};
use pcc_base::{Trap, Width};

/// The signed number of the low 8 bits.
pub fn low_8(n: i32) -> i32 {
    (n << 24) >> 24
}

/// The signed number of the low 16 bits.
pub fn low_16(n: i32) -> i32 {
    (n << 16) >> 16
}

/// The low 8 bits.
pub fn low_byte(n: i32) -> u8 {
    n.rem_euclid(256) as u8
}

/// A count modulo 32.
fn count_of(n: i32) -> u32
    ensures { result < 32 }
{
    n.rem_euclid(32) as u32
}

/// What an op makes of its number, which stands here twice, or of its two numbers, where it doesn't trap.
fn result_of(op: &Op, x: i32, y: i32) -> Option<i32> {
    match op {
        Op::Zero(_, _) => Some(i32::from(low_byte(x))),
        Op::Low(_, _) => Some(low_8(x)),
        Op::Low16(_, _) => Some(low_16(x)),
        Op::Neg(_, _) => Some(x.wrapping_neg()),
        Op::Not(_, _) => Some(!x),
        Op::Add(_, _, _) => Some(x.wrapping_add(y)),
        Op::Sub(_, _, _) => Some(x.wrapping_sub(y)),
        Op::Mul(_, _, _) => Some(x.wrapping_mul(y)),
        Op::And(_, _, _) => Some(x & y),
        Op::Or(_, _, _) => Some(x | y),
        Op::Xor(_, _, _) => Some(x ^ y),
        Op::Shl(_, _, _) => Some(x << count_of(y)),
        Op::Sar(_, _, _) => Some(x >> count_of(y)),
        Op::Shr(_, _, _) => Some((x.cast_unsigned() >> count_of(y)).cast_signed()),
        Op::Div(_, _, _) => x.checked_div(y),
        Op::Rem(_, _, _) => x.checked_rem(y),
        Op::Udiv(_, _, _) => Some(
            x.cast_unsigned()
                .checked_div(y.cast_unsigned())?
                .cast_signed(),
        ),
        Op::Urem(_, _, _) => Some(
            x.cast_unsigned()
                .checked_rem(y.cast_unsigned())?
                .cast_signed(),
        ),
        _ => Some(x),
    }
}

fn holds(how: Comparison, x: i32, y: i32) -> bool {
    match how {
        Comparison::Eq => x == y,
        Comparison::Ne => x != y,
        Comparison::Lt => x < y,
        Comparison::Le => x <= y,
        Comparison::Gt => x > y,
        Comparison::Ge => x >= y,
    }
}

/// Whether two numbers without sign are so ordered.
fn ordered(how: Order, x: u32, y: u32) -> bool {
    match how {
        Order::Lt => x < y,
        Order::Le => x <= y,
        Order::Gt => x > y,
        Order::Ge => x >= y,
    }
}

/// Whether two values are the same, of which one is an array. The other one is an array, or 0, which stands for none.
fn same_array(x: Value, y: Value) -> Option<bool> {
    match (x, y) {
        (Value::Array(x), Value::Array(y)) => Some(x == y),
        (Value::Array(_), Value::Number(0)) | (Value::Number(0), Value::Array(_)) => Some(false),
        _ => None,
    }
}

/// Whether a comparison holds. Arrays are only the same or not.
fn compared(how: Comparison, x: Value, y: Value) -> Option<bool> {
    match (how, x, y) {
        (_, Value::Number(x), Value::Number(y)) => Some(holds(how, x, y)),
        (Comparison::Eq, _, _) => same_array(x, y),
        (Comparison::Ne, _, _) => Some(!same_array(x, y)?),
        _ => None,
    }
}

impl Machine<'_> {
    /// A number as the variable holds it.
    pub fn constant(&mut self, to: u32, number: i32) {
        let graph = self.current.code.graph;
        if to < graph.vars() && graph.width(to) == Width::One {
            self.set_number(to, low_8(number));
        } else {
            self.set_number(to, number);
        }
    }

    pub fn copy(&mut self, to: u32, from: u32) {
        let value = self.value(from);
        self.set(to, value);
    }

    /// An op with two numbers, or with one, which is given twice. A quotient that isn't there traps.
    pub fn compute(&mut self, op: &Op, to: u32, a: u32, b: u32) {
        let x = self.number(a);
        let y = self.number(b);
        match result_of(op, x, y) {
            Some(number) => self.set_number(to, number),
            None => self.stop(End::Trapped(Trap::Divide)),
        }
    }

    /// Whether two variables are so ordered, as numbers without sign.
    pub fn order(&mut self, how: Order, a: u32, b: u32) -> bool {
        let x = self.number(a);
        let y = self.number(b);
        ordered(how, x.cast_unsigned(), y.cast_unsigned())
    }

    /// Whether two variables compare so.
    pub fn compare(&mut self, how: Comparison, a: u32, b: u32) -> bool {
        let x = self.value(a);
        let y = self.value(b);
        match compared(how, x, y) {
            Some(holds) => holds,
            None => {
                self.stop(End::Stuck);
                false
            }
        }
    }
}
