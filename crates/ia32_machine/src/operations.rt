ghost use Rattle.std.specs.Prelude.{◌≡◌, false, ◌==◌};
ghost use Rattle.ia32_insn.specs.Arithmetic.{alu_value, alu_flags, is_negative};

use ia32_insn::{AluOp, Flags};

/// The result of an operation and the flags that it sets (Intel manual, volume 2: ADD, OR, AND, SUB, XOR,
/// CMP). That of CMP is the difference, which the instruction drops.
#[inline(always)]
pub fn alu(op: AluOp, a: u32, b: u32) -> (u32, Flags)
    ensures value { result.0 ≡ alu_value op a b }
    ensures flags { result.1 ≡ alu_flags op a b }
{
    match op {
        AluOp::Add => add(a, b),
        AluOp::Or => logical(a | b),
        AluOp::And => logical(a & b),
        AluOp::Sub => subtract(a, b),
        AluOp::Xor => logical(a ^ b),
        AluOp::Cmp => subtract(a, b),
    }
}

/// The sum, with a carry where it has 33 bits, and an overflow where the signed sum doesn't fit.
fn add(a: u32, b: u32) -> (u32, Flags)
    ensures value { result.0 ≡ alu_value AluOp.Add a b }
    ensures flags { result.1 ≡ alu_flags AluOp.Add a b }
{
    let (value, carry) = a.overflowing_add(b);
    let (_, overflow) = a.cast_signed().overflowing_add(b.cast_signed());
    (value, flags_of(value, carry, overflow))
}

/// The difference, with a borrow where `b` is greater, and an overflow where the signed difference
/// doesn't fit.
fn subtract(a: u32, b: u32) -> (u32, Flags)
    ensures value { result.0 ≡ alu_value AluOp.Sub a b }
    ensures flags { result.1 ≡ alu_flags AluOp.Sub a b }
{
    let (_, overflow) = a.cast_signed().overflowing_sub(b.cast_signed());
    let value = a.wrapping_sub(b);
    (value, flags_of(value, a < b, overflow))
}

/// A result that neither carries nor overflows.
fn logical(value: u32) -> (u32, Flags)
    ensures value { result.0 ≡ value }
    ensures flags { result.1 ≡ record { cf = false; zf = value == 0; sf = is_negative value; of = false } }
{
    (value, flags_of(value, false, false))
}

/// The flags of a result, by its carry and its overflow.
fn flags_of(value: u32, carry: bool, overflow: bool) -> Flags
    ensures { result ≡ record { cf = carry; zf = value == 0; sf = is_negative value; of = overflow } }
{
    Flags {
        cf: carry,
        zf: value == 0,
        sf: value >= 1 << 31,
        of: overflow,
    }
}
