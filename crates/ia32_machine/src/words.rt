ghost use Rattle.std.specs.Prelude.{◌≡◌};
ghost use Rattle.std.specs.List.{AllByRecursion};
ghost use Rattle.ia32_insn.specs.Arithmetic as arithmetic;

use ia32_insn::ShiftOp;

/// The word shifted by the five low bits of the count (Intel manual, volume 2: SAL/SAR/SHL/SHR).
pub fn shift(op: ShiftOp, a: u32, count: u8) -> u32
    ensures { result ≡ arithmetic.shift_value op a count }
{
    let count = u32::from(count);
    match op {
        ShiftOp::Shl => a.wrapping_shl(count),
        ShiftOp::Shr => a.wrapping_shr(count),
        ShiftOp::Sar => a.cast_signed().wrapping_shr(count).cast_unsigned(),
    }
}

/// The word with other low 16 bits, as a register after a move of 16 bits.
pub fn with_low16(low: u16, word: u32) -> u32
    ensures { result ≡ arithmetic.with_low16 low word }
{
    (word >> 16 << 16) | u32::from(low)
}
