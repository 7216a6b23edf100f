ghost use Rattle.std.specs.Prelude.{◌≡◌, ◌<◌, IsTrue};
ghost use Rattle.ia32_insn.specs.Registers as registers;
ghost use Rattle.ia32_insn.specs.Spelling as numbers;
ghost use Rattle.ia32_insn.specs.Preferred as preferred;
ghost use Rattle.std.specs.Int.{w8, cast_unsigned};

use ia32_insn::{AluOp, Cond, Reg8, Reg32, ShiftOp};

/// The number of a register of 32 bits.
pub fn number32(r: Reg32) -> u8
    ensures number { result ≡ registers.number32 r }
    ensures below { result < 8 }
{
    r as u8
}

/// The number of a register of 8 bits.
pub fn number8(r: Reg8) -> u8
    ensures number { result ≡ registers.number8 r }
    ensures below { result < 8 }
{
    r as u8
}

/// The number of an operation, in its opcode and in the reg field.
pub fn alu_number(op: AluOp) -> u8
    ensures number { result ≡ numbers.alu_number op }
    ensures below { result < 8 }
{
    match op {
        AluOp::Add => 0,
        AluOp::Or => 1,
        AluOp::And => 4,
        AluOp::Sub => 5,
        AluOp::Xor => 6,
        AluOp::Cmp => 7,
    }
}

/// The number of a shift, in the reg field.
pub fn shift_number(op: ShiftOp) -> u8
    ensures number { result ≡ numbers.shift_number op }
    ensures below { result < 8 }
{
    match op {
        ShiftOp::Shl => 4,
        ShiftOp::Shr => 5,
        ShiftOp::Sar => 7,
    }
}

/// The number of a condition, in its opcode.
pub fn cond_number(cond: Cond) -> u8
    ensures number { result ≡ numbers.cond_number cond }
    ensures below { result < 16 }
{
    cond as u8
}

/// The number fits a signed byte.
pub fn fits_byte(z: i32) -> bool
    ensures { result ≡ preferred.fits_byte z }
{
    z >= -128 && z < 128
}

/// A number that fits it, as a signed byte.
pub fn byte_of(z: i32) -> u8
    requires { IsTrue (preferred.fits_byte z) }
    ensures { result ≡ cast_unsigned w8 z }
{
    (z as i8).cast_unsigned()
}
