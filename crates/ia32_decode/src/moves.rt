//! The moves to the register in the reg field, by the operand in the r/m field (Intel manual, volume 2, MOV).

ghost use Rattle.std.specs.Prelude.{◌≡◌};
ghost use Rattle.ia32_insn.specs.Reading.{mov_from, mov8_from};

use ia32_insn::{Insn, Reg8, Reg32, Rm8, Rm32};

/// MOV r32, r/m32, with the destination in the reg field.
pub fn mov(to: Reg32, operand: Rm32) -> Insn
    ensures { result ≡ mov_from to operand }
{
    match operand {
        Rm32::Reg(source) => Insn::Mov(Rm32::Reg(to), source),
        Rm32::Mem(memory) => Insn::MovLoad(to, memory),
    }
}

/// MOV r8, r/m8, with the destination in the reg field.
pub(crate) fn mov8(to: Reg8, operand: Rm8) -> Insn
    ensures { result ≡ mov8_from to operand }
{
    match operand {
        Rm8::Reg(source) => Insn::Mov8(Rm8::Reg(to), source),
        Rm8::Mem(memory) => Insn::Mov8Load(to, memory),
    }
}
