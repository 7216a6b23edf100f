ghost use Rattle.std.specs.Prelude.{◌≡◌, ◌<◌, ◌≤◌, ◌++◌, length};
ghost use Rattle.arrayvec.specs.ArrayVec.{array_vec_len};
ghost use Rattle.ia32_insn.specs.Preferred as preferred;
ghost use Rattle.ia32_insn.specs.Spelling.{InMemory, operand32, operand8};
ghost use Rattle.ia32_asm.specs.Parts.{IsOperand};

use crate::fields::{push_bytes, push_memory, push_operand8, push_operand32};
use arrayvec::ArrayVec;
use ia32_insn::{Mem, Rm8, Rm32};

/// The bytes of an instruction without a ModRM byte: its opcode, and then its immediate.
pub fn plain(opcode: &[u8], immediate: &[u8]) -> ArrayVec<u8, 15>
    requires opcode { length opcode.now ≤ 2 }
    requires immediate { length immediate.now ≤ 4 }
    ensures { result.items ≡ opcode.now ++ immediate.now }
{
    let mut out = ArrayVec::new();
    push_bytes(&mut out, opcode);
    push_bytes(&mut out, immediate);
    out
}

/// The opcode, and then ModRM with this reg field and what follows it for the operand.
pub fn row32(opcode: &[u8], reg: u8, operand: &Rm32) -> ArrayVec<u8, 15>
    requires opcode { length opcode.now ≤ 2 }
    requires reg { reg < 8 }
    ensures bytes { result.items ≡ opcode.now ++ preferred.fields_for reg (operand32 operand.now) }
    ensures room { array_vec_len result ≤ 8 }
    ensures range { IsOperand (operand32 operand.now) }
{
    let mut out = ArrayVec::new();
    push_bytes(&mut out, opcode);
    push_operand32(&mut out, reg, operand);
    out
}

/// The same for an operand of 8 bits.
pub fn row8(opcode: &[u8], reg: u8, operand: &Rm8) -> ArrayVec<u8, 15>
    requires opcode { length opcode.now ≤ 2 }
    requires reg { reg < 8 }
    ensures bytes { result.items ≡ opcode.now ++ preferred.fields_for reg (operand8 operand.now) }
    ensures range { IsOperand (operand8 operand.now) }
{
    let mut out = ArrayVec::new();
    push_bytes(&mut out, opcode);
    push_operand8(&mut out, reg, operand);
    out
}

/// The same for memory.
pub(crate) fn row_memory(opcode: &[u8], reg: u8, m: &Mem) -> ArrayVec<u8, 15>
    requires opcode { length opcode.now ≤ 2 }
    requires reg { reg < 8 }
    ensures bytes { result.items ≡ opcode.now ++ preferred.fields_for reg (InMemory m.now) }
    ensures range { IsOperand (InMemory m.now) }
{
    let mut out = ArrayVec::new();
    push_bytes(&mut out, opcode);
    push_memory(&mut out, reg, m);
    out
}

/// The row of an operand of 32 bits, and then the immediate.
pub fn row_with(opcode: &[u8], reg: u8, operand: &Rm32, immediate: &[u8]) -> ArrayVec<u8, 15>
    requires opcode { length opcode.now ≤ 2 }
    requires reg { reg < 8 }
    requires immediate { length immediate.now ≤ 4 }
    ensures bytes { result.items ≡ opcode.now ++ preferred.fields_for reg (operand32 operand.now) ++ immediate.now }
    ensures range { IsOperand (operand32 operand.now) }
{
    let mut out = row32(opcode, reg, operand);
    push_bytes(&mut out, immediate);
    out
}
