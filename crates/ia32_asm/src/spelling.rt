ghost use Rattle.std.specs.Prelude.{◌≡◌};
ghost use Rattle.std.specs.Int.{w32};
ghost use Rattle.std.specs.Int.RustNames.{FitsSigned};
ghost use Rattle.ia32_insn.specs.Preferred.{preferred, word_bytes};
ghost use Rattle.ia32_insn.specs.Spelling.{Spells, HasSpelling};
ghost use Rattle.ia32_asm.specs.Parts.{IsInRange};

use crate::numbers::{
    alu_number, byte_of, cond_number, fits_byte, number8, number32, shift_number,
};
use crate::opcode_bytes::{plain, row_memory, row_with, row8, row32};
use arrayvec::ArrayVec;
use ia32_insn::{Insn, Rm32};

/// The bytes of the instruction's preferred spelling (Intel manual, volume 2, chapter 2 and the opcode
/// table of each instruction). The instruction has a spelling: no index is ESP, and each index is taken
/// 1, 2, 4 or 8 times.
pub fn encode(insn: &Insn) -> ArrayVec<u8, 15>
    requires { HasSpelling insn.now }
    ensures bytes { result.items ≡ preferred insn.now }
    ensures spells { Spells insn.now result.items }
{
    preferred_bytes(insn)
}

/// The four bytes of a number, the lowest first.
fn word(z: i32) -> [u8; 4]
    ensures bytes { result ≡ word_bytes z }
    ensures range { FitsSigned w32 z }
{
    z.cast_unsigned().to_le_bytes()
}

/// The row of each instruction. The numbers of an instruction are of 32 bits, by their type.
pub(crate) fn preferred_bytes(insn: &Insn) -> ArrayVec<u8, 15>
    ensures bytes { result.items ≡ preferred insn.now }
    ensures range { IsInRange insn.now }
{
    match *insn {
        Insn::Mov(operand, r) => row32(&[0x89], number32(r), &operand),
        Insn::MovLoad(r, m) => row_memory(&[0x8b], number32(r), &m),
        Insn::MovImm(Rm32::Reg(r), z) => plain(&[0xb8 + number32(r)], &word(z)),
        Insn::MovImm(Rm32::Mem(m), z) => row_with(&[0xc7], 0, &Rm32::Mem(m), &word(z)),
        Insn::Mov8(operand, r) => row8(&[0x88], number8(r), &operand),
        Insn::Mov8Load(r, m) => row_memory(&[0x8a], number8(r), &m),
        Insn::Mov8Imm(r, n) => plain(&[0xb0 + number8(r)], &[n]),
        Insn::Mov16(operand, r) => row32(&[0x66, 0x89], number32(r), &operand),
        Insn::MovZx8(r, operand) => row8(&[0x0f, 0xb6], number32(r), &operand),
        Insn::MovZx16(r, operand) => row32(&[0x0f, 0xb7], number32(r), &operand),
        Insn::MovSx8(r, operand) => row8(&[0x0f, 0xbe], number32(r), &operand),
        Insn::MovSx16(r, operand) => row32(&[0x0f, 0xbf], number32(r), &operand),
        Insn::Xchg8(operand, r) => row8(&[0x86], number8(r), &operand),
        Insn::Xchg(operand, r) => row32(&[0x87], number32(r), &operand),
        Insn::Lea(r, m) => row_memory(&[0x8d], number32(r), &m),
        Insn::Alu(op, operand, r) => row32(&[8 * alu_number(op) + 1], number32(r), &operand),
        Insn::AluLoad(op, r, m) => row_memory(&[8 * alu_number(op) + 3], number32(r), &m),
        Insn::AluImm(op, operand, z) => {
            if fits_byte(z) {
                row_with(&[0x83], alu_number(op), &operand, &[byte_of(z)])
            } else {
                row_with(&[0x81], alu_number(op), &operand, &word(z))
            }
        }
        Insn::Test(operand, r) => row32(&[0x85], number32(r), &operand),
        Insn::IMul(r, operand) => row32(&[0x0f, 0xaf], number32(r), &operand),
        Insn::Not(operand) => row32(&[0xf7], 2, &operand),
        Insn::Neg(operand) => row32(&[0xf7], 3, &operand),
        Insn::Div(operand) => row32(&[0xf7], 6, &operand),
        Insn::IDiv(operand) => row32(&[0xf7], 7, &operand),
        Insn::Cdq => plain(&[0x99], &[]),
        Insn::ShiftCl(op, operand) => row32(&[0xd3], shift_number(op), &operand),
        Insn::ShiftImm(op, operand, n) => row_with(&[0xc1], shift_number(op), &operand, &[n]),
        Insn::Push(Rm32::Reg(r)) => plain(&[0x50 + number32(r)], &[]),
        Insn::Push(Rm32::Mem(m)) => row_memory(&[0xff], 6, &m),
        Insn::PushImm(z) => plain(&[0x68], &word(z)),
        Insn::Pop(r) => plain(&[0x58 + number32(r)], &[]),
        Insn::Call(distance) => plain(&[0xe8], &word(distance)),
        Insn::Ret => plain(&[0xc3], &[]),
        Insn::Leave => plain(&[0xc9], &[]),
        Insn::Jmp(distance) => plain(&[0xe9], &word(distance)),
        Insn::Jcc(cond, distance) => plain(&[0x0f, 0x80 + cond_number(cond)], &word(distance)),
        Insn::SetCc(cond, operand) => row8(&[0x0f, 0x90 + cond_number(cond)], 0, &operand),
        Insn::Int(n) => plain(&[0xcd, n], &[]),
        Insn::Ud2 => plain(&[0x0f, 0x0b], &[]),
        Insn::Nop => plain(&[0x90], &[]),
    }
}
