//! Which instruction an opcode makes of the fields that follow it (Intel manual, volume 2, the opcode tables
//! of each instruction). None where no row has the opcode, or the number in the reg field.

ghost use Rattle.std.specs.Prelude.{◌≡◌};
ghost use Rattle.ia32_insn.specs.Reading.{
  lone_insn,
  byte_insn,
  short_insn,
  long_insn,
  alu_from,
  lea_from,
  alu_insn,
  unary_insn,
  fields32_insn,
  fields8_insn,
  immediate_insn,
  extended32_insn,
  extended8_insn,
  sixteen_insn,
};

use crate::condition_numbers::{byte_register_of, condition_of, operation_of, shift_of};
use crate::moves::{mov, mov8};
use crate::register_numbers::register_of;
use ia32_insn::{AluOp, Insn, Reg32, Rm8, Rm32};

/// No fields: PUSH r32, POP r32, NOP, CDQ, RET, LEAVE.
#[tactic(auto, unfolding(ia32_insn::specs::Reading::lone_insn))]
pub(crate) fn of_opcode(opcode: u8) -> Option<Insn>
    ensures { result ≡ lone_insn opcode }
{
    match opcode {
        0x50..=0x57 => Some(Insn::Push(Rm32::Reg(register_of(opcode - 0x50)))),
        0x58..=0x5F => Some(Insn::Pop(register_of(opcode - 0x58))),
        0x90 => Some(Insn::Nop),
        0x99 => Some(Insn::Cdq),
        0xC3 => Some(Insn::Ret),
        0xC9 => Some(Insn::Leave),
        _ => None,
    }
}

/// A byte: MOV r8, imm8 and INT imm8.
#[tactic(auto, unfolding(ia32_insn::specs::Reading::byte_insn))]
pub(crate) fn of_byte(opcode: u8, number: u8) -> Option<Insn>
    ensures { result ≡ byte_insn opcode number }
{
    match opcode {
        0xB0..=0xB7 => Some(Insn::Mov8Imm(byte_register_of(opcode - 0xB0), number)),
        0xCD => Some(Insn::Int(number)),
        _ => None,
    }
}

/// A signed byte: Jcc rel8 and JMP rel8.
#[tactic(auto, unfolding(ia32_insn::specs::Reading::short_insn))]
pub(crate) fn of_short(opcode: u8, number: i32) -> Option<Insn>
    ensures { result ≡ short_insn opcode number }
{
    match opcode {
        0x70..=0x7F => Some(Insn::Jcc(condition_of(opcode - 0x70), number)),
        0xEB => Some(Insn::Jmp(number)),
        _ => None,
    }
}

/// Four bytes: PUSH imm32, MOV r32, imm32, CALL rel32 and JMP rel32.
#[tactic(auto, unfolding(ia32_insn::specs::Reading::long_insn))]
pub(crate) fn of_long(opcode: u8, number: i32) -> Option<Insn>
    ensures { result ≡ long_insn opcode number }
{
    match opcode {
        0x68 => Some(Insn::PushImm(number)),
        0xB8..=0xBF => Some(Insn::MovImm(Rm32::Reg(register_of(opcode - 0xB8)), number)),
        0xE8 => Some(Insn::Call(number)),
        0xE9 => Some(Insn::Jmp(number)),
        _ => None,
    }
}

/// LEA r32, m. There is none of a register.
fn lea(to: Reg32, operand: Rm32) -> Option<Insn>
    ensures { result ≡ lea_from to operand }
{
    match operand {
        Rm32::Reg(_) => None,
        Rm32::Mem(memory) => Some(Insn::Lea(to, memory)),
    }
}

/// An operation of two operands, with the destination in the reg field.
fn alu_load(op: AluOp, to: Reg32, operand: Rm32) -> Insn
    ensures { result ≡ alu_from op to operand }
{
    match operand {
        Rm32::Reg(source) => Insn::Alu(op, Rm32::Reg(to), source),
        Rm32::Mem(memory) => Insn::AluLoad(op, to, memory),
    }
}

/// An operation of two operands, by the three low bits of its opcode: 1 with the destination in the r/m
/// field, 3 with it in the reg field.
#[tactic(auto, unfolding(ia32_insn::specs::Reading::alu_insn))]
fn alu(way: u8, op: AluOp, register: Reg32, operand: Rm32) -> Option<Insn>
    ensures { result ≡ alu_insn way op register operand }
{
    match way {
        1 => Some(Insn::Alu(op, operand, register)),
        3 => Some(alu_load(op, register, operand)),
        _ => None,
    }
}

/// NOT, NEG, DIV and IDIV r/m32, by the number in the reg field.
#[tactic(auto, unfolding(ia32_insn::specs::Reading::unary_insn))]
fn unary(number: u8, operand: Rm32) -> Option<Insn>
    ensures { result ≡ unary_insn number operand }
{
    match number {
        2 => Some(Insn::Not(operand)),
        3 => Some(Insn::Neg(operand)),
        6 => Some(Insn::Div(operand)),
        7 => Some(Insn::IDiv(operand)),
        _ => None,
    }
}

/// An operand of 32 bits: the operations of two operands, TEST, XCHG, MOV, LEA, the shifts by CL, NOT, NEG,
/// DIV, IDIV, and PUSH r/m32.
#[tactic(auto, unfolding(ia32_insn::specs::Reading::fields32_insn))]
pub(crate) fn of_fields32(opcode: u8, reg: u8, operand: Rm32) -> Option<Insn>
    ensures { result ≡ fields32_insn opcode reg operand }
{
    match opcode {
        0x00..=0x3F => {
            let op = operation_of(opcode / 8)?;
            alu(opcode % 8, op, register_of(reg), operand)
        }
        0x85 => Some(Insn::Test(operand, register_of(reg))),
        0x87 => Some(Insn::Xchg(operand, register_of(reg))),
        0x89 => Some(Insn::Mov(operand, register_of(reg))),
        0x8B => Some(mov(register_of(reg), operand)),
        0x8D => lea(register_of(reg), operand),
        0xD3 => Some(Insn::ShiftCl(shift_of(reg)?, operand)),
        0xF7 => unary(reg, operand),
        0xFF if reg == 6 => Some(Insn::Push(operand)),
        _ => None,
    }
}

/// An operand of 8 bits: XCHG and MOV.
#[tactic(auto, unfolding(ia32_insn::specs::Reading::fields8_insn))]
pub(crate) fn of_fields8(opcode: u8, reg: u8, operand: Rm8) -> Option<Insn>
    ensures { result ≡ fields8_insn opcode reg operand }
{
    match opcode {
        0x86 => Some(Insn::Xchg8(operand, byte_register_of(reg))),
        0x88 => Some(Insn::Mov8(operand, byte_register_of(reg))),
        0x8A => Some(mov8(byte_register_of(reg), operand)),
        _ => None,
    }
}

/// An operand of 32 bits and a signed number after it: the operations of two operands, and MOV.
#[tactic(auto, unfolding(ia32_insn::specs::Reading::immediate_insn))]
pub(crate) fn of_immediate(opcode: u8, reg: u8, operand: Rm32, number: i32) -> Option<Insn>
    ensures { result ≡ immediate_insn opcode reg operand number }
{
    match opcode {
        0x81 | 0x83 => Some(Insn::AluImm(operation_of(reg)?, operand, number)),
        0xC7 if reg == 0 => Some(Insn::MovImm(operand, number)),
        _ => None,
    }
}

/// After 0F, an operand of 32 or 16 bits: IMUL, and MOVZX and MOVSX from 16 bits.
#[tactic(auto, unfolding(ia32_insn::specs::Reading::extended32_insn))]
pub(crate) fn of_extended32(opcode: u8, reg: u8, operand: Rm32) -> Option<Insn>
    ensures { result ≡ extended32_insn opcode reg operand }
{
    match opcode {
        0xAF => Some(Insn::IMul(register_of(reg), operand)),
        0xB7 => Some(Insn::MovZx16(register_of(reg), operand)),
        0xBF => Some(Insn::MovSx16(register_of(reg), operand)),
        _ => None,
    }
}

/// After 0F, an operand of 8 bits: SETcc, with any reg field, and MOVZX and MOVSX from 8 bits.
#[tactic(auto, unfolding(ia32_insn::specs::Reading::extended8_insn))]
pub(crate) fn of_extended8(opcode: u8, reg: u8, operand: Rm8) -> Option<Insn>
    ensures { result ≡ extended8_insn opcode reg operand }
{
    match opcode {
        0x90..=0x9F => Some(Insn::SetCc(condition_of(opcode - 0x90), operand)),
        0xB6 => Some(Insn::MovZx8(register_of(reg), operand)),
        0xBE => Some(Insn::MovSx8(register_of(reg), operand)),
        _ => None,
    }
}

/// After 66: MOV r/m16, r16.
#[tactic(auto, unfolding(ia32_insn::specs::Reading::sixteen_insn))]
pub(crate) fn of_sixteen(opcode: u8, reg: u8, operand: Rm32) -> Option<Insn>
    ensures { result ≡ sixteen_insn opcode reg operand }
{
    match opcode {
        0x89 => Some(Insn::Mov16(operand, register_of(reg))),
        _ => None,
    }
}
