ghost use Rattle.std.specs.Prelude.{◌≡◌, ◌≤◌, ℕ, length};
ghost use Rattle.ia32_insn.specs.Preferred as preferred;
ghost use Rattle.ia32_insn.specs.Spelling.{InMemory, operand32, operand8};

use crate::fields::{mod_for, needs_sib};
use crate::numbers::fits_byte;
use ia32_insn::{Insn, Mem, Reg32, Rm8, Rm32};

/// How many bytes of displacement go with a base: none, one or four, as mod says.
fn displacement_length(base: Option<Reg32>, disp: i32) -> u32
    ensures value { result ≡ length (preferred.displacement_for base disp) }
    ensures short { result ≤ 4 }
{
    if base.is_none() {
        return 4;
    }
    match mod_for(base, disp) {
        0 => 0,
        1 => 1,
        _ => 4,
    }
}

/// How many bytes ModRM, SIB and the displacement of a memory operand have, whatever the reg field is.
fn memory_length(m: &Mem) -> u32
    ensures value { (reg : ℕ) → result ≡ length (preferred.fields_for reg (InMemory m.now)) }
    ensures short { result ≤ 6 }
{
    let displacement = displacement_length(m.base, m.disp);
    if needs_sib(m.index, m.base) {
        2 + displacement
    } else {
        1 + displacement
    }
}

/// The same for an operand of 32 or 16 bits.
fn length32(operand: &Rm32) -> u32
    ensures value { (reg : ℕ) → result ≡ length (preferred.fields_for reg (operand32 operand.now)) }
    ensures short { result ≤ 6 }
{
    match operand {
        Rm32::Reg(_) => 1,
        Rm32::Mem(m) => memory_length(m),
    }
}

/// The same for an operand of 8 bits.
fn length8(operand: &Rm8) -> u32
    ensures value { (reg : ℕ) → result ≡ length (preferred.fields_for reg (operand8 operand.now)) }
    ensures short { result ≤ 6 }
{
    match operand {
        Rm8::Reg(_) => 1,
        Rm8::Mem(m) => memory_length(m),
    }
}

/// How many bytes an instruction's preferred spelling has: its opcode's one or two, those of its operand, and
/// those of its immediate.
pub(crate) fn length_of(insn: &Insn) -> u32
    ensures value { result ≡ length (preferred.preferred insn.now) }
    ensures short { result ≤ 15 }
{
    match insn {
        Insn::Mov(operand, _) => 1 + length32(operand),
        Insn::MovLoad(_, m) => 1 + memory_length(m),
        Insn::MovImm(Rm32::Reg(_), _) => 5,
        Insn::MovImm(Rm32::Mem(m), _) => 5 + memory_length(m),
        Insn::Mov8(operand, _) => 1 + length8(operand),
        Insn::Mov8Load(_, m) => 1 + memory_length(m),
        Insn::Mov8Imm(_, _) => 2,
        Insn::Mov16(operand, _) => 2 + length32(operand),
        Insn::MovZx8(_, operand) => 2 + length8(operand),
        Insn::MovZx16(_, operand) => 2 + length32(operand),
        Insn::MovSx8(_, operand) => 2 + length8(operand),
        Insn::MovSx16(_, operand) => 2 + length32(operand),
        Insn::Xchg8(operand, _) => 1 + length8(operand),
        Insn::Xchg(operand, _) => 1 + length32(operand),
        Insn::Lea(_, m) => 1 + memory_length(m),
        Insn::Alu(_, operand, _) => 1 + length32(operand),
        Insn::AluLoad(_, _, m) => 1 + memory_length(m),
        Insn::AluImm(_, operand, z) => {
            if fits_byte(*z) {
                2 + length32(operand)
            } else {
                5 + length32(operand)
            }
        }
        Insn::Test(operand, _) => 1 + length32(operand),
        Insn::IMul(_, operand) => 2 + length32(operand),
        Insn::Not(operand) => 1 + length32(operand),
        Insn::Neg(operand) => 1 + length32(operand),
        Insn::Div(operand) => 1 + length32(operand),
        Insn::IDiv(operand) => 1 + length32(operand),
        Insn::Cdq => 1,
        Insn::ShiftCl(_, operand) => 1 + length32(operand),
        Insn::ShiftImm(_, operand, _) => 2 + length32(operand),
        Insn::Push(Rm32::Reg(_)) => 1,
        Insn::Push(Rm32::Mem(m)) => 1 + memory_length(m),
        Insn::PushImm(_) => 5,
        Insn::Pop(_) => 1,
        Insn::Call(_) => 5,
        Insn::Ret => 1,
        Insn::Leave => 1,
        Insn::Jmp(_) => 5,
        Insn::Jcc(_, _) => 6,
        Insn::SetCc(_, operand) => 2 + length8(operand),
        Insn::Int(_) => 2,
        Insn::Ud2 => 2,
        Insn::Nop => 1,
    }
}
