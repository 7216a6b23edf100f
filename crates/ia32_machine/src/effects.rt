ghost use Rattle.std.specs.Prelude.{◌≡◌, ◌≢◌, ◌%◌, ◌^◌, Ok};
ghost use Rattle.ia32_insn.specs.Meaning.{and_then, distant as distant_from, effect as effect_of, target as target_of};
ghost use Rattle.ia32_insn.specs.Meaning.{perform as performed};
ghost use Rattle.ia32_machine.specs.Answers.{answer_of, Leaves, Performs};

use crate::halt::Halt;
use crate::instructions::{
    check_condition, complement, decided, divide, divide_signed, drop_return, exchange8,
    exchange32, extend_sign, leave, load, load_byte, multiply, negate, operate, operate_load,
    pop_to, push, push_operand, set_condition, sign_extend8, sign_extend16, test, zero_extend8,
    zero_extend16,
};
use crate::operands::low16;
use crate::processor::Processor;
use ia32_insn::{Cond, Insn, Reg8, Reg32};
use pcc_base::{Stop, Trap};

/// The address so far from another, wrapped.
fn distant(address: u32, distance: i32) -> u32
    ensures { result ≡ distant_from address distance % 2 ^ 32 }
{
    address.wrapping_add(distance.cast_unsigned())
}

/// What an instruction does to all but EIP, where the next one in memory is at the address `after`. An
/// interrupt stops: `int 0x80` is the machine's.
fn effect(processor: &mut Processor, insn: &Insn, after: u32) -> Result<(), Halt>
    requires { insn.now ≢ Insn.Int 0x80 }
    ensures { Leaves (effect_of insn.now after processor.old) processor.old processor.new result }
{
    match *insn {
        Insn::Mov(ref operand, r) => processor.write32(operand, processor.word(r)),
        Insn::MovLoad(r, ref m) => load(processor, r, m),
        Insn::MovImm(ref operand, value) => processor.write32(operand, value.cast_unsigned()),
        Insn::Mov8(ref operand, r) => processor.write8(operand, processor.byte(r)),
        Insn::Mov8Load(r, ref m) => load_byte(processor, r, m),
        Insn::Mov8Imm(r, value) => {
            processor.set_byte(r, value);
            Ok(())
        }
        Insn::Mov16(ref operand, r) => processor.write16(operand, low16(processor.word(r))),
        Insn::MovZx8(r, ref operand) => zero_extend8(processor, r, operand),
        Insn::MovZx16(r, ref operand) => zero_extend16(processor, r, operand),
        Insn::MovSx8(r, ref operand) => sign_extend8(processor, r, operand),
        Insn::MovSx16(r, ref operand) => sign_extend16(processor, r, operand),
        Insn::Xchg8(ref operand, r) => exchange8(processor, operand, r),
        Insn::Xchg(ref operand, r) => exchange32(processor, operand, r),
        Insn::Lea(r, ref m) => {
            processor.set_word(r, processor.address_of(m));
            Ok(())
        }
        Insn::Alu(op, ref operand, r) => {
            let second = processor.word(r);
            operate(processor, op, operand, second)
        }
        Insn::AluLoad(op, r, ref m) => operate_load(processor, op, r, m),
        Insn::AluImm(op, ref operand, value) => operate(
            processor,
            op,
            operand,
            value.cast_unsigned(),
        ),
        Insn::Test(ref operand, r) => test(processor, operand, r),
        Insn::IMul(r, ref operand) => multiply(processor, r, operand),
        Insn::Not(ref operand) => complement(processor, operand),
        Insn::Neg(ref operand) => negate(processor, operand),
        Insn::Div(ref operand) => divide(processor, operand),
        Insn::IDiv(ref operand) => divide_signed(processor, operand),
        Insn::Cdq => {
            extend_sign(processor);
            Ok(())
        }
        Insn::ShiftCl(op, ref operand) => processor.shift(op, operand, processor.byte(Reg8::Cl)),
        Insn::ShiftImm(op, ref operand, count) => processor.shift(op, operand, count),
        Insn::Push(ref operand) => push_operand(processor, operand),
        Insn::PushImm(value) => push(processor, value.cast_unsigned()),
        Insn::Pop(r) => pop_to(processor, r),
        Insn::Call(_) => push(processor, after),
        Insn::Ret => drop_return(processor),
        Insn::Leave => leave(processor),
        Insn::Jmp(_) => Ok(()),
        Insn::Jcc(cond, distance) => check_condition(processor, cond, distance),
        Insn::SetCc(cond, ref operand) => set_condition(processor, cond, operand),
        Insn::Int(_) => Err(Halt::Stopped(Stop::Call)),
        Insn::Ud2 => Err(Halt::Trapped(Trap::Check)),
        Insn::Nop => Ok(()),
    }
}

/// The address of the instruction that comes next.
fn target(processor: &Processor, insn: &Insn, after: u32) -> Result<u32, Halt>
    ensures { and_then (target_of insn.now after processor.now) (λ address. Ok (address % 2 ^ 32))
        ≡ answer_of processor.now result }
{
    match *insn {
        Insn::Call(distance) => Ok(distant(after, distance)),
        Insn::Ret => processor.load32(processor.word(Reg32::Esp)),
        Insn::Jmp(distance) => Ok(distant(after, distance)),
        Insn::Jcc(cond, distance) => branch(processor, cond, distance, after),
        Insn::Mov(..)
        | Insn::MovLoad(..)
        | Insn::MovImm(..)
        | Insn::Mov8(..)
        | Insn::Mov8Load(..)
        | Insn::Mov8Imm(..)
        | Insn::Mov16(..)
        | Insn::MovZx8(..)
        | Insn::MovZx16(..)
        | Insn::MovSx8(..)
        | Insn::MovSx16(..)
        | Insn::Xchg8(..)
        | Insn::Xchg(..)
        | Insn::Lea(..)
        | Insn::Alu(..)
        | Insn::AluLoad(..)
        | Insn::AluImm(..)
        | Insn::Test(..)
        | Insn::IMul(..)
        | Insn::Not(_)
        | Insn::Neg(_)
        | Insn::Div(_)
        | Insn::IDiv(_)
        | Insn::Cdq
        | Insn::ShiftCl(..)
        | Insn::ShiftImm(..)
        | Insn::Push(_)
        | Insn::PushImm(_)
        | Insn::Pop(_)
        | Insn::Leave
        | Insn::SetCc(..)
        | Insn::Int(_)
        | Insn::Ud2
        | Insn::Nop => Ok(after),
    }
}

/// The address of the instruction that comes after Jcc.
fn branch(processor: &Processor, cond: Cond, distance: i32, after: u32) -> Result<u32, Halt>
    ensures { and_then (target_of (Insn.Jcc cond distance) after processor.now) (λ address. Ok (address % 2 ^ 32))
        ≡ answer_of processor.now result }
{
    if decided(processor, cond)? {
        Ok(distant(after, distance))
    } else {
        Ok(after)
    }
}

/// Performs an instruction, where the next one in memory is at the address `after`. An instruction that
/// traps or stops changes nothing. `int 0x80` is the machine's, and every other interrupt stops.
pub fn perform(processor: &mut Processor, insn: &Insn, after: u32) -> Result<(), Halt>
    requires { insn.now ≢ Insn.Int 0x80 }
    ensures { Performs (performed insn.now after processor.old) processor.old processor.new result }
{
    let next = target(processor, insn, after)?;
    effect(processor, insn, after)?;
    processor.set_eip(next);
    Ok(())
}
