//! What single instructions do to all but EIP (Intel manual, volume 2, the operation of each instruction).

ghost use Rattle.std.specs.Prelude.{◌≡◌, Ok};
ghost use Rattle.ia32_insn.specs.Meaning.{
  operate as operated,
  write_result as result_written,
  take_quotient as quotient_taken,
  dividend as dividend_of,
  push as pushed,
  pop as popped,
  decided as decided_in,
};
ghost use Rattle.ia32_machine.specs.Answers.{answer_of, does, Leaves, LeavesWith};

use crate::conditions::holds;
use crate::halt::Halt;
use crate::operations::alu;
use crate::processor::Processor;
use crate::whole_words::{negation, product, sign_word};
use crate::{division, whole_words};
use ia32_insn::{AluOp, Cond, Insn, Mem, Reg8, Reg32, Rm8, Rm32};
use pcc_base::{Stop, Trap};

/// MOV r32, m.
pub(crate) fn load(processor: &mut Processor, r: Reg32, m: &Mem) -> Result<(), Halt>
    ensures { Leaves (does (Insn.MovLoad r m.now) processor.old) processor.old processor.new result }
{
    let value = processor.load32(processor.address_of(m))?;
    processor.set_word(r, value);
    Ok(())
}

/// MOV r8, m.
pub(crate) fn load_byte(processor: &mut Processor, r: Reg8, m: &Mem) -> Result<(), Halt>
    ensures { Leaves (does (Insn.Mov8Load r m.now) processor.old) processor.old processor.new result }
{
    let value = processor.load8(processor.address_of(m))?;
    processor.set_byte(r, value);
    Ok(())
}

/// MOVZX r32, rm8.
pub(crate) fn zero_extend8(processor: &mut Processor, r: Reg32, operand: &Rm8) -> Result<(), Halt>
    ensures { Leaves (does (Insn.MovZx8 r operand.now) processor.old) processor.old processor.new result }
{
    let value = processor.read8(operand)?;
    processor.set_word(r, u32::from(value));
    Ok(())
}

/// MOVZX r32, rm16.
pub(crate) fn zero_extend16(processor: &mut Processor, r: Reg32, operand: &Rm32) -> Result<(), Halt>
    ensures { Leaves (does (Insn.MovZx16 r operand.now) processor.old) processor.old processor.new result }
{
    let value = processor.read16(operand)?;
    processor.set_word(r, u32::from(value));
    Ok(())
}

/// MOVSX r32, rm8.
pub(crate) fn sign_extend8(processor: &mut Processor, r: Reg32, operand: &Rm8) -> Result<(), Halt>
    ensures { Leaves (does (Insn.MovSx8 r operand.now) processor.old) processor.old processor.new result }
{
    let value = processor.read8(operand)?;
    processor.set_word(r, whole_words::sign_extend8(value));
    Ok(())
}

/// MOVSX r32, rm16.
pub(crate) fn sign_extend16(processor: &mut Processor, r: Reg32, operand: &Rm32) -> Result<(), Halt>
    ensures { Leaves (does (Insn.MovSx16 r operand.now) processor.old) processor.old processor.new result }
{
    let value = processor.read16(operand)?;
    processor.set_word(r, whole_words::sign_extend16(value));
    Ok(())
}

/// XCHG rm8, r8.
pub(crate) fn exchange8(processor: &mut Processor, operand: &Rm8, r: Reg8) -> Result<(), Halt>
    ensures { Leaves (does (Insn.Xchg8 operand.now r) processor.old) processor.old processor.new result }
{
    let value = processor.read8(operand)?;
    processor.write8(operand, processor.byte(r))?;
    processor.set_byte(r, value);
    Ok(())
}

/// XCHG rm32, r32.
pub(crate) fn exchange32(processor: &mut Processor, operand: &Rm32, r: Reg32) -> Result<(), Halt>
    ensures { Leaves (does (Insn.Xchg operand.now r) processor.old) processor.old processor.new result }
{
    let value = processor.read32(operand)?;
    processor.write32(operand, processor.word(r))?;
    processor.set_word(r, value);
    Ok(())
}

/// Writes the result of an operation, but that of CMP.
#[inline(always)]
fn write_result(
    processor: &mut Processor,
    op: AluOp,
    operand: &Rm32,
    value: u32,
) -> Result<(), Halt>
    ensures { Leaves (result_written op operand.now value processor.old) processor.old processor.new result }
{
    match op {
        AluOp::Cmp => Ok(()),
        AluOp::Add | AluOp::Or | AluOp::And | AluOp::Sub | AluOp::Xor => {
            processor.write32(operand, value)
        }
    }
}

/// ADD, OR, AND, SUB, XOR and CMP, with a second operand that has this value.
#[inline(always)]
pub(crate) fn operate(
    processor: &mut Processor,
    op: AluOp,
    operand: &Rm32,
    b: u32,
) -> Result<(), Halt>
    ensures { Leaves (operated op operand.now b processor.old) processor.old processor.new result }
{
    let a = processor.read32(operand)?;
    let (value, flags) = alu(op, a, b);
    write_result(processor, op, operand, value)?;
    processor.set_flags(Some(flags));
    Ok(())
}

/// ADD, OR, AND, SUB, XOR and CMP r32, m.
pub(crate) fn operate_load(
    processor: &mut Processor,
    op: AluOp,
    r: Reg32,
    m: &Mem,
) -> Result<(), Halt>
    ensures { Leaves (does (Insn.AluLoad op r m.now) processor.old) processor.old processor.new result }
{
    let value = processor.load32(processor.address_of(m))?;
    operate(processor, op, &Rm32::Reg(r), value)
}

/// TEST rm32, r32.
pub(crate) fn test(processor: &mut Processor, operand: &Rm32, r: Reg32) -> Result<(), Halt>
    ensures { Leaves (does (Insn.Test operand.now r) processor.old) processor.old processor.new result }
{
    let value = processor.read32(operand)?;
    let (_, flags) = alu(AluOp::And, value, processor.word(r));
    processor.set_flags(Some(flags));
    Ok(())
}

/// IMUL r32, rm32.
pub(crate) fn multiply(processor: &mut Processor, r: Reg32, operand: &Rm32) -> Result<(), Halt>
    ensures { Leaves (does (Insn.IMul r operand.now) processor.old) processor.old processor.new result }
{
    let value = processor.read32(operand)?;
    processor.set_word(r, product(processor.word(r), value));
    processor.set_flags(None);
    Ok(())
}

/// NOT rm32.
pub(crate) fn complement(processor: &mut Processor, operand: &Rm32) -> Result<(), Halt>
    ensures { Leaves (does (Insn.Not operand.now) processor.old) processor.old processor.new result }
{
    let value = processor.read32(operand)?;
    processor.write32(operand, whole_words::complement(value))
}

/// NEG rm32.
pub(crate) fn negate(processor: &mut Processor, operand: &Rm32) -> Result<(), Halt>
    ensures { Leaves (does (Insn.Neg operand.now) processor.old) processor.old processor.new result }
{
    let value = processor.read32(operand)?;
    processor.change(operand, negation(value))
}

/// EDX:EAX.
fn dividend(processor: &Processor) -> u64
    ensures { result ≡ dividend_of processor.now }
{
    u64::from(processor.word(Reg32::Edx)) * 0x1_0000_0000 + u64::from(processor.word(Reg32::Eax))
}

/// The quotient to EAX and the remainder to EDX, or the trap Divide.
fn take_quotient(processor: &mut Processor, divided: Option<(u32, u32)>) -> Result<(), Halt>
    ensures { Leaves (quotient_taken divided processor.old) processor.old processor.new result }
{
    let (quotient, remainder) = divided.ok_or(Halt::Trapped(Trap::Divide))?;
    processor.set_word(Reg32::Eax, quotient);
    processor.set_word(Reg32::Edx, remainder);
    processor.set_flags(None);
    Ok(())
}

/// DIV rm32.
pub(crate) fn divide(processor: &mut Processor, operand: &Rm32) -> Result<(), Halt>
    ensures { Leaves (does (Insn.Div operand.now) processor.old) processor.old processor.new result }
{
    let divisor = processor.read32(operand)?;
    let divided = division::divide(dividend(processor), divisor);
    take_quotient(processor, divided)
}

/// IDIV rm32.
pub(crate) fn divide_signed(processor: &mut Processor, operand: &Rm32) -> Result<(), Halt>
    ensures { Leaves (does (Insn.IDiv operand.now) processor.old) processor.old processor.new result }
{
    let divisor = processor.read32(operand)?;
    let divided = division::divide_signed(dividend(processor), divisor);
    take_quotient(processor, divided)
}

/// CDQ.
pub(crate) fn extend_sign(processor: &mut Processor)
    ensures { does Insn.Cdq processor.old ≡ Ok processor.new }
{
    processor.set_word(Reg32::Edx, sign_word(processor.word(Reg32::Eax)));
}

/// Four bytes on the stack, below ESP.
pub(crate) fn push(processor: &mut Processor, value: u32) -> Result<(), Halt>
    ensures { Leaves (pushed value processor.old) processor.old processor.new result }
{
    let top = processor.word(Reg32::Esp).wrapping_sub(4);
    processor.store32(top, value)?;
    processor.set_word(Reg32::Esp, top);
    Ok(())
}

/// The four bytes at ESP, which is then four higher.
pub(crate) fn pop(processor: &mut Processor) -> Result<u32, Halt>
    ensures { LeavesWith (popped processor.old) processor.old processor.new result }
{
    let top = processor.word(Reg32::Esp);
    let value = processor.load32(top)?;
    processor.set_word(Reg32::Esp, top.wrapping_add(4));
    Ok(value)
}

/// PUSH rm32, whose operand is taken before ESP changes.
pub(crate) fn push_operand(processor: &mut Processor, operand: &Rm32) -> Result<(), Halt>
    ensures { Leaves (does (Insn.Push operand.now) processor.old) processor.old processor.new result }
{
    let value = processor.read32(operand)?;
    push(processor, value)
}

/// POP r32.
pub(crate) fn pop_to(processor: &mut Processor, r: Reg32) -> Result<(), Halt>
    ensures { Leaves (does (Insn.Pop r) processor.old) processor.old processor.new result }
{
    let value = pop(processor)?;
    processor.set_word(r, value);
    Ok(())
}

/// RET, but for EIP.
pub(crate) fn drop_return(processor: &mut Processor) -> Result<(), Halt>
    ensures { Leaves (does Insn.Ret processor.old) processor.old processor.new result }
{
    let _ = pop(processor)?;
    Ok(())
}

/// LEAVE.
pub(crate) fn leave(processor: &mut Processor) -> Result<(), Halt>
    ensures { Leaves (does Insn.Leave processor.old) processor.old processor.new result }
{
    let base = processor.word(Reg32::Ebp);
    let value = processor.load32(base)?;
    processor.set_word(Reg32::Esp, base.wrapping_add(4));
    processor.set_word(Reg32::Ebp, value);
    Ok(())
}

/// Whether the condition holds, where it is known.
pub(crate) fn decided(processor: &Processor, cond: Cond) -> Result<bool, Halt>
    ensures { decided_in cond processor.now ≡ answer_of processor.now result }
{
    holds(cond, processor.flags()).ok_or(Halt::Stopped(Stop::Flags))
}

/// Jcc, but for EIP.
pub(crate) fn check_condition(
    processor: &mut Processor,
    cond: Cond,
    distance: i32,
) -> Result<(), Halt>
    ensures { Leaves (does (Insn.Jcc cond distance) processor.old) processor.old processor.new result }
{
    let _ = decided(processor, cond)?;
    Ok(())
}

/// SETcc rm8.
pub(crate) fn set_condition(
    processor: &mut Processor,
    cond: Cond,
    operand: &Rm8,
) -> Result<(), Halt>
    ensures { Leaves (does (Insn.SetCc cond operand.now) processor.old) processor.old processor.new result }
{
    let known = decided(processor, cond)?;
    processor.write8(operand, u8::from(known))
}
