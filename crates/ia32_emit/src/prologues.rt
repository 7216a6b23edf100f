//! The first items of a function.

ghost use Rattle.std.specs.Prelude.{◌≡◌, ◌∷◌, [], ◌++◌, nat_lt, OnOk};
ghost use Rattle.ia32_insn.specs.Items.{plain};
ghost use Rattle.ia32_insn.specs.declared.insn.Insn.TheVariants as insn;
ghost use Rattle.ia32_insn.specs.declared.operand.Rm32.TheVariants as rm;
ghost use Rattle.ia32_insn.specs.declared.register_names.Reg32.TheVariants as reg;
ghost use Rattle.ia32_rows.specs.Rows.{prologue, zeroing};
ghost use Rattle.ia32_rows.specs.Filling.{fill};
ghost use Rattle.ia32_emit.specs.Locations.{distance};

use crate::instructions::{emit, emit_all, emit_two};
use crate::locations::{at_offset, at_register};
use ia32_insn::{AluOp, Cond, Insn, Item, Reg32, Rm32};
use pcc_base::NoMemory;

/// Fills words with the word of a register, from behind the pointer down to the limit; the loop has this label.
fn emit_fill(
    out: &mut Vec<Item>,
    pointer: Reg32,
    word: Reg32,
    limit: Reg32,
    label: u32,
) -> Result<(), NoMemory>
    ensures { OnOk result (out.new.items ≡ out.old.items ++ fill pointer word limit label) }
{
    emit_all(
        out,
        &[
            Item::Label(label),
            Item::Plain(Insn::AluImm(AluOp::Sub, Rm32::Reg(pointer), 4)),
            Item::Plain(Insn::Mov(Rm32::Mem(at_register(pointer)), word)),
            Item::Plain(Insn::Alu(AluOp::Cmp, Rm32::Reg(pointer), limit)),
            Item::JumpIf(Cond::Ne, label),
        ],
    )
}

/// Keeps the caller's registers on the stack, with EBP at the first of them.
fn emit_saves(out: &mut Vec<Item>) -> Result<(), NoMemory>
    ensures { OnOk result (out.new.items ≡ out.old.items
        ++ plain (insn.Push (rm.Reg reg.Ebp)) ∷ plain (insn.Mov (rm.Reg reg.Ebp) reg.Esp)
        ∷ plain (insn.Push (rm.Reg reg.Ebx)) ∷ plain (insn.Push (rm.Reg reg.Esi))
        ∷ plain (insn.Push (rm.Reg reg.Edi)) ∷ []) }
{
    emit_all(
        out,
        &[
            Item::Plain(Insn::Push(Rm32::Reg(Reg32::Ebp))),
            Item::Plain(Insn::Mov(Rm32::Reg(Reg32::Ebp), Reg32::Esp)),
            Item::Plain(Insn::Push(Rm32::Reg(Reg32::Ebx))),
            Item::Plain(Insn::Push(Rm32::Reg(Reg32::Esi))),
            Item::Plain(Insn::Push(Rm32::Reg(Reg32::Edi))),
        ],
    )
}

/// Whether the words below an offset reach further below EBP than those below another.
fn is_further(offset: i32, than: i32) -> bool
    ensures { result ≡ nat_lt (distance than) (distance offset) }
{
    offset < 0 && offset < than
}

/// Makes the words from the offset of ESP up to another offset 0, where there are any, by a loop with this label.
fn emit_zeroing(out: &mut Vec<Item>, frame: i32, zeroed: i32, label: u32) -> Result<(), NoMemory>
    ensures { OnOk result (out.new.items ≡ out.old.items ++ zeroing (distance frame) (distance zeroed) label) }
{
    if is_further(frame, zeroed) {
        emit_two(
            out,
            Insn::MovImm(Rm32::Reg(Reg32::Esi), 0),
            Insn::Lea(Reg32::Edi, at_offset(zeroed)),
        )?;
        emit_fill(out, Reg32::Edi, Reg32::Esi, Reg32::Esp, label)
    } else {
        Ok(())
    }
}

/// Makes the frame, keeps the caller's registers in it, and clears every word below an offset, where there are any, by
/// a loop with this label; ESP goes to the offset of the frame's end.
pub fn emit_prologue(
    out: &mut Vec<Item>,
    frame: i32,
    zeroed: i32,
    label: u32,
) -> Result<(), NoMemory>
    ensures { OnOk result (out.new.items ≡ out.old.items ++ prologue (distance frame) (distance zeroed) label) }
{
    emit_saves(out)?;
    emit(out, Insn::Lea(Reg32::Esp, at_offset(frame)))?;
    emit_zeroing(out, frame, zeroed, label)
}
