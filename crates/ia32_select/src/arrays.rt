//! The items of the loop that makes a frame array 0.

ghost use Rattle.std.specs.Prelude.{◌≡◌, ◌<◌, ◌^◌, ◌-◌, ◌++◌, ◌∷◌, [], OnOk, pos};
ghost use Rattle.ia32_insn.specs.Items.{near, plain};
ghost use Rattle.ia32_insn.specs.declared.insn.AluOp.TheVariants as alu;
ghost use Rattle.ia32_insn.specs.declared.insn.Cond.TheVariants as cond;
ghost use Rattle.ia32_insn.specs.declared.insn.Insn.TheVariants as insn;
ghost use Rattle.ia32_insn.specs.declared.item.Item.TheVariants as item;
ghost use Rattle.ia32_insn.specs.declared.operand.Rm32.TheVariants as rm;
ghost use Rattle.ia32_insn.specs.declared.register_names.Reg32.TheVariants.{Esi, Edi};
ghost use Rattle.ia32_rows.specs.Rows.{clear_row, size_of};
ghost use Rattle.ia32_emit.specs.Locations.{distance};

use ia32_emit::{at_offset, at_register, emit_three, emit_two};
use ia32_insn::{AluOp, Cond, Insn, Item, Reg32, Rm32};
use pcc_base::NoMemory;

/// The bytes of an array's elements, in whole words.
fn size_of(array: (u8, u32)) -> u64
    ensures size { result ≡ size_of array }
    ensures small { result < 2 ^ 42 }
{
    let (width, count) = array;
    (u64::from(width) * u64::from(count) + 3) / 4 * 4
}

/// The offset that is so many bytes above another, or 0 where that isn't below EBP.
fn above(offset: i32, bytes: u64) -> i32
    requires { bytes < 2 ^ 42 }
    ensures { distance result ≡ distance offset - bytes }
{
    let end = i64::from(offset) + bytes as i64;
    if end < 0 { end as i32 } else { 0 }
}

/// Makes words 0, from the one before ESI down to the one at EDI; the loop has this label.
fn emit_clear_loop(out: &mut Vec<Item>, label: u32) -> Result<(), NoMemory>
    ensures { OnOk result (out.new.items ≡ out.old.items
        ++ item.Label label
        ∷ plain (insn.AluImm alu.Sub (rm.Reg Esi) (pos 4))
        ∷ plain (insn.MovImm (rm.Mem (near Esi 0)) (pos 0))
        ∷ plain (insn.Alu alu.Cmp (rm.Reg Esi) Edi)
        ∷ item.JumpIf cond.Ne label
        ∷ []) }
{
    out.push(Item::Label(label))?;
    emit_three(
        out,
        Insn::AluImm(AluOp::Sub, Rm32::Reg(Reg32::Esi), 4),
        Insn::MovImm(Rm32::Mem(at_register(Reg32::Esi)), 0),
        Insn::Alu(AluOp::Cmp, Rm32::Reg(Reg32::Esi), Reg32::Edi),
    )?;
    out.push(Item::JumpIf(Cond::Ne, label))?;
    Ok(())
}

/// Makes every element 0 of a frame array whose element 0 stands at an offset from EBP.
pub(crate) fn emit_clear(
    out: &mut Vec<Item>,
    label: u32,
    offset: i32,
    array: (u8, u32),
) -> Result<(), NoMemory>
    ensures { OnOk result (out.new.items
        ≡ out.old.items ++ clear_row label (distance offset) (size_of array)) }
{
    emit_two(
        out,
        Insn::Lea(Reg32::Edi, at_offset(offset)),
        Insn::Lea(Reg32::Esi, at_offset(above(offset, size_of(array)))),
    )?;
    emit_clear_loop(out, label)
}
