//! Items as they are.

ghost use Rattle.std.specs.Prelude.{◌≡◌, ◌∷◌, [], ◌++◌, OnOk, map};
ghost use Rattle.ia32_insn.specs.Items.{plain};
ghost use Rattle.ia32_insn.specs.declared.item.Item.TheVariants as item;

use ia32_insn::{Insn, Item};
use pcc_base::NoMemory;

/// These items, in their order.
pub(crate) fn emit_all(out: &mut Vec<Item>, items: &[Item]) -> Result<(), NoMemory>
    ensures { OnOk result (out.new.items ≡ out.old.items ++ items.now) }
{
    out.extend_from_slice(items)?;
    Ok(())
}

/// One more instruction.
pub fn emit(out: &mut Vec<Item>, insn: Insn) -> Result<(), NoMemory>
    ensures { OnOk result (out.new.items ≡ out.old.items ++ plain insn ∷ []) }
{
    emit_all(out, &[Item::Plain(insn)])
}

/// These instructions, in their order.
pub fn emit_insns(out: &mut Vec<Item>, insns: &[Insn]) -> Result<(), NoMemory>
    ensures { OnOk result (out.new.items ≡ out.old.items ++ map item.Plain insns.now) }
{
    for insn in insns {
        emit(out, *insn)?;
    }
    Ok(())
}

/// Two more instructions.
pub fn emit_two(out: &mut Vec<Item>, first: Insn, second: Insn) -> Result<(), NoMemory>
    ensures { OnOk result (out.new.items ≡ out.old.items ++ plain first ∷ plain second ∷ []) }
{
    emit_all(out, &[Item::Plain(first), Item::Plain(second)])
}

/// Three more instructions.
pub fn emit_three(
    out: &mut Vec<Item>,
    first: Insn,
    second: Insn,
    third: Insn,
) -> Result<(), NoMemory>
    ensures { OnOk result (out.new.items ≡ out.old.items ++ plain first ∷ plain second ∷ plain third ∷ []) }
{
    emit_all(
        out,
        &[Item::Plain(first), Item::Plain(second), Item::Plain(third)],
    )
}
