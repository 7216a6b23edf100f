//! The checks that stand before an access, and where an element is.

ghost use Rattle.std.specs.Prelude.{◌≡◌, ◌∷◌, [], ◌++◌, OnOk, Some};
ghost use Rattle.flow_graph.specs.Meaning.{bytes_of};
ghost use Rattle.ia32_insn.specs.Items.{plain};
ghost use Rattle.ia32_insn.specs.declared.insn.AluOp.TheVariants as alu;
ghost use Rattle.ia32_insn.specs.declared.insn.Cond.TheVariants as cond;
ghost use Rattle.ia32_insn.specs.declared.insn.Insn.TheVariants as insn;
ghost use Rattle.ia32_insn.specs.declared.item.Item.TheVariants as item;
ghost use Rattle.ia32_rows.specs.Rows.{index_register, count_before, element, check_array, check_index, checking};
ghost use Rattle.ia32_emit.specs.Locations.{place_of};

use crate::instructions::emit_all;
use crate::locations::{Location, target_of};
use crate::moves::emit_read;
use flow_graph::Bits;
use ia32_insn::{AluOp, Cond, Insn, Item, Mem, Reg32, Rm32};
use pcc_base::NoMemory;

/// The register that an index is in: its own, or EDI.
pub fn index_register(index: Location) -> Reg32
    ensures { result ≡ index_register (place_of index) }
{
    match index {
        Location::Word(r) => r,
        Location::Byte(_) | Location::Slot(_) => Reg32::Edi,
    }
}

/// The number of elements before those at a register's address.
fn count_before(array: Reg32) -> Mem
    ensures { result ≡ count_before array }
{
    Mem {
        base: Some(array),
        index: None,
        disp: -4,
    }
}

/// An element, by the registers with the array's address and the index.
pub fn element(bits: Bits, array: Reg32, index: Reg32) -> Mem
    ensures { result ≡ element (bytes_of bits) array index }
{
    let width = match bits {
        Bits::Eight => 1,
        Bits::Sixteen => 2,
        Bits::ThirtyTwo => 4,
    };
    Mem {
        base: Some(array),
        index: Some((index, width)),
        disp: 0,
    }
}

/// The array's address to a register; where there is no array, the trap of a failed check.
fn emit_check_array(out: &mut Vec<Item>, array: Location) -> Result<(), NoMemory>
    ensures { OnOk result (out.new.items ≡ out.old.items ++ check_array (place_of array)) }
{
    let register = target_of(array);
    emit_read(out, register, array)?;
    emit_all(
        out,
        &[
            Item::Plain(Insn::Test(Rm32::Reg(register), register)),
            Item::JumpTrap(Some(Cond::E)),
        ],
    )
}

/// CMP of an index with the number of elements, and the trap where the index is no less.
fn emit_bound(out: &mut Vec<Item>, index: Reg32, count: Mem) -> Result<(), NoMemory>
    ensures { OnOk result (out.new.items ≡ out.old.items
        ++ plain (insn.AluLoad alu.Cmp index count) ∷ item.JumpTrap (Some cond.Ae) ∷ []) }
{
    emit_all(
        out,
        &[
            Item::Plain(Insn::AluLoad(AluOp::Cmp, index, count)),
            Item::JumpTrap(Some(Cond::Ae)),
        ],
    )
}

/// The index to a register; where the array has no more elements than it, the trap.
fn emit_check_index(out: &mut Vec<Item>, array: Location, index: Location) -> Result<(), NoMemory>
    ensures { OnOk result (out.new.items ≡ out.old.items ++ check_index (place_of array) (place_of index)) }
{
    let register = index_register(index);
    emit_read(out, register, index)?;
    emit_bound(out, register, count_before(target_of(array)))
}

/// Both checks, before anything is touched.
pub(crate) fn emit_checking(
    out: &mut Vec<Item>,
    array: Location,
    index: Location,
) -> Result<(), NoMemory>
    ensures { OnOk result (out.new.items ≡ out.old.items ++ checking (place_of array) (place_of index)) }
{
    emit_check_array(out, array)?;
    emit_check_index(out, array, index)
}
