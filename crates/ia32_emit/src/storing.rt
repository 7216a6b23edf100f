//! What stands behind the checks of a store; and the rows of addresses, and of static objects that are written.

ghost use Rattle.std.specs.Prelude.{◌≡◌, ◌∷◌, ◌++◌, OnOk};
ghost use Rattle.flow_graph.specs.declared.op.Bits.TheVariants.{Eight};
ghost use Rattle.ia32_insn.specs.Items.{plain};
ghost use Rattle.ia32_insn.specs.declared.insn.Insn.TheVariants as insn;
ghost use Rattle.ia32_insn.specs.declared.register_names.Reg32.TheVariants.{Edi};
ghost use Rattle.ia32_rows.specs.Rows.{frame_row, static_row, storing, store_at, store_to, put_row};
ghost use Rattle.ia32_emit.specs.Locations.{distance, place_of};

use crate::instructions::{emit, emit_all, emit_three};
use crate::locations::{Location, at_offset, at_register, low_byte, target_of};
use crate::moves::{emit_read, emit_write};
use flow_graph::Bits;
use ia32_insn::{Insn, Item, Mem, Reg8, Reg32, Rm8, Rm32};
use pcc_base::NoMemory;

/// The address of the frame array whose element 0 stands at an offset from EBP.
pub fn emit_frame_array(out: &mut Vec<Item>, to: Location, offset: i32) -> Result<(), NoMemory>
    ensures { OnOk result (out.new.items ≡ out.old.items ++ frame_row (place_of to) (distance offset)) }
{
    let register = target_of(to);
    emit(out, Insn::Lea(register, at_offset(offset)))?;
    emit_write(out, to, register)
}

/// The address of a static object.
pub fn emit_static(out: &mut Vec<Item>, to: Location, object: u32) -> Result<(), NoMemory>
    ensures { OnOk result (out.new.items ≡ out.old.items ++ static_row (place_of to) object) }
{
    let register = target_of(to);
    emit_all(out, &[Item::AddressOf(register, object)])?;
    emit_write(out, to, register)
}

/// A value's low byte to memory.
fn emit_store_byte(out: &mut Vec<Item>, to: Mem, value: Location) -> Result<(), NoMemory>
    ensures { OnOk result (out.new.items ≡ out.old.items ++ storing Eight to (place_of value)) }
{
    match value {
        Location::Word(r) => emit(out, Insn::Mov8(Rm8::Mem(to), low_byte(r))),
        Location::Byte(r) => emit(out, Insn::Mov8(Rm8::Mem(to), r)),
        Location::Slot(_) => emit_three(
            out,
            Insn::Xchg(Rm32::Reg(Reg32::Esi), Reg32::Eax),
            Insn::Mov8(Rm8::Mem(to), Reg8::Al),
            Insn::Xchg(Rm32::Reg(Reg32::Esi), Reg32::Eax),
        ),
    }
}

/// The low bits of the value's register to memory.
fn emit_storing(out: &mut Vec<Item>, bits: Bits, to: Mem, value: Location) -> Result<(), NoMemory>
    ensures { OnOk result (out.new.items ≡ out.old.items ++ storing bits to (place_of value)) }
{
    match bits {
        Bits::Eight => emit_store_byte(out, to, value),
        Bits::Sixteen => emit(out, Insn::Mov16(Rm32::Mem(to), target_of(value))),
        Bits::ThirtyTwo => emit(out, Insn::Mov(Rm32::Mem(to), target_of(value))),
    }
}

/// The value to a register, unless it stands in one, and on to the address in EDI.
fn emit_store_to(out: &mut Vec<Item>, bits: Bits, value: Location) -> Result<(), NoMemory>
    ensures { OnOk result (out.new.items ≡ out.old.items ++ store_to bits (place_of value)) }
{
    emit_read(out, target_of(value), value)?;
    emit_storing(out, bits, at_register(Reg32::Edi), value)
}

/// A value to a static object of one element.
pub fn emit_put(
    out: &mut Vec<Item>,
    bits: Bits,
    object: u32,
    value: Location,
) -> Result<(), NoMemory>
    ensures { OnOk result (out.new.items ≡ out.old.items ++ put_row bits object (place_of value)) }
{
    emit_all(out, &[Item::AddressOf(Reg32::Edi, object)])?;
    emit_store_to(out, bits, value)
}

/// The address of an element to EDI, and a value on to it.
fn emit_store_behind(
    out: &mut Vec<Item>,
    bits: Bits,
    to: Mem,
    value: Location,
) -> Result<(), NoMemory>
    ensures { OnOk result (out.new.items
        ≡ out.old.items ++ plain (insn.Lea Edi to) ∷ store_to bits (place_of value)) }
{
    emit(out, Insn::Lea(Reg32::Edi, to))?;
    emit_store_to(out, bits, value)
}

/// A value to an element: directly, where it stands in a register.
pub(crate) fn emit_store_at(
    out: &mut Vec<Item>,
    bits: Bits,
    to: Mem,
    value: Location,
) -> Result<(), NoMemory>
    ensures { OnOk result (out.new.items ≡ out.old.items ++ store_at bits to (place_of value)) }
{
    match value {
        Location::Word(_) => emit_storing(out, bits, to, value),
        Location::Byte(_) | Location::Slot(_) => emit_store_behind(out, bits, to, value),
    }
}
