//! The rows of elements that are read.

ghost use Rattle.std.specs.Prelude.{◌≡◌, ◌++◌, OnOk};
ghost use Rattle.ia32_rows.specs.Rows.{loading, load_from, get_row, load_row};
ghost use Rattle.ia32_emit.specs.Locations.{place_of};

use crate::checks::{element, emit_checking, index_register};
use crate::instructions::{emit, emit_all};
use crate::locations::{Location, at_register, target_of};
use crate::moves::emit_write;
use flow_graph::Bits;
use ia32_insn::{Insn, Item, Mem, Reg32, Rm8, Rm32};
use pcc_base::NoMemory;

/// An element to a register, one of fewer than 32 bits with its sign.
fn loading(bits: Bits, register: Reg32, from: Mem) -> Insn
    ensures { result ≡ loading bits register from }
{
    match bits {
        Bits::Eight => Insn::MovSx8(register, Rm8::Mem(from)),
        Bits::Sixteen => Insn::MovSx16(register, Rm32::Mem(from)),
        Bits::ThirtyTwo => Insn::MovLoad(register, from),
    }
}

/// An element to a place.
fn emit_load_from(out: &mut Vec<Item>, bits: Bits, to: Location, from: Mem) -> Result<(), NoMemory>
    ensures { OnOk result (out.new.items ≡ out.old.items ++ load_from bits (place_of to) from) }
{
    let register = target_of(to);
    emit(out, loading(bits, register, from))?;
    emit_write(out, to, register)
}

/// The value of a static object of one element.
pub fn emit_get(out: &mut Vec<Item>, bits: Bits, to: Location, object: u32) -> Result<(), NoMemory>
    ensures { OnOk result (out.new.items ≡ out.old.items ++ get_row bits (place_of to) object) }
{
    emit_all(out, &[Item::AddressOf(Reg32::Esi, object)])?;
    emit_load_from(out, bits, to, at_register(Reg32::Esi))
}

/// An element of an array to a place.
pub fn emit_load(
    out: &mut Vec<Item>,
    bits: Bits,
    to: Location,
    array: Location,
    index: Location,
) -> Result<(), NoMemory>
    ensures { OnOk result (out.new.items
        ≡ out.old.items ++ load_row bits (place_of to) (place_of array) (place_of index)) }
{
    emit_checking(out, array, index)?;
    emit_load_from(
        out,
        bits,
        to,
        element(bits, target_of(array), index_register(index)),
    )
}
