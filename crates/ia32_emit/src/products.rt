//! The rows of products, negations and complements, and of parts of words.

ghost use Rattle.std.specs.Prelude.{◌≡◌, ◌++◌, OnOk};
ghost use Rattle.ia32_insn.specs.declared.insn.Insn.TheVariants as insn;
ghost use Rattle.ia32_rows.specs.Rows.{multiply, product_of, multiplying, changing, lowering, extend_half, halving};
ghost use Rattle.ia32_emit.specs.Locations.{place_of};
ghost use Rattle.ia32_emit.specs.declared.locations.Location.TheVariants as location;

use crate::instructions::{emit, emit_two};
use crate::locations::{Location, at_offset, is_in, low_byte, target_of, working};
use crate::moves::{emit_copy, emit_copy_byte, emit_read, emit_write};
use ia32_insn::{Insn, Item, Reg8, Reg32, Rm8, Rm32};
use pcc_base::NoMemory;

/// IMUL of a register by the word of a place.
fn emit_multiply(out: &mut Vec<Item>, register: Reg32, second: Location) -> Result<(), NoMemory>
    ensures { OnOk result (out.new.items ≡ out.old.items ++ multiply register (place_of second)) }
{
    match second {
        Location::Word(r) => emit(out, Insn::IMul(register, Rm32::Reg(r))),
        Location::Byte(r) => emit_two(
            out,
            Insn::MovSx8(Reg32::Edi, Rm8::Reg(r)),
            Insn::IMul(register, Rm32::Reg(Reg32::Edi)),
        ),
        Location::Slot(offset) => emit(out, Insn::IMul(register, Rm32::Mem(at_offset(offset)))),
    }
}

/// The product of two words, with the first one in the row's register.
fn emit_product_of(
    out: &mut Vec<Item>,
    to: Location,
    first: Location,
    second: Location,
) -> Result<(), NoMemory>
    ensures { OnOk result (out.new.items
        ≡ out.old.items ++ product_of (place_of to) (place_of first) (place_of second)) }
{
    let register = working(to, first, second);
    emit_read(out, register, first)?;
    emit_multiply(out, register, second)?;
    emit_write(out, to, register)
}

/// The product of two words.
pub fn emit_product(
    out: &mut Vec<Item>,
    to: Location,
    first: Location,
    second: Location,
) -> Result<(), NoMemory>
    ensures { OnOk result (out.new.items
        ≡ out.old.items ++ multiplying (place_of to) (place_of first) (place_of second)) }
{
    if is_in(target_of(to), second) {
        emit_product_of(out, to, second, first)
    } else {
        emit_product_of(out, to, first, second)
    }
}

/// The negation of a word.
pub fn emit_negation(out: &mut Vec<Item>, to: Location, operand: Location) -> Result<(), NoMemory>
    ensures { OnOk result (out.new.items ≡ out.old.items ++ changing insn.Neg (place_of to) (place_of operand)) }
{
    let register = target_of(to);
    emit_read(out, register, operand)?;
    emit(out, Insn::Neg(Rm32::Reg(register)))?;
    emit_write(out, to, register)
}

/// The complement of a word.
pub fn emit_complement(out: &mut Vec<Item>, to: Location, operand: Location) -> Result<(), NoMemory>
    ensures { OnOk result (out.new.items ≡ out.old.items ++ changing insn.Not (place_of to) (place_of operand)) }
{
    let register = target_of(to);
    emit_read(out, register, operand)?;
    emit(out, Insn::Not(Rm32::Reg(register)))?;
    emit_write(out, to, register)
}

/// The low byte of a word to a byte register.
fn emit_low_byte(out: &mut Vec<Item>, to: Reg8, operand: Location) -> Result<(), NoMemory>
    ensures { OnOk result (out.new.items
        ≡ out.old.items ++ lowering (place_of (location.Byte to)) (place_of operand)) }
{
    match operand {
        Location::Word(r) => emit_copy_byte(out, low_byte(r), Location::Byte(to)),
        Location::Byte(r) => emit_copy_byte(out, r, Location::Byte(to)),
        Location::Slot(offset) => emit(out, Insn::Mov8Load(to, at_offset(offset))),
    }
}

/// The low byte of a word.
pub fn emit_low(out: &mut Vec<Item>, to: Location, operand: Location) -> Result<(), NoMemory>
    ensures { OnOk result (out.new.items ≡ out.old.items ++ lowering (place_of to) (place_of operand)) }
{
    match to {
        Location::Word(r) => emit_copy(out, operand, Location::Word(r)),
        Location::Byte(r) => emit_low_byte(out, r, operand),
        Location::Slot(offset) => emit_copy(out, operand, Location::Slot(offset)),
    }
}

/// The low 16 bits of a byte's word to a register, with their sign.
fn emit_half_byte(out: &mut Vec<Item>, register: Reg32, from: Reg8) -> Result<(), NoMemory>
    ensures { OnOk result (out.new.items
        ≡ out.old.items ++ extend_half register (place_of (location.Byte from))) }
{
    emit_read(out, register, Location::Byte(from))?;
    emit(out, Insn::MovSx16(register, Rm32::Reg(register)))
}

/// The low 16 bits of a place's word to a register, with their sign.
fn emit_extend_half(out: &mut Vec<Item>, register: Reg32, operand: Location) -> Result<(), NoMemory>
    ensures { OnOk result (out.new.items ≡ out.old.items ++ extend_half register (place_of operand)) }
{
    match operand {
        Location::Word(r) => emit(out, Insn::MovSx16(register, Rm32::Reg(r))),
        Location::Byte(r) => emit_half_byte(out, register, r),
        Location::Slot(offset) => emit(out, Insn::MovSx16(register, Rm32::Mem(at_offset(offset)))),
    }
}

/// A number wrapped at 16 bits.
pub fn emit_half(out: &mut Vec<Item>, to: Location, operand: Location) -> Result<(), NoMemory>
    ensures { OnOk result (out.new.items ≡ out.old.items ++ halving (place_of to) (place_of operand)) }
{
    let register = target_of(to);
    emit_extend_half(out, register, operand)?;
    emit_write(out, to, register)
}
