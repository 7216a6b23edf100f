//! How words and bytes move between places and registers, and what an instruction works on.

ghost use Rattle.std.specs.Prelude.{◌≡◌, ◌++◌, OnOk};
ghost use Rattle.std.specs.Prelude.{◌%◌};
ghost use Rattle.std.specs.Int.{w32, cast_unsigned};
ghost use Rattle.ia32_rows.specs.Rows.{read, write, operate, number_row, copy_row, pass};
ghost use Rattle.ia32_emit.specs.Locations.{place_of};
ghost use Rattle.ia32_emit.specs.declared.locations.Location.TheVariants as location;

use crate::instructions::{emit, emit_two};
use crate::locations::{Location, at_offset, is_same};
use ia32_insn::{AluOp, Insn, Item, Reg8, Reg32, Rm8, Rm32};
use pcc_base::NoMemory;

/// A register's word to another, unless they are one.
fn emit_move(out: &mut Vec<Item>, to: Reg32, from: Reg32) -> Result<(), NoMemory>
    ensures { OnOk result (out.new.items ≡ out.old.items ++ read to (place_of (location.Word from))) }
{
    if is_same(from, to) {
        Ok(())
    } else {
        emit(out, Insn::Mov(Rm32::Reg(to), from))
    }
}

/// The word of a place to a register, unless it stands there; a byte with its sign.
pub(crate) fn emit_read(out: &mut Vec<Item>, to: Reg32, from: Location) -> Result<(), NoMemory>
    ensures { OnOk result (out.new.items ≡ out.old.items ++ read to (place_of from)) }
{
    match from {
        Location::Word(r) => emit_move(out, to, r),
        Location::Byte(r) => emit(out, Insn::MovSx8(to, Rm8::Reg(r))),
        Location::Slot(offset) => emit(out, Insn::MovLoad(to, at_offset(offset))),
    }
}

/// The word of a register to a place, unless it stands there; its low byte to a byte, by the word of scratch.
pub(crate) fn emit_write(out: &mut Vec<Item>, to: Location, from: Reg32) -> Result<(), NoMemory>
    ensures { OnOk result (out.new.items ≡ out.old.items ++ write (place_of to) from) }
{
    match to {
        Location::Word(r) => emit_move(out, r, from),
        Location::Byte(r) => emit_two(
            out,
            Insn::Mov(Rm32::Mem(at_offset(-16)), from),
            Insn::Mov8Load(r, at_offset(-16)),
        ),
        Location::Slot(offset) => emit(out, Insn::Mov(Rm32::Mem(at_offset(offset)), from)),
    }
}

/// An operation on a register, with the second operand where it stands.
pub(crate) fn emit_operate(
    out: &mut Vec<Item>,
    how: AluOp,
    register: Reg32,
    second: Location,
) -> Result<(), NoMemory>
    ensures { OnOk result (out.new.items ≡ out.old.items ++ operate how register (place_of second)) }
{
    match second {
        Location::Word(r) => emit(out, Insn::Alu(how, Rm32::Reg(register), r)),
        Location::Byte(r) => emit_two(
            out,
            Insn::MovSx8(Reg32::Edi, Rm8::Reg(r)),
            Insn::Alu(how, Rm32::Reg(register), Reg32::Edi),
        ),
        Location::Slot(offset) => emit(out, Insn::AluLoad(how, register, at_offset(offset))),
    }
}

/// The low byte of a number.
fn low_part(number: i32) -> u8
    ensures { result ≡ cast_unsigned w32 number % 256 }
{
    (number.cast_unsigned() % 256) as u8
}

/// A number to a place; its low byte to a byte.
pub fn emit_number(out: &mut Vec<Item>, to: Location, number: i32) -> Result<(), NoMemory>
    ensures { OnOk result (out.new.items ≡ out.old.items ++ number_row (place_of to) number) }
{
    match to {
        Location::Word(r) => emit(out, Insn::MovImm(Rm32::Reg(r), number)),
        Location::Byte(r) => emit(out, Insn::Mov8Imm(r, low_part(number))),
        Location::Slot(offset) => emit(out, Insn::MovImm(Rm32::Mem(at_offset(offset)), number)),
    }
}

/// A register's word to a place.
fn emit_copy_word(out: &mut Vec<Item>, from: Reg32, to: Location) -> Result<(), NoMemory>
    ensures { OnOk result (out.new.items ≡ out.old.items ++ copy_row (place_of (location.Word from)) (place_of to)) }
{
    match to {
        Location::Word(r) => emit(out, Insn::Mov(Rm32::Reg(r), from)),
        Location::Byte(r) => emit_write(out, Location::Byte(r), from),
        Location::Slot(offset) => emit(out, Insn::Mov(Rm32::Mem(at_offset(offset)), from)),
    }
}

/// A byte register to a place.
pub(crate) fn emit_copy_byte(out: &mut Vec<Item>, from: Reg8, to: Location) -> Result<(), NoMemory>
    ensures { OnOk result (out.new.items ≡ out.old.items ++ copy_row (place_of (location.Byte from)) (place_of to)) }
{
    match to {
        Location::Word(r) => emit(out, Insn::MovSx8(r, Rm8::Reg(from))),
        Location::Byte(r) => emit(out, Insn::Mov8(Rm8::Reg(r), from)),
        Location::Slot(offset) => emit(out, Insn::Mov8(Rm8::Mem(at_offset(offset)), from)),
    }
}

/// A slot to a place.
fn emit_copy_slot(out: &mut Vec<Item>, from: i32, to: Location) -> Result<(), NoMemory>
    ensures { OnOk result (out.new.items ≡ out.old.items ++ copy_row (place_of (location.Slot from)) (place_of to)) }
{
    match to {
        Location::Word(r) => emit(out, Insn::MovLoad(r, at_offset(from))),
        Location::Byte(r) => emit(out, Insn::Mov8Load(r, at_offset(from))),
        Location::Slot(offset) => emit_two(
            out,
            Insn::MovLoad(Reg32::Esi, at_offset(from)),
            Insn::Mov(Rm32::Mem(at_offset(offset)), Reg32::Esi),
        ),
    }
}

/// From a place to another.
pub fn emit_copy(out: &mut Vec<Item>, from: Location, to: Location) -> Result<(), NoMemory>
    ensures { OnOk result (out.new.items ≡ out.old.items ++ copy_row (place_of from) (place_of to)) }
{
    match from {
        Location::Word(r) => emit_copy_word(out, r, to),
        Location::Byte(r) => emit_copy_byte(out, r, to),
        Location::Slot(offset) => emit_copy_slot(out, offset, to),
    }
}

/// The word of a place onto the stack.
pub(crate) fn emit_pass(out: &mut Vec<Item>, from: Location) -> Result<(), NoMemory>
    ensures { OnOk result (out.new.items ≡ out.old.items ++ pass (place_of from)) }
{
    match from {
        Location::Word(r) => emit(out, Insn::Push(Rm32::Reg(r))),
        Location::Byte(r) => emit_two(
            out,
            Insn::MovSx8(Reg32::Esi, Rm8::Reg(r)),
            Insn::Push(Rm32::Reg(Reg32::Esi)),
        ),
        Location::Slot(offset) => emit(out, Insn::Push(Rm32::Mem(at_offset(offset)))),
    }
}
