//! The rows of bytes as words, of shifts and of divisions.

ghost use Rattle.std.specs.Prelude.{◌≡◌, ◌∷◌, [], ◌++◌, OnOk};
ghost use Rattle.ia32_insn.specs.Items.{plain};
ghost use Rattle.ia32_insn.specs.declared.insn.Insn.TheVariants as insn;
ghost use Rattle.ia32_insn.specs.declared.operand.Rm32.TheVariants as rm;
ghost use Rattle.ia32_rows.specs.Rows.{before_division, byte_operand, dividing, into_count, shifted_in, shifting, write};
ghost use Rattle.ia32_rows.specs.Rows.{widening, zero_edx};
ghost use Rattle.ia32_emit.specs.Locations.{place_of};
ghost use Rattle.ia32_emit.specs.declared.locations.Location.TheVariants as location;

use crate::divisions::{divisor_of, emit_before_division};
use crate::instructions::emit;
use crate::locations::{
    Location, at_offset, is_same, low_byte, number_of_byte, target_of, working,
};
use crate::moves::{emit_read, emit_write};
use ia32_insn::{AluOp, Insn, Item, Reg8, Reg32, Rm8, Rm32, ShiftOp};
use pcc_base::NoMemory;

/// The byte of a place, or the lowest one of its word.
fn byte_operand(operand: Location) -> Rm8
    ensures { result ≡ byte_operand (place_of operand) }
{
    match operand {
        Location::Word(r) => Rm8::Reg(low_byte(r)),
        Location::Byte(r) => Rm8::Reg(r),
        Location::Slot(offset) => Rm8::Mem(at_offset(offset)),
    }
}

/// A byte to a word, with its sign.
pub fn emit_wide(out: &mut Vec<Item>, to: Location, operand: Location) -> Result<(), NoMemory>
    ensures { OnOk result (out.new.items ≡ out.old.items ++ widening insn.MovSx8 (place_of to) (place_of operand)) }
{
    let register = target_of(to);
    emit(out, Insn::MovSx8(register, byte_operand(operand)))?;
    emit_write(out, to, register)
}

/// A byte to a word, with zero bits above it.
pub fn emit_zero(out: &mut Vec<Item>, to: Location, operand: Location) -> Result<(), NoMemory>
    ensures { OnOk result (out.new.items ≡ out.old.items ++ widening insn.MovZx8 (place_of to) (place_of operand)) }
{
    let register = target_of(to);
    emit(out, Insn::MovZx8(register, byte_operand(operand)))?;
    emit_write(out, to, register)
}

/// A byte register to CL, unless it is CL.
fn emit_count_byte(out: &mut Vec<Item>, count: Reg8) -> Result<(), NoMemory>
    ensures { OnOk result (out.new.items ≡ out.old.items ++ into_count (place_of (location.Byte count))) }
{
    if number_of_byte(count) == number_of_byte(Reg8::Cl) {
        Ok(())
    } else {
        emit(out, Insn::Mov8(Rm8::Reg(Reg8::Cl), count))
    }
}

/// The count's byte to CL, unless it stands there.
fn emit_count(out: &mut Vec<Item>, count: Location) -> Result<(), NoMemory>
    ensures { OnOk result (out.new.items ≡ out.old.items ++ into_count (place_of count)) }
{
    match count {
        Location::Word(r) => emit(out, Insn::Mov8(Rm8::Reg(Reg8::Cl), low_byte(r))),
        Location::Byte(r) => emit_count_byte(out, r),
        Location::Slot(offset) => emit(out, Insn::Mov8Load(Reg8::Cl, at_offset(offset))),
    }
}

/// The register that is shifted.
fn shifted_in(to: Location, first: Location, count: Location) -> Reg32
    ensures { result ≡ shifted_in (place_of to) (place_of first) (place_of count) }
{
    match to {
        Location::Word(r) => {
            if is_same(r, Reg32::Ecx) {
                Reg32::Esi
            } else {
                working(Location::Word(r), first, count)
            }
        }
        Location::Byte(_) | Location::Slot(_) => Reg32::Esi,
    }
}

/// The count to CL, and the shift of a register by it.
fn emit_shift_of(
    out: &mut Vec<Item>,
    how: ShiftOp,
    register: Reg32,
    count: Location,
) -> Result<(), NoMemory>
    ensures { OnOk result (out.new.items ≡ out.old.items
        ++ (into_count (place_of count) ++ plain (insn.ShiftCl how (rm.Reg register)) ∷ [])) }
{
    emit_count(out, count)?;
    emit(out, Insn::ShiftCl(how, Rm32::Reg(register)))
}

/// A shift of a word by a count of one byte.
pub fn emit_shift(
    out: &mut Vec<Item>,
    how: ShiftOp,
    to: Location,
    first: Location,
    count: Location,
) -> Result<(), NoMemory>
    ensures { OnOk result (out.new.items
        ≡ out.old.items ++ shifting how (place_of to) (place_of first) (place_of count)) }
{
    let register = shifted_in(to, first, count);
    emit_read(out, register, first)?;
    emit_shift_of(out, how, register, count)?;
    emit_write(out, to, register)
}

/// A division by an instruction, behind the one that makes the upper word of its dividend; the result is the quotient,
/// in EAX, or the remainder, in EDX.
fn emit_dividing(
    out: &mut Vec<Item>,
    upper: Insn,
    divide: Insn,
    part: Reg32,
    to: Location,
    first: Location,
    second: Location,
) -> Result<(), NoMemory>
    ensures { OnOk result (out.new.items
        ≡ out.old.items ++ (before_division upper (place_of first) (place_of second) ++ plain divide ∷ []
        ++ write (place_of to) part)) }
{
    emit_before_division(out, upper, first, second)?;
    emit(out, divide)?;
    emit_write(out, to, part)
}

/// A division of signed numbers, by CDQ and IDIV.
pub fn emit_division(
    out: &mut Vec<Item>,
    part: Reg32,
    to: Location,
    first: Location,
    second: Location,
) -> Result<(), NoMemory>
    ensures { OnOk result (out.new.items ≡ out.old.items
        ++ dividing insn.Cdq insn.IDiv part (place_of to) (place_of first) (place_of second)) }
{
    let divide = Insn::IDiv(divisor_of(second));
    emit_dividing(out, Insn::Cdq, divide, part, to, first, second)
}

/// A division of numbers without sign, by DIV with zero above the dividend.
pub fn emit_unsigned_division(
    out: &mut Vec<Item>,
    part: Reg32,
    to: Location,
    first: Location,
    second: Location,
) -> Result<(), NoMemory>
    ensures { OnOk result (out.new.items ≡ out.old.items
        ++ dividing zero_edx insn.Div part (place_of to) (place_of first) (place_of second)) }
{
    let upper = Insn::Alu(AluOp::Xor, Rm32::Reg(Reg32::Edx), Reg32::Edx);
    let divide = Insn::Div(divisor_of(second));
    emit_dividing(out, upper, divide, part, to, first, second)
}
