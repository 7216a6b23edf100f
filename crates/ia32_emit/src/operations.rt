//! The rows of sums, differences and operations on bits.

ghost use Rattle.std.specs.Prelude.{◌≡◌, ◌++◌, OnOk};
ghost use Rattle.ia32_rows.specs.Rows.{adding, by_register, commuting, in_slot, operation, sum_of};
ghost use Rattle.ia32_emit.specs.Locations.{distance, place_of};
ghost use Rattle.ia32_emit.specs.declared.locations.Location.TheVariants as location;

use crate::instructions::emit;
use crate::locations::{Location, at_offset, has_operand, is_at, target_of, working};
use crate::moves::{emit_operate, emit_read, emit_write};
use ia32_insn::{AluOp, Insn, Item, Mem, Reg32, Rm32};
use pcc_base::NoMemory;

/// The first operand to a register, the operation, and the result to its place.
fn emit_by_register(
    out: &mut Vec<Item>,
    how: AluOp,
    to: Location,
    first: Location,
    second: Location,
) -> Result<(), NoMemory>
    ensures { OnOk result (out.new.items
        ≡ out.old.items ++ by_register how (place_of to) (place_of first) (place_of second)) }
{
    let register = working(to, first, second);
    emit_read(out, register, first)?;
    emit_operate(out, how, register, second)?;
    emit_write(out, to, register)
}

/// An operation on the slot at an offset, with the word of the second operand in a register.
fn emit_in_slot(
    out: &mut Vec<Item>,
    how: AluOp,
    offset: i32,
    second: Location,
) -> Result<(), NoMemory>
    ensures { OnOk result (out.new.items ≡ out.old.items ++ in_slot how (distance offset) (place_of second)) }
{
    let register = target_of(second);
    emit_read(out, register, second)?;
    emit(out, Insn::Alu(how, Rm32::Mem(at_offset(offset)), register))
}

/// An operation whose result goes to the slot at an offset.
fn emit_to_slot(
    out: &mut Vec<Item>,
    how: AluOp,
    offset: i32,
    first: Location,
    second: Location,
) -> Result<(), NoMemory>
    ensures { OnOk result (out.new.items ≡ out.old.items
        ++ operation how (place_of (location.Slot offset)) (place_of first) (place_of second)) }
{
    if is_at(offset, first) {
        emit_in_slot(out, how, offset, second)
    } else {
        emit_by_register(out, how, Location::Slot(offset), first, second)
    }
}

/// An operation on two words: on the slot, where the first operand stands in that of the result, else in a register.
pub fn emit_operation(
    out: &mut Vec<Item>,
    how: AluOp,
    to: Location,
    first: Location,
    second: Location,
) -> Result<(), NoMemory>
    ensures { OnOk result (out.new.items
        ≡ out.old.items ++ operation how (place_of to) (place_of first) (place_of second)) }
{
    match to {
        Location::Word(_) | Location::Byte(_) => emit_by_register(out, how, to, first, second),
        Location::Slot(offset) => emit_to_slot(out, how, offset, first, second),
    }
}

/// The same, of operands that commute.
pub fn emit_commuting(
    out: &mut Vec<Item>,
    how: AluOp,
    to: Location,
    first: Location,
    second: Location,
) -> Result<(), NoMemory>
    ensures { OnOk result (out.new.items
        ≡ out.old.items ++ commuting how (place_of to) (place_of first) (place_of second)) }
{
    if has_operand(to, second) {
        emit_operation(out, how, to, second, first)
    } else {
        emit_operation(out, how, to, first, second)
    }
}

/// The sum of two registers, as an address.
fn sum_of(first: Reg32, second: Reg32) -> Mem
    ensures { result ≡ sum_of first second }
{
    Mem {
        base: Some(first),
        index: Some((second, 1)),
        disp: 0,
    }
}

/// The sum of two registers: by LEA, unless the result stands in one of them.
fn emit_register_sum(
    out: &mut Vec<Item>,
    to: Location,
    first: Reg32,
    second: Reg32,
) -> Result<(), NoMemory>
    ensures { OnOk result (out.new.items ≡ out.old.items
        ++ adding (place_of to) (place_of (location.Word first)) (place_of (location.Word second))) }
{
    let one = Location::Word(first);
    let other = Location::Word(second);
    if has_operand(to, one) || has_operand(to, other) {
        emit_commuting(out, AluOp::Add, to, one, other)
    } else {
        let register = target_of(to);
        emit(out, Insn::Lea(register, sum_of(first, second)))?;
        emit_write(out, to, register)
    }
}

/// The sum of two words.
pub fn emit_sum(
    out: &mut Vec<Item>,
    to: Location,
    first: Location,
    second: Location,
) -> Result<(), NoMemory>
    ensures { OnOk result (out.new.items
        ≡ out.old.items ++ adding (place_of to) (place_of first) (place_of second)) }
{
    match (first, second) {
        (Location::Word(a), Location::Word(b)) => emit_register_sum(out, to, a, b),
        (Location::Word(_), Location::Byte(_) | Location::Slot(_))
        | (Location::Byte(_) | Location::Slot(_), _) => {
            emit_commuting(out, AluOp::Add, to, first, second)
        }
    }
}
