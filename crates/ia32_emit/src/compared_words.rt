//! Comparisons of two words where they stand, the number that a condition gives, and jumps.

ghost use Rattle.std.specs.Prelude.{◌≡◌, ◌++◌, OnOk, map};
ghost use Rattle.ia32_insn.specs.declared.insn.AluOp.TheVariants as alu;
ghost use Rattle.ia32_insn.specs.declared.item.Item.TheVariants as item;
ghost use Rattle.ia32_insn.specs.declared.register_names.Reg32.TheVariants.{Esi};
ghost use Rattle.ia32_rows.specs.Rows.{operate, read, comparing, set_row, jumping, same_row};
ghost use Rattle.ia32_emit.specs.Locations.{place_of};
ghost use Rattle.ia32_emit.specs.declared.locations.Location.TheVariants as location;

use crate::instructions::{emit, emit_all, emit_insns, emit_three, emit_two};
use crate::locations::{Location, at_offset, low_byte};
use crate::moves::{emit_operate, emit_read};
use ia32_insn::{AluOp, Cond, Insn, Item, Reg32, Rm8, Rm32};
use pcc_base::NoMemory;

/// CMP of two words, the first through ESI.
fn emit_compare_through(
    out: &mut Vec<Item>,
    first: Location,
    second: Location,
) -> Result<(), NoMemory>
    ensures { OnOk result (out.new.items
        ≡ out.old.items ++ read Esi (place_of first) ++ operate alu.Cmp Esi (place_of second)) }
{
    emit_read(out, Reg32::Esi, first)?;
    emit_operate(out, AluOp::Cmp, Reg32::Esi, second)
}

/// CMP of a slot's word and another.
fn emit_compare_slot(out: &mut Vec<Item>, first: i32, second: Location) -> Result<(), NoMemory>
    ensures { OnOk result (out.new.items
        ≡ out.old.items ++ comparing (place_of (location.Slot first)) (place_of second)) }
{
    match second {
        Location::Word(r) => emit(out, Insn::Alu(AluOp::Cmp, Rm32::Mem(at_offset(first)), r)),
        Location::Byte(r) => { emit_compare_through(out, Location::Slot(first), Location::Byte(r)) }
        Location::Slot(offset) => {
            emit_compare_through(out, Location::Slot(first), Location::Slot(offset))
        }
    }
}

/// CMP of two words where they stand; the first through ESI where both are in memory.
pub(crate) fn emit_compare(
    out: &mut Vec<Item>,
    first: Location,
    second: Location,
) -> Result<(), NoMemory>
    ensures { OnOk result (out.new.items ≡ out.old.items ++ comparing (place_of first) (place_of second)) }
{
    match first {
        Location::Word(r) => emit_operate(out, AluOp::Cmp, r, second),
        Location::Byte(r) => emit_compare_through(out, Location::Byte(r), second),
        Location::Slot(offset) => emit_compare_slot(out, offset, second),
    }
}

/// 1 or 0 to a register, by a condition.
fn emit_truth_word(out: &mut Vec<Item>, condition: Cond, to: Reg32) -> Result<(), NoMemory>
    ensures { OnOk result (out.new.items ≡ out.old.items ++ set_row condition (place_of (location.Word to))) }
{
    let byte = low_byte(to);
    emit_two(
        out,
        Insn::SetCc(condition, Rm8::Reg(byte)),
        Insn::MovZx8(to, Rm8::Reg(byte)),
    )
}

/// 1 or 0 to a slot, by a condition.
fn emit_truth_slot(out: &mut Vec<Item>, condition: Cond, offset: i32) -> Result<(), NoMemory>
    ensures { OnOk result (out.new.items
        ≡ out.old.items ++ set_row condition (place_of (location.Slot offset))) }
{
    let slot = at_offset(offset);
    emit_three(
        out,
        Insn::SetCc(condition, Rm8::Mem(slot)),
        Insn::MovZx8(Reg32::Esi, Rm8::Mem(slot)),
        Insn::Mov(Rm32::Mem(slot), Reg32::Esi),
    )
}

/// 1 or 0 to a place, by a condition.
pub(crate) fn emit_truth(out: &mut Vec<Item>, condition: Cond, to: Location) -> Result<(), NoMemory>
    ensures { OnOk result (out.new.items ≡ out.old.items ++ set_row condition (place_of to)) }
{
    match to {
        Location::Word(r) => emit_truth_word(out, condition, r),
        Location::Byte(r) => emit(out, Insn::SetCc(condition, Rm8::Reg(r))),
        Location::Slot(offset) => emit_truth_slot(out, condition, offset),
    }
}

/// To a label, through the moves on the way there.
pub fn emit_jump(out: &mut Vec<Item>, moves: &[Insn], label: u32) -> Result<(), NoMemory>
    ensures { OnOk result (out.new.items ≡ out.old.items ++ jumping (map item.Plain moves.now) label) }
{
    emit_insns(out, moves)?;
    emit_all(out, &[Item::JumpTo(label)])
}

/// The trap of a failed check, unless two words are the same.
pub fn emit_same(out: &mut Vec<Item>, first: Location, second: Location) -> Result<(), NoMemory>
    ensures { OnOk result (out.new.items ≡ out.old.items ++ same_row (place_of first) (place_of second)) }
{
    emit_compare(out, first, second)?;
    emit_all(out, &[Item::JumpTrap(Some(Cond::Ne))])
}
