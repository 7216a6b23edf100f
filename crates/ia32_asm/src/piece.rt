ghost use Rattle.std.specs.Prelude.{◌≡◌, ◌<◌, ◌≤◌, ◌+◌, ◌^◌, ◌++◌, OnOk};
ghost use Rattle.ia32_asm.specs.Sections.{IsSpelled, is_relative, item_size, target_of};
ghost use Rattle.ia32_asm.specs.Pieces.{HasEntry, IsPreferred, distance_in, instruction_in, piece, relocations_in};

use crate::lengths::length_of;
use crate::section::{Relocation, Target};
use crate::spelling::encode;
use ia32_insn::{Insn, Item, Rm32};
use pcc_base::NoMemory;

/// The number of an object that stands for the depth word.
const DEPTH: u32 = 4_294_967_295;

/// The bytes of the word that a relocation names.
const WORD_BYTES: u32 = 4;

/// The instruction of an item. A jump to a label has this distance, and what awaits the address of a
/// target has 0.
pub(crate) fn instruction_in(item: &Item, distance: i32) -> Option<Insn>
    ensures { result ≡ instruction_in distance item.now }
{
    match *item {
        Item::Plain(insn) => Some(insn),
        Item::Label(_) | Item::Point(_) => None,
        Item::JumpTo(_) => Some(Insn::Jmp(distance)),
        Item::JumpIf(condition, _) => Some(Insn::Jcc(condition, distance)),
        Item::CallFunction(_) | Item::CallStub(_) => Some(Insn::Call(0)),
        Item::JumpTrap(None) => Some(Insn::Jmp(0)),
        Item::JumpTrap(Some(condition)) => Some(Insn::Jcc(condition, 0)),
        Item::AddressOf(register, _) => Some(Insn::MovImm(Rm32::Reg(register), 0)),
    }
}

/// How many bytes an item has, without spelling it: a jump or call has a word behind an opcode of one byte, or of two
/// where it has a condition (Intel manual, volume 2: JMP, CALL, Jcc), and so has a MOV to a register behind one byte.
pub(crate) fn size_of(item: &Item) -> u32
    requires { IsSpelled item.now }
    ensures value { result ≡ item_size item.now }
    ensures short { result ≤ 15 }
{
    match item {
        Item::Plain(insn) => length_of(insn),
        Item::Label(_) | Item::Point(_) => 0,
        Item::JumpTo(_) | Item::CallFunction(_) | Item::CallStub(_) | Item::JumpTrap(None) => 5,
        Item::JumpIf(_, _) | Item::JumpTrap(Some(_)) => 6,
        Item::AddressOf(_, _) => 5,
    }
}

/// The distance to its label from the end of an item at an offset, where the labels have these offsets;
/// 0 for an item that jumps to none.
pub(crate) fn distance_in(item: &Item, labels: &Vec<u32>, offset: u32) -> i32
    requires entry { HasEntry labels.now.items item.now }
    requires room { offset < 2 ^ 30 }
    ensures { result ≡ distance_in labels.now.items offset item.now }
{
    match *item {
        Item::JumpTo(label) | Item::JumpIf(_, label) => {
            let end = offset + size_of(item);
            labels[label as usize].wrapping_sub(end).cast_signed()
        }
        Item::Plain(_) | Item::Label(_) | Item::Point(_) => 0,
        Item::CallFunction(_) | Item::CallStub(_) | Item::JumpTrap(_) => 0,
        Item::AddressOf(_, _) => 0,
    }
}

/// What an item names outside of its function.
pub(crate) fn target_of(item: &Item) -> Option<Target>
    ensures { result ≡ target_of item.now }
{
    match *item {
        Item::CallFunction(function) => Some(Target::Function(function)),
        Item::CallStub(stub) => Some(Target::Stub(stub)),
        Item::JumpTrap(_) => Some(Target::Check),
        Item::AddressOf(_, DEPTH) => Some(Target::Depth),
        Item::AddressOf(_, object) => Some(Target::Object(object)),
        Item::Plain(_) | Item::Label(_) | Item::Point(_) => None,
        Item::JumpTo(_) | Item::JumpIf(_, _) => None,
    }
}

/// Code is called and jumped to by its distance, and data have an address.
fn is_relative(target: Target) -> bool
    ensures { result ≡ is_relative target }
{
    match target {
        Target::Function(_) | Target::Stub(_) | Target::Check => true,
        Target::Object(_) | Target::Depth => false,
    }
}

/// Puts the bytes of an item at the end.
pub(crate) fn put_bytes(bytes: &mut Vec<u8>, item: &Item, distance: i32) -> Result<(), NoMemory>
    requires { IsSpelled item.now }
    ensures bytes { OnOk result (bytes.new.items ≡ bytes.old.items ++ piece distance item.now) }
    ensures spelled { OnOk result (IsPreferred item.now) }
{
    if let Some(insn) = instruction_in(item, distance) {
        bytes.extend_from_slice(&encode(&insn))?;
    }
    Ok(())
}

/// Puts the relocation of an item that ends at an offset at the end, if it has one: its last four bytes
/// are those that it awaits.
pub(crate) fn put_relocation(
    relocations: &mut Vec<Relocation>,
    item: &Item,
    end: u32,
) -> Result<(), NoMemory>
    requires { item_size item.now ≤ end }
    ensures { OnOk result (relocations.new.items ≡ relocations.old.items ++ relocations_in end item.now) }
{
    if let Some(target) = target_of(item) {
        relocations.push(Relocation {
            at: end - WORD_BYTES,
            relative: is_relative(target),
            target,
        })?;
    }
    Ok(())
}
