//! SIB, displacements and immediate numbers (Intel manual, volume 2, section 2.1), each by the bytes that begin with
//! it, and memory operands. What is found comes with the number of bytes that it takes.

ghost use Rattle.std.specs.Prelude.{◌≡◌, ◌⊎◌, ◌≤◌, ◌<◌, ◌^◌, Option, Some, option_map, drop, IfSome};
ghost use Rattle.ia32_insn.specs.Spelling.{displacement_size};
ghost use Rattle.ia32_insn.specs.Reading.{
  read_signed,
  read_base,
  read_index,
  read_address,
  read_sib,
  read_memory,
};

use crate::register_numbers::register_of;
use byteorder::{ByteOrder, LittleEndian};
use ia32_insn::{Mem, Reg32};

/// The signed number in one byte or four from a place on, the lowest first.
#[tactic(auto, unfolding(ia32_insn::specs::Reading::read_signed))]
pub(crate) fn signed_at(bytes: &[u8], place: usize, size: usize) -> Option<i32>
    requires { (size ≡ 1) ⊎ (size ≡ 4) }
    ensures { result ≡ read_signed size (drop place bytes.now) }
{
    if place > bytes.len() || bytes.len() - place < size {
        return None;
    }
    let rest = &bytes[place..];
    if size == 1 {
        Some(i32::from(rest[0].cast_signed()))
    } else {
        Some(LittleEndian::read_i32(rest))
    }
}

/// The base register, or None where a displacement stands in its place.
#[tactic(auto, unfolding(ia32_insn::specs::Reading::read_base))]
fn base_of(mode: u8, number: u8) -> Option<Reg32>
    ensures { result ≡ read_base mode number }
{
    if mode == 0 && number == 5 {
        None
    } else {
        Some(register_of(number))
    }
}

/// What an index is multiplied by.
fn factor_of(scale: u8) -> u8
    requires { scale < 4 }
    ensures { result ≡ 2 ^ scale }
{
    match scale {
        0 => 1,
        1 => 2,
        2 => 4,
        _ => 8,
    }
}

/// The index register and its factor, or None where there is none.
#[tactic(auto, unfolding(ia32_insn::specs::Reading::read_index))]
fn index_of(scale: u8, number: u8) -> Option<(Reg32, u8)>
    requires { scale < 4 }
    ensures { result ≡ read_index scale number }
{
    if number == 4 {
        None
    } else {
        Some((register_of(number), factor_of(scale)))
    }
}

/// The displacement that goes with this mod and this number of a base.
#[tactic(auto, unfolding(ia32_insn::specs::Reading::read_signed))]
fn displacement(mode: u8, number: u8, bytes: &[u8]) -> Option<(i32, usize)>
    ensures { result ≡ option_map (λ z. (z, displacement_size mode number))
        (read_signed (displacement_size mode number) bytes.now) }
{
    if mode == 1 {
        return Some((signed_at(bytes, 0, 1)?, 1));
    }
    if mode == 2 || number == 5 {
        return Some((signed_at(bytes, 0, 4)?, 4));
    }
    Some((0, 0))
}

/// The memory operand of this base and this index, with the displacement that follows.
#[tactic(auto, unfolding(ia32_insn::specs::Reading::read_address))]
fn address(mode: u8, base: u8, index: Option<(Reg32, u8)>, bytes: &[u8]) -> Option<(Mem, usize)>
    ensures same { result ≡ read_address mode base index bytes.now }
    ensures short { IfSome result (λ found. found.1 ≤ 4) }
{
    let (disp, len) = displacement(mode, base, bytes)?;
    let base = base_of(mode, base);
    Some((Mem { base, index, disp }, len))
}

/// The memory operand that a SIB byte and what follows it name (table 2-3).
#[tactic(auto, unfolding(ia32_insn::specs::Reading::read_sib))]
fn sib(mode: u8, bytes: &[u8]) -> Option<(Mem, usize)>
    ensures same { result ≡ read_sib mode bytes.now }
    ensures short { IfSome result (λ found. found.1 ≤ 5) }
{
    if bytes.is_empty() {
        return None;
    }
    let sib = bytes[0];
    let index = index_of(sib / 64, sib / 8 % 8);
    let (memory, len) = address(mode, sib % 8, index, &bytes[1..])?;
    Some((memory, 1 + len))
}

/// The memory operand that this mod, which isn't 3, this r/m and what follows ModRM name (table 2-2).
#[tactic(auto, unfolding(ia32_insn::specs::Reading::read_memory))]
pub fn memory(mode: u8, number: u8, bytes: &[u8]) -> Option<(Mem, usize)>
    ensures same { result ≡ read_memory mode number bytes.now }
    ensures short { IfSome result (λ found. found.1 ≤ 5) }
{
    if number == 4 {
        sib(mode, bytes)
    } else {
        address(mode, number, None, bytes)
    }
}
