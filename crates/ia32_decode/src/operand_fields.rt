//! The byte and the fields that follow an opcode: ModRM, and the operand that it and what follows it name (Intel
//! manual, volume 2, section 2.1). What is found comes with the number of bytes that it takes.

ghost use Rattle.std.specs.Prelude.{◌≡◌, ◌≤◌, drop, IfSome};
ghost use Rattle.ia32_insn.specs.Reading.{read_byte, read_fields32, read_fields8};

use crate::condition_numbers::byte_register_of;
use crate::memory_fields::memory;
use crate::register_numbers::register_of;
use ia32_insn::{Rm8, Rm32};

/// The byte at a place.
#[tactic(auto, unfolding(ia32_insn::specs::Reading::read_byte))]
pub fn byte_at(bytes: &[u8], place: usize) -> Option<u8>
    ensures { result ≡ read_byte (drop place bytes.now) }
{
    if place >= bytes.len() {
        return None;
    }
    Some(bytes[place])
}

/// The number in the reg field, and the operand of 32 or 16 bits in the r/m field.
#[tactic(auto, unfolding(ia32_insn::specs::Reading::read_fields, ia32_insn::specs::Reading::read_fields32))]
pub(crate) fn fields32(bytes: &[u8]) -> Option<(u8, Rm32, usize)>
    ensures same { result ≡ read_fields32 bytes.now }
    ensures short { IfSome result (λ found. found.2 ≤ 6) }
{
    if bytes.is_empty() {
        return None;
    }
    let modrm = bytes[0];
    let reg = modrm / 8 % 8;
    if modrm / 64 == 3 {
        return Some((reg, Rm32::Reg(register_of(modrm % 8)), 1));
    }
    let (memory, len) = memory(modrm / 64, modrm % 8, &bytes[1..])?;
    Some((reg, Rm32::Mem(memory), 1 + len))
}

/// The number in the reg field, and the operand of 8 bits in the r/m field.
#[tactic(auto, unfolding(ia32_insn::specs::Reading::read_fields, ia32_insn::specs::Reading::read_fields8))]
pub(crate) fn fields8(bytes: &[u8]) -> Option<(u8, Rm8, usize)>
    ensures same { result ≡ read_fields8 bytes.now }
    ensures short { IfSome result (λ found. found.2 ≤ 6) }
{
    if bytes.is_empty() {
        return None;
    }
    let modrm = bytes[0];
    let reg = modrm / 8 % 8;
    if modrm / 64 == 3 {
        return Some((reg, Rm8::Reg(byte_register_of(modrm % 8)), 1));
    }
    let (memory, len) = memory(modrm / 64, modrm % 8, &bytes[1..])?;
    Some((reg, Rm8::Mem(memory), 1 + len))
}
