//! Opcodes of two bytes, after 0F and after 66 (Intel manual, volume 2, table A-3). Each reader answers the
//! instruction and the length of the whole spelling.

ghost use Rattle.std.specs.Prelude.{◌≡◌, ◌-◌, ◌<◌, Some};
ghost use Rattle.ia32_insn.specs.declared.insn.Insn.TheVariants.{Jcc};
ghost use Rattle.ia32_insn.specs.Reading.{
  condition_at,
  extended32_insn,
  extended8_insn,
  read_with_signed,
  read_with32,
  read_with8,
  read_extended,
  read_sixteen,
  read_two_byte,
};

use crate::condition_numbers::condition_of;
use crate::memory_fields::signed_at;
use crate::opcodes;
use crate::operand_fields::{fields8, fields32};
use ia32_insn::Insn;

/// Jcc rel32, by the number of its condition and the bytes after the opcode.
#[tactic(auto, unfolding(ia32_insn::specs::Reading::read_with_signed))]
fn near(number: u8, rest: &[u8]) -> Option<(Insn, usize)>
    ensures { result ≡ read_with_signed 2 4 (λ z. Some (Jcc (condition_at number) z)) rest.now }
{
    let distance = signed_at(rest, 0, 4)?;
    Some((Insn::Jcc(condition_of(number), distance), 6))
}

/// ModRM follows, with an operand of 32 or 16 bits.
#[tactic(auto, unfolding(ia32_insn::specs::Reading::read_with32))]
fn with_fields32(opcode: u8, rest: &[u8]) -> Option<(Insn, usize)>
    ensures { result ≡ read_with32 2 (extended32_insn opcode) rest.now }
{
    let (reg, operand, len) = fields32(rest)?;
    let insn = opcodes::of_extended32(opcode, reg, operand)?;
    Some((insn, 2 + len))
}

/// ModRM follows, with an operand of 8 bits.
#[tactic(auto, unfolding(ia32_insn::specs::Reading::read_with8))]
fn with_fields8(opcode: u8, rest: &[u8]) -> Option<(Insn, usize)>
    ensures { result ≡ read_with8 2 (extended8_insn opcode) rest.now }
{
    let (reg, operand, len) = fields8(rest)?;
    let insn = opcodes::of_extended8(opcode, reg, operand)?;
    Some((insn, 2 + len))
}

/// The instruction with this opcode after 0F.
#[tactic(auto, unfolding(ia32_insn::specs::Reading::read_extended))]
fn read_second(opcode: u8, rest: &[u8]) -> Option<(Insn, usize)>
    ensures { result ≡ read_extended opcode rest.now }
{
    match opcode {
        0x0B => Some((Insn::Ud2, 2)),
        0x80..=0x8F => near(opcode - 0x80, rest),
        0x90..=0x9F | 0xB6 | 0xBE => with_fields8(opcode, rest),
        0xAF | 0xB7 | 0xBF => with_fields32(opcode, rest),
        _ => None,
    }
}

/// The instruction that begins with 0F, by the bytes after it.
#[tactic(auto, unfolding(ia32_insn::specs::Reading::read_two_byte))]
pub fn read(rest: &[u8]) -> Option<(Insn, usize)>
    ensures { result ≡ read_two_byte rest.now }
{
    if rest.is_empty() {
        return None;
    }
    read_second(rest[0], &rest[1..])
}

/// The instruction that begins with the prefix 66, by the bytes after it.
#[tactic(auto, unfolding(ia32_insn::specs::Reading::read_sixteen, ia32_insn::specs::Reading::read_with32))]
pub fn read_sixteen(rest: &[u8]) -> Option<(Insn, usize)>
    ensures { result ≡ read_sixteen rest.now }
{
    if rest.is_empty() {
        return None;
    }
    let (reg, operand, len) = fields32(&rest[1..])?;
    let insn = opcodes::of_sixteen(rest[0], reg, operand)?;
    Some((insn, 2 + len))
}
