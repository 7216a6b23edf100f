//! Opcodes of one byte, by what follows them (Intel manual, volume 2, table A-2). Each reader has the bytes
//! after the opcode, and answers the instruction and the length of the whole spelling.

ghost use Rattle.std.specs.Prelude.{◌≡◌, ◌⊎◌};
ghost use Rattle.ia32_insn.specs.Reading.{
  byte_insn,
  short_insn,
  long_insn,
  lone_insn,
  fields32_insn,
  fields8_insn,
  immediate_insn,
  read_lone,
  read_with_byte,
  read_with_signed,
  read_with32,
  read_with8,
  read_immediate,
  read_shift,
  read_opcode,
};

use crate::condition_numbers::shift_of;
use crate::memory_fields::signed_at;
use crate::operand_fields::{byte_at, fields8, fields32};
use crate::{opcodes, two_byte};
use ia32_insn::Insn;

/// Nothing follows the opcode.
#[tactic(auto, unfolding(ia32_insn::specs::Reading::read_lone))]
fn lone(opcode: u8) -> Option<(Insn, usize)>
    ensures { result ≡ read_lone (lone_insn opcode) }
{
    let insn = opcodes::of_opcode(opcode)?;
    Some((insn, 1))
}

/// One byte follows.
#[tactic(auto, unfolding(ia32_insn::specs::Reading::read_with_byte))]
fn with_byte(opcode: u8, rest: &[u8]) -> Option<(Insn, usize)>
    ensures { result ≡ read_with_byte (byte_insn opcode) rest.now }
{
    let number = byte_at(rest, 0)?;
    let insn = opcodes::of_byte(opcode, number)?;
    Some((insn, 2))
}

/// One byte follows that is a signed number.
#[tactic(auto, unfolding(ia32_insn::specs::Reading::read_with_signed))]
fn with_short(opcode: u8, rest: &[u8]) -> Option<(Insn, usize)>
    ensures { result ≡ read_with_signed 1 1 (short_insn opcode) rest.now }
{
    let number = signed_at(rest, 0, 1)?;
    let insn = opcodes::of_short(opcode, number)?;
    Some((insn, 2))
}

/// Four bytes follow that are a signed number.
#[tactic(auto, unfolding(ia32_insn::specs::Reading::read_with_signed))]
fn with_long(opcode: u8, rest: &[u8]) -> Option<(Insn, usize)>
    ensures { result ≡ read_with_signed 1 4 (long_insn opcode) rest.now }
{
    let number = signed_at(rest, 0, 4)?;
    let insn = opcodes::of_long(opcode, number)?;
    Some((insn, 5))
}

/// ModRM follows, with an operand of 32 bits.
#[tactic(auto, unfolding(ia32_insn::specs::Reading::read_with32))]
fn with_fields32(opcode: u8, rest: &[u8]) -> Option<(Insn, usize)>
    ensures { result ≡ read_with32 1 (fields32_insn opcode) rest.now }
{
    let (reg, operand, len) = fields32(rest)?;
    let insn = opcodes::of_fields32(opcode, reg, operand)?;
    Some((insn, 1 + len))
}

/// ModRM follows, with an operand of 8 bits.
#[tactic(auto, unfolding(ia32_insn::specs::Reading::read_with8))]
fn with_fields8(opcode: u8, rest: &[u8]) -> Option<(Insn, usize)>
    ensures { result ≡ read_with8 1 (fields8_insn opcode) rest.now }
{
    let (reg, operand, len) = fields8(rest)?;
    let insn = opcodes::of_fields8(opcode, reg, operand)?;
    Some((insn, 1 + len))
}

/// ModRM follows, and then a signed number of one byte or four.
#[tactic(auto, unfolding(ia32_insn::specs::Reading::read_immediate))]
fn with_immediate(opcode: u8, size: usize, rest: &[u8]) -> Option<(Insn, usize)>
    requires { (size ≡ 1) ⊎ (size ≡ 4) }
    ensures { result ≡ read_immediate size (immediate_insn opcode) rest.now }
{
    let (reg, operand, len) = fields32(rest)?;
    let number = signed_at(rest, len, size)?;
    let insn = opcodes::of_immediate(opcode, reg, operand, number)?;
    Some((insn, 1 + len + size))
}

/// ModRM follows, and then the count of a shift.
#[tactic(auto, unfolding(ia32_insn::specs::Reading::read_shift))]
fn with_count(rest: &[u8]) -> Option<(Insn, usize)>
    ensures { result ≡ read_shift rest.now }
{
    let (reg, operand, len) = fields32(rest)?;
    let count = byte_at(rest, len)?;
    let op = shift_of(reg)?;
    Some((Insn::ShiftImm(op, operand, count), 2 + len))
}

/// The instruction with this opcode.
#[tactic(auto, unfolding(ia32_insn::specs::Reading::read_opcode))]
pub fn read(opcode: u8, rest: &[u8]) -> Option<(Insn, usize)>
    ensures { result ≡ read_opcode opcode rest.now }
{
    match opcode {
        0x0F => two_byte::read(rest),
        0x66 => two_byte::read_sixteen(rest),
        0x00..=0x3F | 0x85 | 0x87 | 0x89 | 0x8B | 0x8D | 0xD3 | 0xF7 | 0xFF => {
            with_fields32(opcode, rest)
        }
        0x86 | 0x88 | 0x8A => with_fields8(opcode, rest),
        0x81 | 0xC7 => with_immediate(opcode, 4, rest),
        0x83 => with_immediate(opcode, 1, rest),
        0xC1 => with_count(rest),
        0x68 | 0xB8..=0xBF | 0xE8 | 0xE9 => with_long(opcode, rest),
        0x70..=0x7F | 0xEB => with_short(opcode, rest),
        0xB0..=0xB7 | 0xCD => with_byte(opcode, rest),
        _ => lone(opcode),
    }
}
