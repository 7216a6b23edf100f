ghost use Rattle.std.specs.Prelude.{◌≡◌, ◌+◌, ◌<◌, ◌≤◌, ◌++◌, length, not, ◌==◌};
ghost use Rattle.arrayvec.specs.ArrayVec.{array_vec_len};
ghost use Rattle.ia32_insn.specs.Preferred as preferred;
ghost use Rattle.ia32_insn.specs.Spelling.{InMemory, operand32, operand8};
ghost use Rattle.ia32_asm.specs.Parts.{IsOperand};

use crate::numbers::{byte_of, fits_byte, number8, number32};
use arrayvec::ArrayVec;
use ia32_insn::{Mem, Reg32, Rm8, Rm32};

/// Appends the bytes.
pub(crate) fn push_bytes(out: &mut ArrayVec<u8, 15>, bytes: &[u8])
    requires { array_vec_len out.old + length bytes.now ≤ 15 }
    ensures items { out.new.items ≡ out.old.items ++ bytes.now }
    ensures len { array_vec_len out.new ≡ array_vec_len out.old + length bytes.now }
{
    match out.try_extend_from_slice(bytes) {
        Ok(()) => (),
        Err(_) => unreachable!(),
    }
}

/// Appends the lowest four bytes of a number, the lowest first.
pub fn push_word(out: &mut ArrayVec<u8, 15>, z: i32)
    requires { array_vec_len out.old + 4 ≤ 15 }
    ensures items { out.new.items ≡ out.old.items ++ preferred.word_bytes z }
    ensures len { array_vec_len out.new ≡ array_vec_len out.old + 4 }
{
    push_bytes(out, &z.cast_unsigned().to_le_bytes());
}

/// The byte of three fields: mod, reg and r/m of ModRM, or scale, index and base of SIB (Intel manual,
/// volume 2, section 2.1.3).
fn fields_byte(high: u8, middle: u8, low: u8) -> u8
    requires high { high < 4 }
    requires middle { middle < 8 }
    requires low { low < 8 }
    ensures { result ≡ preferred.fields_byte high middle low }
{
    64 * high + 8 * middle + low
}

/// The number in the place of the base: that of EBP where there is none.
fn base_number(base: Option<Reg32>) -> u8
    ensures number { result ≡ preferred.base_number base }
    ensures below { result < 8 }
{
    match base {
        None => number32(Reg32::Ebp),
        Some(r) => number32(r),
    }
}

/// Which mod goes with a base and a displacement.
pub(crate) fn mod_for(base: Option<Reg32>, disp: i32) -> u8
    ensures mode { result ≡ preferred.mod_for base disp }
    ensures below { result < 3 }
{
    match base {
        None => 0,
        Some(r) => {
            if disp == 0 && number32(r) != 5 {
                0
            } else if fits_byte(disp) {
                1
            } else {
                2
            }
        }
    }
}

/// The scale bits of a factor of 1, 2, 4 or 8.
fn scale_bits(factor: u8) -> u8
    ensures bits { result ≡ preferred.scale_bits factor }
    ensures below { result < 4 }
{
    match factor {
        8 => 3,
        4 => 2,
        2 => 1,
        _ => 0,
    }
}

/// The SIB byte of an index and a base. Index number 4 means that there is none.
fn sib_for(index: Option<(Reg32, u8)>, base: Option<Reg32>) -> u8
    ensures { result ≡ preferred.sib_for index base }
{
    match index {
        None => fields_byte(0, 4, base_number(base)),
        Some((r, factor)) => fields_byte(scale_bits(factor), number32(r), base_number(base)),
    }
}

/// A SIB byte is needed for an index, and where the base is ESP.
pub(crate) fn needs_sib(index: Option<(Reg32, u8)>, base: Option<Reg32>) -> bool
    ensures { result ≡ preferred.needs_sib index base }
{
    match index {
        None => base_number(base) == 4,
        Some(_) => true,
    }
}

/// Appends the displacement in as many bytes as mod says.
fn push_displacement(out: &mut ArrayVec<u8, 15>, base: Option<Reg32>, disp: i32)
    requires { array_vec_len out.old + 4 ≤ 15 }
    ensures items { out.new.items ≡ out.old.items ++ preferred.displacement_for base disp }
    ensures len { array_vec_len out.new ≤ array_vec_len out.old + 4 }
{
    if base.is_none() {
        push_word(out, disp);
        return;
    }
    match mod_for(base, disp) {
        0 => (),
        1 => out.push(byte_of(disp)),
        _ => push_word(out, disp),
    }
}

/// Appends ModRM with this reg field, and what follows it for the memory operand.
pub(crate) fn push_memory(out: &mut ArrayVec<u8, 15>, reg: u8, m: &Mem)
    requires reg { reg < 8 }
    requires room { array_vec_len out.old + 6 ≤ 15 }
    ensures items { out.new.items ≡ out.old.items ++ preferred.fields_for reg (InMemory m.now) }
    ensures len { array_vec_len out.new ≤ array_vec_len out.old + 6 }
    ensures range { IsOperand (InMemory m.now) }
{
    let mode = mod_for(m.base, m.disp);
    if needs_sib(m.index, m.base) {
        out.push(fields_byte(mode, reg, 4));
        out.push(sib_for(m.index, m.base));
        push_displacement(out, m.base, m.disp);
    } else {
        out.push(fields_byte(mode, reg, base_number(m.base)));
        push_displacement(out, m.base, m.disp);
    }
}

/// Appends ModRM with this reg field, and what follows it for the operand of 32 or 16 bits.
pub(crate) fn push_operand32(out: &mut ArrayVec<u8, 15>, reg: u8, operand: &Rm32)
    requires reg { reg < 8 }
    requires room { array_vec_len out.old + 6 ≤ 15 }
    ensures items { out.new.items ≡ out.old.items ++ preferred.fields_for reg (operand32 operand.now) }
    ensures len { array_vec_len out.new ≤ array_vec_len out.old + 6 }
    ensures range { IsOperand (operand32 operand.now) }
{
    match operand {
        Rm32::Reg(r) => out.push(fields_byte(3, reg, number32(*r))),
        Rm32::Mem(m) => push_memory(out, reg, m),
    }
}

/// Appends ModRM with this reg field, and what follows it for the operand of 8 bits.
pub(crate) fn push_operand8(out: &mut ArrayVec<u8, 15>, reg: u8, operand: &Rm8)
    requires reg { reg < 8 }
    requires room { array_vec_len out.old + 6 ≤ 15 }
    ensures items { out.new.items ≡ out.old.items ++ preferred.fields_for reg (operand8 operand.now) }
    ensures len { array_vec_len out.new ≤ array_vec_len out.old + 6 }
    ensures range { IsOperand (operand8 operand.now) }
{
    match operand {
        Rm8::Reg(r) => out.push(fields_byte(3, reg, number8(*r))),
        Rm8::Mem(m) => push_memory(out, reg, m),
    }
}
