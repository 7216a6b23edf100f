ghost use Rattle.std.specs.Prelude.{◌≡◌, ◌+◌, ◌*◌, ◌/◌, ◌<◌, ◌⊎◌, slice_set, slice_index};
ghost use Rattle.std.specs.List.{AllByRecursion};
ghost use Rattle.ia32_insn.specs.Registers.{
  register,
  with_register,
  number32,
  byte_place,
  zero_registers,
  AreRegisters,
};

use crate::register_names::{Reg8, Reg32};
use std::marker::Model;

/// The eight general registers of 32 bits (Intel manual, volume 1, section 3.4.1). Contracts see their 32 bytes.
#[derive(Drop)]
pub struct RegFile {
    words: [u32; 8],
}

impl Model for RegFile {
    ghost use Rattle.std.specs.Prelude.{List, ℕ, ◌≡◌, ◌<◌, ◌^◌, length, slice_index};
    ghost use Rattle.ia32_insn.specs.Words.{bytes_of_words};

    ghost Value = { List ℕ };

    ghost view = { λ r. bytes_of_words r.words };

    ghost invariant = { λ r. (length r.words ≡ 8) × ((k : ℕ) → slice_index r.words k < 2 ^ 32) };
}

impl RegFile {
    /// Every register is 0.
    pub fn new() -> RegFile
        ensures { result ≡ zero_registers }
    {
        RegFile { words: [0; 8] }
    }

    /// The four bytes of a register, as a number, the lowest first.
    pub fn get32(&self, r: Reg32) -> u32
        ensures value { result ≡ register r self.now }
        ensures shape { AreRegisters self.now }
    {
        let place = number_of(r);
        self.words[place]
    }

    /// Changes the four bytes of a register, and no others.
    pub fn set32(&mut self, r: Reg32, value: u32)
        ensures value { self.new ≡ with_register r value self.old }
        ensures shape { AreRegisters self.old }
    {
        self.words[number_of(r)] = value;
    }

    /// The byte that has a name of its own: the lowest of a register, or its second (Intel manual, volume 1, section
    /// 3.4.1).
    pub fn get8(&self, r: Reg8) -> u8
        ensures value { result ≡ slice_index self.now (byte_place r) }
        ensures shape { AreRegisters self.now }
    {
        let (word, shift) = place_of(r);
        ((self.words[word] >> shift) & 0xff) as u8
    }

    /// Changes such a byte, and no other byte of its register or of another.
    pub fn set8(&mut self, r: Reg8, value: u8)
        ensures value { self.new ≡ slice_set self.old (byte_place r) value }
        ensures shape { AreRegisters self.old }
    {
        let (word, shift) = place_of(r);
        let kept = self.words[word] & !(0xff << shift);
        self.words[word] = kept | (u32::from(value) << shift);
    }
}

/// The number of a register, below 8: where its word stands.
fn number_of(r: Reg32) -> usize
    ensures number { result ≡ number32 r }
    ensures below { result < 8 }
{
    r as usize
}

/// The register that has the byte, and by how many bits the byte is shifted in it.
fn place_of(r: Reg8) -> (usize, u32)
    ensures word { result.0 < 4 }
    ensures shift { (result.1 ≡ 0) ⊎ (result.1 ≡ 8) }
    ensures place { 4 * result.0 + result.1 / 8 ≡ byte_place r }
{
    let number = r as usize;
    if number < 4 {
        (number, 0)
    } else {
        (number - 4, 8)
    }
}
