ghost use Rattle.std.specs.Prelude.{◌≡◌, ◌%◌, ◌^◌};
ghost use Rattle.ia32_insn.specs.Meaning as meaning;
ghost use Rattle.ia32_machine.specs.Answers.{answer_of, Leaves};

use crate::halt::Halt;
use crate::processor::Processor;
use crate::words::with_low16;
use ia32_insn::{Mem, Reg32, Rm8, Rm32};

/// The two lowest bytes of a word.
#[inline]
pub fn low16(word: u32) -> u16
    ensures { result ≡ word % 2 ^ 16 }
{
    (word % 0x1_0000) as u16
}

impl Processor {
    /// The value of a base register, or 0 where there is none.
    fn base_value(&self, base: Option<Reg32>) -> u32
        ensures { result ≡ meaning.base_value base self.now }
    {
        match base {
            None => 0,
            Some(r) => self.word(r),
        }
    }

    /// The value of an index register times its scale, or 0 where there is none, wrapped.
    fn index_value(&self, index: Option<(Reg32, u8)>) -> u32
        ensures { result ≡ meaning.index_value index self.now % 2 ^ 32 }
    {
        match index {
            None => 0,
            Some((r, scale)) => self.word(r).wrapping_mul(u32::from(scale)),
        }
    }

    /// The address of a memory operand (Intel manual, volume 1, section 3.7.5).
    #[inline(always)]
    pub fn address_of(&self, m: &Mem) -> u32
        ensures { result ≡ meaning.address_of m.now self.now }
    {
        let base = self.base_value(m.base);
        let index = self.index_value(m.index);
        base.wrapping_add(index)
            .wrapping_add(m.disp.cast_unsigned())
    }

    /// The value of an operand of 32 bits.
    #[inline(always)]
    pub fn read32(&self, operand: &Rm32) -> Result<u32, Halt>
        ensures { meaning.read32 operand.now self.now ≡ answer_of self.now result }
    {
        match *operand {
            Rm32::Reg(r) => Ok(self.word(r)),
            Rm32::Mem(ref m) => self.load32(self.address_of(m)),
        }
    }

    /// Changes an operand of 32 bits.
    #[inline(always)]
    pub fn write32(&mut self, operand: &Rm32, value: u32) -> Result<(), Halt>
        ensures { Leaves (meaning.write32 operand.now value self.old) self.old self.new result }
    {
        match *operand {
            Rm32::Reg(r) => {
                self.set_word(r, value);
                Ok(())
            }
            Rm32::Mem(ref m) => self.store32(self.address_of(m), value),
        }
    }

    /// The value of an operand of 16 bits.
    #[inline]
    pub fn read16(&self, operand: &Rm32) -> Result<u16, Halt>
        ensures { meaning.read16 operand.now self.now ≡ answer_of self.now result }
    {
        match *operand {
            Rm32::Reg(r) => Ok(low16(self.word(r))),
            Rm32::Mem(ref m) => self.load16(self.address_of(m)),
        }
    }

    /// Changes an operand of 16 bits.
    #[inline]
    pub fn write16(&mut self, operand: &Rm32, value: u16) -> Result<(), Halt>
        ensures { Leaves (meaning.write16 operand.now value self.old) self.old self.new result }
    {
        match *operand {
            Rm32::Reg(r) => {
                self.set_word(r, with_low16(value, self.word(r)));
                Ok(())
            }
            Rm32::Mem(ref m) => self.store16(self.address_of(m), value),
        }
    }

    /// The value of an operand of 8 bits.
    #[inline]
    pub fn read8(&self, operand: &Rm8) -> Result<u8, Halt>
        ensures { meaning.read8 operand.now self.now ≡ answer_of self.now result }
    {
        match *operand {
            Rm8::Reg(r) => Ok(self.byte(r)),
            Rm8::Mem(ref m) => self.load8(self.address_of(m)),
        }
    }

    /// Changes an operand of 8 bits.
    #[inline]
    pub fn write8(&mut self, operand: &Rm8, value: u8) -> Result<(), Halt>
        ensures { Leaves (meaning.write8 operand.now value self.old) self.old self.new result }
    {
        match *operand {
            Rm8::Reg(r) => {
                self.set_byte(r, value);
                Ok(())
            }
            Rm8::Mem(ref m) => self.store8(self.address_of(m), value),
        }
    }
}
