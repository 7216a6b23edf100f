ghost use Rattle.std.specs.Prelude.{◌≡◌, [], None, Some, IfSome, IfNone, length};
ghost use Rattle.std.specs.List.{AllByRecursion};
ghost use Rattle.std.specs.Borrow.{sem};
ghost use Rattle.ia32_insn.specs.Registers.{zero_registers};
ghost use Rattle.ia32_insn.specs.State as state;
ghost use Rattle.ia32_insn.specs.Meaning.{word_of, with_word, byte_of, with_byte, with_flags, load, store};
ghost use Rattle.ia32_machine.specs.Answers.{answer_of, bare as bare_of, Leaves};
ghost use Rattle.ia32_machine.specs.Loans.{ProcessorRests};

use crate::halt::{Halt, denied};
use ia32_insn::{Flags, Reg8, Reg32, RegFile};
use ia32_memory::Memory;
use std::marker::Model;

/// The registers, the flags where they are known, the address of the next instruction, and the memory.
/// Contracts see a state with no input and no output.
#[derive(Drop)]
pub struct Processor {
    registers: RegFile,
    flags: Option<Flags>,
    eip: u32,
    memory: Memory,
}

impl Model for Processor {
    ghost use Rattle.ia32_insn.specs.State.{State};

    ghost Value = { State };

    ghost use Rattle.std.specs.Prelude.{[]};

    ghost view = { λ p. record {
      registers = p.registers;
      flags = p.flags;
      eip = p.eip;
      memory = p.memory;
      left = [];
      taken = 0;
      written = [];
    } };
}

impl Processor {
    /// Every register is 0, the flags are unknown, and the next instruction is at the entry.
    pub fn new(entry: u32, memory: Memory) -> Processor
        ensures { result ≡ record {
          registers = zero_registers;
          flags = None;
          eip = entry;
          memory = memory;
          left = [];
          taken = 0;
          written = [];
        } }
    {
        Processor {
            registers: RegFile::new(),
            flags: None,
            eip: entry,
            memory,
        }
    }

    /// The address of the next instruction.
    #[inline]
    pub fn eip(&self) -> u32
        ensures value { result ≡ self.now.eip }
        ensures bare { self.now ≡ bare_of self.now }
    {
        self.eip
    }

    /// The next instruction is at this address.
    #[inline]
    pub(crate) fn set_eip(&mut self, address: u32)
        ensures { self.new ≡ state.at_address address self.old }
    {
        self.eip = address;
    }

    /// The bytes from EIP to the end of their area, where instructions may be fetched there.
    pub fn code(&self) -> Option<&[u8]>
        ensures found { IfSome result (λ code. state.code_at self.now.eip self.now.memory ≡ Some code.now) }
        ensures none { IfNone result (state.code_at self.now.eip self.now.memory ≡ None) }
    {
        self.memory.code_at(self.eip)
    }

    /// The flags, where they are known.
    #[inline]
    pub fn flags(&self) -> Option<Flags>
        ensures { result ≡ self.now.flags }
    {
        self.flags
    }

    /// The flags become these, or unknown.
    #[inline]
    pub(crate) fn set_flags(&mut self, flags: Option<Flags>)
        ensures { self.new ≡ with_flags flags self.old }
    {
        self.flags = flags;
    }

    /// The value of a register of 32 bits.
    #[inline]
    pub fn word(&self, r: Reg32) -> u32
        ensures { result ≡ word_of r self.now }
    {
        self.registers.get32(r)
    }

    /// Changes a register of 32 bits.
    #[inline]
    pub(crate) fn set_word(&mut self, r: Reg32, value: u32)
        ensures { self.new ≡ with_word r value self.old }
    {
        self.registers.set32(r, value);
    }

    /// The value of a register of 8 bits.
    #[inline]
    pub fn byte(&self, r: Reg8) -> u8
        ensures { result ≡ byte_of r self.now }
    {
        self.registers.get8(r)
    }

    /// Changes a register of 8 bits.
    #[inline]
    pub(crate) fn set_byte(&mut self, r: Reg8, value: u8)
        ensures { self.new ≡ with_byte r value self.old }
    {
        self.registers.set8(r, value);
    }

    /// The bytes from an address on, where one area has them all and may be read. Nothing changes.
    pub fn bytes_at(&mut self, address: u32, count: u32) -> Option<&[u8]>
        ensures* rests { sem 𝓛 (ProcessorRests self.entry) }
        ensures found { IfSome result (λ bytes. state.bytes_at count address self.old.memory ≡ Some bytes.now) }
        ensures none { IfNone result (state.bytes_at count address self.old.memory ≡ None) }
        ensures count { IfSome result (λ bytes. length bytes.now ≡ count) }
    {
        self.memory.bytes_at(address, count)
    }

    /// One area has all the bytes from an address on, and may be written.
    pub fn may_store(&self, address: u32, count: u32) -> bool
        ensures { result ≡ state.may_store count address self.now.memory }
    {
        self.memory.may_store(address, count)
    }

    /// The byte at an address.
    #[inline]
    pub fn load8(&self, address: u32) -> Result<u8, Halt>
        ensures { load 1 address self.now ≡ answer_of self.now result }
    {
        self.memory.load8(address).ok_or(denied(address))
    }

    /// The number in two bytes, the lowest first.
    #[inline]
    pub fn load16(&self, address: u32) -> Result<u16, Halt>
        ensures { load 2 address self.now ≡ answer_of self.now result }
    {
        self.memory.load16(address).ok_or(denied(address))
    }

    /// The number in four bytes, the lowest first.
    #[inline]
    pub fn load32(&self, address: u32) -> Result<u32, Halt>
        ensures { load 4 address self.now ≡ answer_of self.now result }
    {
        self.memory.load32(address).ok_or(denied(address))
    }

    /// Changes the byte at an address.
    pub fn store8(&mut self, address: u32, value: u8) -> Result<(), Halt>
        ensures { Leaves (store 1 address value self.old) self.old self.new result }
    {
        if self.memory.store8(address, value) {
            Ok(())
        } else {
            Err(denied(address))
        }
    }

    /// Changes two bytes, the lowest first.
    #[inline]
    pub fn store16(&mut self, address: u32, value: u16) -> Result<(), Halt>
        ensures { Leaves (store 2 address value self.old) self.old self.new result }
    {
        if self.memory.store16(address, value) {
            Ok(())
        } else {
            Err(denied(address))
        }
    }

    /// Changes four bytes, the lowest first.
    #[inline(always)]
    pub fn store32(&mut self, address: u32, value: u32) -> Result<(), Halt>
        ensures { Leaves (store 4 address value self.old) self.old self.new result }
    {
        if self.memory.store32(address, value) {
            Ok(())
        } else {
            Err(denied(address))
        }
    }
}
