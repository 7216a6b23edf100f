ghost use Rattle.std.specs.Prelude.{◌≡◌, ◌<◌, ◌≤◌, ◌^◌, Some, None, length, map, option_map, All, IfOk, IfSome, IfNone};
ghost use Rattle.byteorder.specs.Endian.{little_number, little_bytes};
ghost use Rattle.elf_image.specs.Segments.{IsPiece, piece_of};
ghost use Rattle.ia32_insn.specs.State as state;
ghost use Rattle.std.specs.Borrow.{sem};
ghost use Rattle.ia32_memory.specs.First.{area_of};
ghost use Rattle.ia32_memory.specs.Writes.{Stores};
ghost use Rattle.ia32_memory.specs.Loans.{MemoryRests, IsFound};

use crate::area::{Access, Area, area_from, find};
use elf_image::Segment;
use pcc_base::NoMemory;
use std::alloc::Global;
use std::marker::Model;

/// The memory of the machine. Contracts see it as a list of areas, each with its address, its bytes and
/// what may be done there.
#[derive(Drop)]
pub struct Memory {
    areas: Vec<Area>,
}

impl Model for Memory {
    ghost use Rattle.std.specs.Prelude.{List};
    ghost use Rattle.ia32_insn.specs.State as state;

    ghost Value = { List state.Area };

    ghost view = { λ m. m.areas.items };
}

impl Memory {
    /// The memory that these segments ask for: the bytes of each, and then zeros up to its size. The only
    /// refusal is want of memory, and no other call takes any.
    pub fn load(alloc: Global, segments: &[Segment]) -> Result<Memory, NoMemory>
        requires { All IsPiece (map piece_of segments.now) }
        ensures { IfOk result (λ memory. memory ≡ map area_of (map piece_of segments.now)) }
    {
        let mut areas = Vec::with_capacity(alloc, segments.len())?;
        for segment in segments {
            areas.push(area_from(alloc, segment)?)?;
        }
        Ok(Memory { areas })
    }

    /// The bytes from the address to the end of its area, where instructions may be fetched there.
    pub fn code_at(&self, address: u32) -> Option<&[u8]>
        ensures found { IfSome result (λ code. state.code_at address self.now ≡ Some code.now) }
        ensures none { IfNone result (state.code_at address self.now ≡ None) }
    {
        let area = &self.areas[find(&self.areas, Access::Run, address, 1)?];
        Some(area.code(address))
    }

    /// So many bytes from the address on, where one area has them all and they may be read. The memory
    /// stays as it is, but for how it keeps bytes that are 0.
    pub fn bytes_at(&mut self, address: u32, count: u32) -> Option<&[u8]>
        ensures* rests { sem 𝓛 (MemoryRests self.entry) }
        ensures found { IfSome result (λ bytes. state.bytes_at count address self.old ≡ Some bytes.now) }
        ensures none { IfNone result (state.bytes_at count address self.old ≡ None) }
        ensures count { IfSome result (λ bytes. length bytes.now ≡ count) }
    {
        let index = find(&self.areas, Access::Read, address, count)?;
        Some(self.areas[index].bytes(address, count))
    }

    /// The area that has all of so many bytes from the address on, where they may be read.
    #[inline]
    fn readable(&self, address: u32, count: u32) -> Option<&Area>
        ensures found { IfSome result (λ area. IsFound address count area.now self.now) }
        ensures none { IfNone result (state.bytes_at count address self.now ≡ None) }
    {
        Some(&self.areas[find(&self.areas, Access::Read, address, count)?])
    }

    /// The byte at the address, where it may be read.
    pub fn load8(&self, address: u32) -> Option<u8>
        ensures { result ≡ option_map (little_number 1) (state.bytes_at 1 address self.now) }
    {
        let area = self.readable(address, 1)?;
        Some(area.byte(address))
    }

    /// The two bytes from the address on as a number, the lowest first, where they may be read.
    pub fn load16(&self, address: u32) -> Option<u16>
        ensures { result ≡ option_map (little_number 2) (state.bytes_at 2 address self.now) }
    {
        let area = self.readable(address, 2)?;
        Some(area.half(address))
    }

    /// The four bytes from the address on as a number, the lowest first, where they may be read.
    pub fn load32(&self, address: u32) -> Option<u32>
        ensures { result ≡ option_map (little_number 4) (state.bytes_at 4 address self.now) }
    {
        let area = self.readable(address, 4)?;
        Some(area.word(address))
    }

    /// One area has all of so many bytes from the address on, and they may be written.
    pub fn may_store(&self, address: u32, count: u32) -> bool
        ensures { result ≡ state.may_store count address self.now }
    {
        find(&self.areas, Access::Write, address, count).is_some()
    }

    /// Writes the bytes from the address on, where one area has all of them and they may be written.
    #[inline]
    fn store(&mut self, address: u32, bytes: &[u8]) -> bool
        requires { length bytes.now < 2 ^ 32 }
        ensures { Stores (state.stored address bytes.now self.old) self.old self.new result }
    {
        match find(&self.areas, Access::Write, address, bytes.len() as u32) {
            None => false,
            Some(index) => {
                self.areas[index].put(address, bytes);
                true
            }
        }
    }

    /// Writes a byte to the address. `false`, with nothing changed, where it may not be written.
    pub fn store8(&mut self, address: u32, byte: u8) -> bool
        ensures { Stores (state.stored address (little_bytes 1 byte) self.old) self.old self.new result }
    {
        self.store(address, &[byte])
    }

    /// Writes two bytes from the address on, the lowest first. `false`, with nothing changed, where no
    /// area has both of them or they may not be written.
    pub fn store16(&mut self, address: u32, half: u16) -> bool
        ensures { Stores (state.stored address (little_bytes 2 half) self.old) self.old self.new result }
    {
        self.store(address, &half.to_le_bytes())
    }

    /// Writes four bytes from the address on, the lowest first. `false`, with nothing changed, where no
    /// area has all of them or they may not be written.
    pub fn store32(&mut self, address: u32, word: u32) -> bool
        ensures { Stores (state.stored address (little_bytes 4 word) self.old) self.old self.new result }
    {
        self.store(address, &word.to_le_bytes())
    }
}
