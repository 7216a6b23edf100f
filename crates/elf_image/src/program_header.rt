//! Program headers of type `PT_LOAD`, and where the numbers of a file's headers stand.

ghost use Rattle.std.specs.Prelude.{◌≡◌, ◌+◌, ◌≤◌, length, option_map, not, bit_and, nat_eq, IfOk};
ghost use Rattle.std.specs.Bool.{Decides};
ghost use Rattle.elf_image.specs.Fields.{half_at, word_at};
ghost use Rattle.elf_image.specs.Segments.{IsInFile, IsPiece, piece_at, piece_of};
ghost use Rattle.elf_image.specs.Headers.{header_of, load_header_at};

use crate::loadable::ADDRESSES;
use crate::loaded::Segment;
use byteorder::{ByteOrder, LittleEndian};
use pcc_base::NoMemory;
use std::alloc::Global;

/// The bytes of a program header (`e_phentsize`).
pub(crate) const PROGRAM_HEADER: usize = 32;

/// `p_type` of a header whose segment is loaded.
pub(crate) const PT_LOAD: u32 = 1;

/// A bit of `p_flags`: instructions may be fetched from the segment.
pub(crate) const PF_X: u32 = 1;

/// A bit of `p_flags`: the segment may be written.
pub(crate) const PF_W: u32 = 2;

/// A bit of `p_flags`: the segment may be read.
pub(crate) const PF_R: u32 = 4;

/// The fields of a program header of type `PT_LOAD` (ELF, "Program Header").
#[derive(Clone, Copy)]
pub struct ProgramHeader {
    /// `p_offset`: where the segment's bytes begin in the file.
    pub offset: u32,
    /// `p_vaddr`: the address of its first byte.
    pub address: u32,
    /// `p_filesz`: how many bytes it has in the file.
    pub file_size: u32,
    /// `p_memsz`: how many bytes it has in memory.
    pub memory_size: u32,
    /// `p_flags`: what may be done with its bytes.
    pub flags: u32,
}

/// The number in the two bytes at an offset.
pub(crate) fn read_half(bytes: &[u8], offset: usize) -> u16
    requires { offset + 2 ≤ length bytes.now }
    ensures { result ≡ half_at offset bytes.now }
{
    LittleEndian::read_u16(&bytes[offset..])
}

/// The number in the four bytes at an offset.
pub fn read_word(bytes: &[u8], offset: usize) -> u32
    requires { offset + 4 ≤ length bytes.now }
    ensures { result ≡ word_at offset bytes.now }
{
    LittleEndian::read_u32(&bytes[offset..])
}

impl ProgramHeader {
    /// The program header at an offset, if its segment is one to load.
    pub(crate) fn read(bytes: &[u8], offset: usize) -> Option<ProgramHeader>
        requires { offset + 32 ≤ length bytes.now }
        ensures { option_map header_of result ≡ load_header_at offset bytes.now }
    {
        if read_word(bytes, offset) != PT_LOAD {
            return None;
        }
        Some(ProgramHeader {
            offset: read_word(bytes, offset + 4),
            address: read_word(bytes, offset + 8),
            file_size: read_word(bytes, offset + 16),
            memory_size: read_word(bytes, offset + 20),
            flags: read_word(bytes, offset + 24),
        })
    }

    /// Its segment's bytes lie in a file of so many, and fit into its memory, which ends within the address space.
    pub(crate) fn is_sound(&self, bytes: &[u8]) -> bool
        ensures { Decides result (IsInFile bytes.now (header_of self.now)
            × IsPiece (piece_at bytes.now (header_of self.now))) }
    {
        self.offset as u64 + self.file_size as u64 <= bytes.len() as u64
            && self.file_size <= self.memory_size
            && self.address as u64 + self.memory_size as u64 <= ADDRESSES
    }

    /// A bit of its flags is set.
    fn has_flag(&self, bit: u32) -> bool
        ensures { result ≡ not (nat_eq (bit_and self.now.flags bit) 0) }
    {
        self.flags & bit != 0
    }

    /// Its segment, with the bytes that it has in the file.
    pub(crate) fn segment(&self, alloc: Global, bytes: &[u8]) -> Result<Segment, NoMemory>
        requires { IsInFile bytes.now (header_of self.now) }
        ensures { IfOk result (λ segment. piece_of segment ≡ piece_at bytes.now (header_of self.now)) }
    {
        let start = self.offset as usize;
        let end = start + self.file_size as usize;
        Ok(Segment {
            addr: self.address,
            bytes: bytes[start..end].to_vec(alloc)?,
            size: self.memory_size,
            read: self.has_flag(PF_R),
            write: self.has_flag(PF_W),
            exec: self.has_flag(PF_X),
        })
    }
}
