ghost use Rattle.std.specs.Prelude.{◌≡◌, ◌-◌, IfOk, IsTrue, length, position, take, drop};
ghost use Rattle.std.specs.Borrow.{sem};
ghost use Rattle.byteorder.specs.Endian.{little_number};
ghost use Rattle.elf_image.specs.Segments.{IsPiece, piece_of};
ghost use Rattle.ia32_insn.specs.State.{has_bytes, with_bytes};
ghost use Rattle.ia32_memory.specs.Areas.{allows, AreaRests};
ghost use Rattle.ia32_memory.specs.First.{area_of};

use crate::Cells;
use elf_image::Segment;
use pcc_base::NoMemory;
use std::alloc::Global;
use std::marker::Model;

/// What is done with bytes of memory.
#[derive(Clone, Copy)]
pub enum Access {
    Read,
    Write,
    Run,
}

/// A piece of memory. Contracts see its address, all its bytes and what may be done with them.
#[derive(Drop)]
pub struct Area {
    /// The address of its first byte.
    address: u32,
    cells: Cells,
    /// Its bytes may be read.
    readable: bool,
    /// Its bytes may be written.
    writable: bool,
    /// Instructions may be fetched from it, and all its bytes are kept as first bytes.
    runnable: bool,
}

impl Model for Area {
    ghost use Rattle.std.specs.Prelude.{◌≡◌, IsTrue, length};
    ghost use Rattle.ia32_insn.specs.State as state;
    ghost use Rattle.ia32_memory.specs.Cells.{cells_seen, AreCells};

    ghost Value = { state.Area };

    ghost view = { λ a. record {
      address = a.address;
      bytes = cells_seen a.cells;
      readable = a.readable;
      writable = a.writable;
      runnable = a.runnable;
    } };

    ghost invariant = { λ a. AreCells a.cells × (IsTrue a.runnable → length a.cells.front.items ≡ a.cells.size) };
}

/// The memory of a segment: its bytes, and then zeros up to its size. The only refusal is want of
/// memory.
pub(crate) fn area_from(alloc: Global, segment: &Segment) -> Result<Area, NoMemory>
    requires { IsPiece (piece_of segment.now) }
    ensures { IfOk result (λ area. area ≡ area_of (piece_of segment.now)) }
{
    let mut cells = Cells::new(alloc, &segment.bytes, segment.size as usize)?;
    if segment.exec {
        cells.reach(segment.size as usize);
    }
    Ok(Area {
        address: segment.addr,
        cells,
        readable: segment.read,
        writable: segment.write,
        runnable: segment.exec,
    })
}

/// Where the first area stands that has so many bytes from the address on and permits the access.
#[inline]
pub fn find(areas: &[Area], access: Access, address: u32, count: u32) -> Option<usize>
    ensures { result ≡ position (λ area. allows access address count area) areas.now }
{
    areas
        .iter()
        .position(|area| area.allows(access, address, count))
}

impl Area {
    /// The area has so many bytes from the address on, and permits the access.
    #[inline]
    pub fn allows(&self, access: Access, address: u32, count: u32) -> bool
        ensures { result ≡ allows access address count self.now }
    {
        let permitted = match access {
            Access::Read => self.readable,
            Access::Write => self.writable,
            Access::Run => self.runnable,
        };
        permitted
            && address >= self.address
            && (address - self.address) as usize + count as usize <= self.cells.size()
    }

    /// The bytes from the address on, which may be run.
    #[inline]
    pub fn code(&self, address: u32) -> &[u8]
        requires run { IsTrue self.now.runnable }
        requires there { IsTrue (has_bytes self.now address 1) }
        ensures { result.now ≡ drop (address - self.now.address) self.now.bytes }
    {
        self.cells.rest((address - self.address) as usize)
    }

    /// So many bytes from the address on, all of which the area has.
    #[inline]
    pub fn bytes(&mut self, address: u32, count: u32) -> &[u8]
        requires { IsTrue (has_bytes self.old address count) }
        ensures* rests { sem 𝓛 (AreaRests self.entry) }
        ensures value { result.now ≡ take count (drop (address - self.old.address) self.old.bytes) }
        ensures count { length result.now ≡ count }
    {
        let offset = (address - self.address) as usize;
        self.cells.settle(offset, count as usize);
        self.cells.kept(offset, count as usize)
    }

    /// The byte at the address, which the area has.
    #[inline]
    pub fn byte(&self, address: u32) -> u8
        requires { IsTrue (has_bytes self.now address 1) }
        ensures { result ≡ little_number 1 (take 1 (drop (address - self.now.address) self.now.bytes)) }
    {
        self.cells.byte((address - self.address) as usize)
    }

    /// The two bytes from the address on, which the area has, as a number, the lowest first.
    #[inline]
    pub fn half(&self, address: u32) -> u16
        requires { IsTrue (has_bytes self.now address 2) }
        ensures { result ≡ little_number 2 (take 2 (drop (address - self.now.address) self.now.bytes)) }
    {
        self.cells.half((address - self.address) as usize)
    }

    /// The four bytes from the address on, which the area has, as a number, the lowest first.
    #[inline]
    pub fn word(&self, address: u32) -> u32
        requires { IsTrue (has_bytes self.now address 4) }
        ensures { result ≡ little_number 4 (take 4 (drop (address - self.now.address) self.now.bytes)) }
    {
        self.cells.word((address - self.address) as usize)
    }

    /// Writes the bytes from the address on, all of which the area has.
    #[inline]
    pub fn put(&mut self, address: u32, bytes: &[u8])
        requires { IsTrue (has_bytes self.old address (length bytes.now)) }
        ensures { self.new ≡ with_bytes address bytes.now self.old }
    {
        self.cells.put((address - self.address) as usize, bytes);
    }
}
