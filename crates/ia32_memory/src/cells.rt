ghost use Rattle.std.specs.Prelude.{◌≡◌, ◌∷◌, [], ◌+◌, ◌-◌, ◌<◌, ◌≤◌, ◌++◌, IfOk, true, take, drop, length};
ghost use Rattle.std.specs.Prelude.{vec_len, vec_capacity};
ghost use Rattle.byteorder.specs.Endian.{little_number};
ghost use Rattle.ia32_memory.specs.Cells.{padded, cells_seen, AreCells, KeepsMore, is_kept};

use byteorder::{ByteOrder, LittleEndian};
use pcc_base::NoMemory;
use std::alloc::Global;

/// At most so many of the last bytes are kept from the beginning, since a stack grows down from the end.
const LAST: usize = 256 << 10;

/// By so many bytes more than what is touched the first bytes grow at a time.
const MORE: usize = 64 << 10;

/// The bytes of an area. Its first bytes and its last ones are kept; those between them are 0, and take
/// neither time nor pages of memory before they are touched.
#[derive(Drop)]
pub struct Cells {
    /// How many bytes there are.
    size: usize,
    /// The first bytes, with room for all.
    front: Vec<u8>,
    /// The last bytes.
    back: Vec<u8>,
}

/// Writes the bytes over others from this place on.
#[inline]
fn write_over(all: &mut Vec<u8>, place: usize, bytes: &[u8])
    requires { place + length bytes.now ≤ vec_len all.old }
    ensures value { all.new.items ≡ take place all.old.items ++ bytes.now
        ++ drop (place + length bytes.now) all.old.items }
    ensures count { length all.new.items ≡ length all.old.items }
    ensures room { vec_capacity all.new ≡ vec_capacity all.old }
{
    all[place..place + bytes.len()].copy_from_slice(bytes);
}

impl Cells {
    /// These bytes, and then zeros up to the size. The only refusal is want of memory, and no other
    /// function takes any.
    pub fn new(alloc: Global, bytes: &[u8], size: usize) -> Result<Cells, NoMemory>
        requires { length bytes.now ≤ size }
        ensures same { IfOk result (λ cells. cells_seen cells ≡ padded size bytes.now) }
        ensures within { IfOk result AreCells }
        ensures size { IfOk result (λ cells. cells.size ≡ size) }
    {
        let mut front = Vec::with_capacity(alloc, size)?;
        front.extend_from_slice(bytes)?;
        let mut back = Vec::new(alloc);
        back.resize((size - bytes.len()).min(LAST), 0)?;
        Ok(Cells { size, front, back })
    }

    /// How many bytes there are.
    #[inline]
    pub fn size(&self) -> usize
        requires { AreCells self.now }
        ensures value { result ≡ self.now.size }
        ensures seen { result ≡ length (cells_seen self.now) }
    {
        self.size
    }

    /// How many first bytes there are.
    #[inline]
    fn count(&self) -> usize
        ensures { result ≡ length self.now.front.items }
    {
        self.front.len()
    }

    /// Where the last bytes begin.
    #[inline]
    fn border(&self) -> usize
        requires { AreCells self.now }
        ensures { result ≡ self.now.size - length self.now.back.items }
    {
        self.size - self.back.len()
    }

    /// So many bytes from this place on are kept one behind another.
    #[inline]
    fn is_kept(&self, offset: usize, count: usize) -> bool
        requires within { AreCells self.now }
        requires there { offset + count ≤ self.now.size }
        ensures { result ≡ is_kept offset count self.now }
    {
        offset + count <= self.count() || self.border() <= offset
    }

    /// There are so many first bytes.
    fn grow(&mut self, count: usize)
        requires within { AreCells self.old }
        requires more { length self.old.front.items ≤ count }
        requires there { count + length self.old.back.items ≤ self.old.size }
        ensures kept { KeepsMore self.old self.new }
        ensures back { self.new.back.items ≡ self.old.back.items }
        ensures count { length self.new.front.items ≡ count }
    {
        let _ = self.front.resize(count, 0);
    }

    /// All bytes are first bytes.
    fn join(&mut self)
        requires { AreCells self.old }
        ensures kept { KeepsMore self.old self.new }
        ensures whole { length self.new.front.items ≡ self.new.size }
    {
        self.grow(self.border());
        let _ = self.front.append(&mut self.back);
    }

    /// The bytes up to this end are first bytes.
    #[cold]
    #[inline(never)]
    pub fn reach(&mut self, end: usize)
        requires within { AreCells self.old }
        requires there { end ≤ self.old.size }
        ensures kept { KeepsMore self.old self.new }
        ensures there { end ≤ length self.new.front.items }
    {
        let border = self.border();
        if end <= border {
            self.grow(border.min(self.count().max(end).saturating_add(MORE)));
        } else {
            self.join();
        }
    }

    /// So many bytes from this place on are kept one behind another from now on.
    #[inline]
    pub fn settle(&mut self, offset: usize, count: usize)
        requires within { AreCells self.old }
        requires there { offset + count ≤ self.old.size }
        ensures kept { KeepsMore self.old self.new }
        ensures settled { is_kept offset count self.new ≡ true }
    {
        if !self.is_kept(offset, count) {
            self.reach(offset + count);
        }
    }

    /// So many bytes from this place on, which are kept one behind another.
    #[inline]
    pub fn kept(&self, offset: usize, count: usize) -> &[u8]
        requires within { AreCells self.now }
        requires there { offset + count ≤ self.now.size }
        requires kept { is_kept offset count self.now ≡ true }
        ensures value { result.now ≡ take count (drop offset (cells_seen self.now)) }
        ensures count { length result.now ≡ count }
    {
        if offset + count <= self.count() {
            &self.front[offset..offset + count]
        } else {
            let place = offset - self.border();
            &self.back[place..place + count]
        }
    }

    /// All bytes from this place on, where all are first bytes.
    #[inline]
    pub fn rest(&self, offset: usize) -> &[u8]
        requires within { AreCells self.now }
        requires whole { length self.now.front.items ≡ self.now.size }
        requires there { offset ≤ self.now.size }
        ensures { result.now ≡ drop offset (cells_seen self.now) }
    {
        &self.front[offset..]
    }

    /// Writes over bytes that are kept one behind another from this place on.
    #[inline]
    fn write(&mut self, offset: usize, bytes: &[u8])
        requires within { AreCells self.old }
        requires there { offset + length bytes.now ≤ self.old.size }
        requires kept { is_kept offset (length bytes.now) self.old ≡ true }
        ensures value { cells_seen self.new ≡ take offset (cells_seen self.old) ++ bytes.now
            ++ drop (offset + length bytes.now) (cells_seen self.old) }
        ensures within { AreCells self.new }
        ensures size { self.new.size ≡ self.old.size }
        ensures front { length self.new.front.items ≡ length self.old.front.items }
    {
        if offset + bytes.len() <= self.count() {
            write_over(&mut self.front, offset, bytes);
        } else {
            let place = offset - self.border();
            write_over(&mut self.back, place, bytes);
        }
    }

    /// Writes the bytes from this place on.
    #[inline]
    pub fn put(&mut self, offset: usize, bytes: &[u8])
        requires within { AreCells self.old }
        requires there { offset + length bytes.now ≤ self.old.size }
        ensures value { cells_seen self.new ≡ take offset (cells_seen self.old) ++ bytes.now
            ++ drop (offset + length bytes.now) (cells_seen self.old) }
        ensures within { AreCells self.new }
        ensures size { self.new.size ≡ self.old.size }
        ensures front { length self.old.front.items ≤ length self.new.front.items }
    {
        self.settle(offset, bytes.len());
        self.write(offset, bytes);
    }

    /// The byte at this place.
    #[inline]
    pub fn byte(&self, offset: usize) -> u8
        requires within { AreCells self.now }
        requires there { offset + 1 ≤ self.now.size }
        ensures { take 1 (drop offset (cells_seen self.now)) ≡ result ∷ [] }
    {
        if self.is_kept(offset, 1) {
            self.kept(offset, 1)[0]
        } else {
            0
        }
    }

    /// The two bytes from this place on as a number, the lowest first.
    #[inline]
    pub fn half(&self, offset: usize) -> u16
        requires within { AreCells self.now }
        requires there { offset + 2 ≤ self.now.size }
        ensures { result ≡ little_number 2 (take 2 (drop offset (cells_seen self.now))) }
    {
        if self.is_kept(offset, 2) {
            LittleEndian::read_u16(self.kept(offset, 2))
        } else {
            self.half_apart(offset)
        }
    }

    /// The same, a byte at a time.
    #[cold]
    #[inline(never)]
    fn half_apart(&self, offset: usize) -> u16
        requires within { AreCells self.now }
        requires there { offset + 2 ≤ self.now.size }
        ensures { result ≡ little_number 2 (take 2 (drop offset (cells_seen self.now))) }
    {
        LittleEndian::read_u16(&[self.byte(offset), self.byte(offset + 1)])
    }

    /// The four bytes from this place on as a number, the lowest first.
    #[inline]
    pub fn word(&self, offset: usize) -> u32
        requires within { AreCells self.now }
        requires there { offset + 4 ≤ self.now.size }
        ensures { result ≡ little_number 4 (take 4 (drop offset (cells_seen self.now))) }
    {
        if self.is_kept(offset, 4) {
            LittleEndian::read_u32(self.kept(offset, 4))
        } else {
            self.word_apart(offset)
        }
    }

    /// The same, a byte at a time.
    #[cold]
    #[inline(never)]
    fn word_apart(&self, offset: usize) -> u32
        requires within { AreCells self.now }
        requires there { offset + 4 ≤ self.now.size }
        ensures { result ≡ little_number 4 (take 4 (drop offset (cells_seen self.now))) }
    {
        LittleEndian::read_u32(&[
            self.byte(offset),
            self.byte(offset + 1),
            self.byte(offset + 2),
            self.byte(offset + 3),
        ])
    }
}
