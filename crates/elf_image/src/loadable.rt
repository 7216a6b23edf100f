//! Which segments a machine may be loaded with.

ghost use Rattle.std.specs.Prelude.{◌≡◌, ◌+◌, ◌≤◌, IfOk, All, AllPairs, map, sum_by};
ghost use Rattle.std.specs.Bool.{Decides};
ghost use Rattle.elf_image.specs.Pieces.{AreApart};
ghost use Rattle.elf_image.specs.Segments.{IsLoadable, IsPiece, piece_of, segments_of};

use crate::are_distinct;
use crate::extent::extents;
use crate::loaded::{Loaded, Segment};
use pcc_base::NoMemory;
use std::alloc::Global;

/// The bytes of a machine's address space.
pub(crate) const ADDRESSES: u64 = 1 << 32;

/// The most bytes that the segments of an image have together.
pub(crate) const MEMORY_LIMIT: u32 = 1_342_177_280;

impl Segment {
    /// Its bytes fit into its memory, which ends within the address space.
    fn fits(&self) -> bool
        ensures { Decides result (IsPiece (piece_of self.now)) }
    {
        self.bytes.len() <= self.size as usize && self.addr as u64 + self.size as u64 <= ADDRESSES
    }
}

/// Each of the segments fits into the address space.
fn all_fit(segments: &[Segment]) -> bool
    ensures { Decides result (All IsPiece (map piece_of segments.now)) }
{
    segments.iter().all(|segment| segment.fits())
}

/// No two of the segments have an address in common.
fn are_apart(alloc: Global, segments: &[Segment]) -> Result<bool, NoMemory>
    ensures { IfOk result (λ apart. Decides apart (AllPairs AreApart (map piece_of segments.now))) }
{
    Ok(are_distinct(extents(alloc, segments)?))
}

/// The segments have no more memory together than a machine has.
fn are_few(segments: &[Segment]) -> bool
    ensures { Decides result (sum_by (λ piece. piece.size) (map piece_of segments.now) ≤ 1342177280) }
{
    let mut free = MEMORY_LIMIT;
    for segment in segments {
        match free.checked_sub(segment.size) {
            None => return false,
            Some(left) => free = left,
        }
    }
    true
}

impl Loaded {
    /// A machine may be loaded with the segments: each fits into the address space, no two have an address in
    /// common, and they have no more memory together than a machine has. The only refusal is want of memory.
    pub fn is_loadable(&self, alloc: Global) -> Result<bool, NoMemory>
        ensures { IfOk result (λ loadable. Decides loadable (IsLoadable (segments_of self.now))) }
    {
        let segments = self.segments.as_slice();
        if !all_fit(segments) || !are_few(segments) {
            return Ok(false);
        }
        are_apart(alloc, segments)
    }
}
