//! Whether segments overlap. They are sorted by their addresses, so that each is compared with one other only.

ghost use Rattle.std.specs.Prelude.{◌≡◌, ◌+◌, AllPairs};
ghost use Rattle.std.specs.Bool.{Decides};
ghost use Rattle.std.specs.List.Sorted.{IsNonDecreasingBy};
ghost use Rattle.elf_image.specs.MemoryExtents.{AreDistinct};

/// The memory that a segment takes.
#[derive(Clone, Copy)]
pub struct Extent {
    /// The address of its first byte.
    pub address: u32,
    /// How many bytes it has.
    pub size: u32,
}

impl Extent {
    /// The address after its last byte.
    fn end(&self) -> u64
        ensures { result ≡ self.now.address + self.now.size }
    {
        self.address as u64 + self.size as u64
    }
}

/// No two that stand in the order of their addresses have one in common: none begins before the end of the one before
/// it. One of size 0 has no address.
fn are_distinct_in_order(extents: &[Extent]) -> bool
    requires { IsNonDecreasingBy (λ extent. extent.address) extents.now }
    ensures { Decides result (AllPairs AreDistinct extents.now) }
{
    let mut end = 0;
    let mut rest = extents;
    while let Some((first, others)) = rest.split_first() {
        if first.size > 0 {
            if (first.address as u64) < end {
                return false;
            }
            end = first.end();
        }
        rest = others;
    }
    true
}

/// No two have an address in common.
pub fn are_distinct(mut extents: Vec<Extent>) -> bool
    ensures { Decides result (AllPairs AreDistinct extents.items) }
{
    extents.sort_unstable_by_key(|extent| extent.address);
    are_distinct_in_order(&extents)
}
