//! The memory that segments take.

ghost use Rattle.std.specs.Prelude.{◌≡◌, IfOk, map};
ghost use Rattle.elf_image.specs.Extents.{extent_of};

use crate::Extent;
use crate::loaded::Segment;
use pcc_base::NoMemory;
use std::alloc::Global;

/// The memory of each segment.
pub(crate) fn extents(alloc: Global, segments: &[Segment]) -> Result<Vec<Extent>, NoMemory>
    ensures { IfOk result (λ extents. extents.items ≡ map extent_of segments.now) }
{
    let mut extents = Vec::with_capacity(alloc, segments.len())?;
    for segment in segments {
        extents.push(Extent {
            address: segment.addr,
            size: segment.size,
        })?;
    }
    Ok(extents)
}
