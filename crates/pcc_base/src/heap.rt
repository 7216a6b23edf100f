//! Values on the heap. Where memory is wanting, a caller that holds no other value besides has nothing to drop, so
//! what stands beside is taken along.

ghost use Rattle.std.specs.Prelude.{◌≡◌, IfOk};

use crate::memory::NoMemory;
use std::alloc::Global;

/// A value on the heap, and what stands beside it.
pub fn boxed<T: Drop, U: Drop>(alloc: Global, value: T, beside: U) -> Result<(Box<T>, U), NoMemory>
    ensures { IfOk result (λ pair. (pair.0.value ≡ value) × (pair.1 ≡ beside)) }
{
    Ok((Box::new(alloc, value)?, beside))
}
