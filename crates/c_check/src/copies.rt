//! Copies of a function's locals and arrays.

ghost use Rattle.std.specs.Prelude.{◌≡◌, map, IfOk};
ghost use Rattle.c_tree.specs.Erased.{array_of, local_of};

use c_tree::{Local, LocalArray};
use pcc_base::{Name, NoMemory};
use std::alloc::Global;

/// A copy of a local.
fn copy_local(local: &Local) -> Result<Local, NoMemory>
    ensures { IfOk result (λ l. local_of l ≡ local_of local.now) }
{
    Ok(Local {
        name: local.name.copy()?,
        of: local.of,
    })
}

/// A copy of an array of a function.
fn copy_array(array: &LocalArray) -> Result<LocalArray, NoMemory>
    ensures { IfOk result (λ a. array_of a ≡ array_of array.now) }
{
    Ok(LocalArray {
        name: array.name.copy()?,
        element: array.element,
        count: array.count,
    })
}

/// A copy of locals.
pub(crate) fn copy_locals(alloc: Global, locals: &[Local]) -> Result<Vec<Local>, NoMemory>
    ensures { IfOk result (λ v. map local_of v.items ≡ map local_of locals.now) }
{
    let mut copies = Vec::new(alloc);
    for local in locals {
        let copy = copy_local(local)?;
        copies.push(copy)?;
    }
    Ok(copies)
}

/// A copy of arrays.
pub(crate) fn copy_arrays(alloc: Global, arrays: &[LocalArray]) -> Result<Vec<LocalArray>, NoMemory>
    ensures { IfOk result (λ v. map array_of v.items ≡ map array_of arrays.now) }
{
    let mut copies = Vec::new(alloc);
    for array in arrays {
        let copy = copy_array(array)?;
        copies.push(copy)?;
    }
    Ok(copies)
}
