//! The most bytes that a call of a function takes on the stack.

ghost use Rattle.std.specs.Prelude.{◌≡◌, ◌<◌, ◌^◌, map, sum_by, IfOk};
ghost use Rattle.c_tree.specs.Erased.{array_of, function_of};
ghost use Rattle.c_tree.specs.Sizes.{array_bytes, frame_bound};

use crate::statement_heights::statements;
use c_tree::{Function, IntegerType, LocalArray};
use pcc_base::NoMemory;

/// How many bytes an array takes: a word with its element count, and its elements, padded to words.
fn array_bytes(array: &LocalArray) -> u64
    ensures { result ≡ array_bytes (array_of array.now) }
{
    let size: u64 = match array.element {
        IntegerType::Char => 1,
        IntegerType::Short => 2,
        IntegerType::Int | IntegerType::UnsignedInt => 4,
    };
    4 + (u64::from(array.count) * size + 3) / 4 * 4
}

/// A number that is below 2^60.
fn within(number: u64) -> Result<u64, NoMemory>
    ensures { IfOk result (λ n. (n ≡ number) × (n < 2 ^ 58)) }
{
    // No caller meets this: an array has fewer than 2^35 bytes, and a function at most 65,536 arrays.
    if number >= 1 << 58 {
        return Err(NoMemory);
    }
    Ok(number)
}

/// How many bytes all arrays take.
fn arrays_bytes(arrays: &[LocalArray]) -> Result<u64, NoMemory>
    ensures { IfOk result (λ n. n ≡ sum_by array_bytes (map array_of arrays.now)) }
{
    let mut sum = 0u64;
    let mut left = arrays.len();
    'arrays: while left > 0 {
        left -= 1;
        // This sum is never refused: an array has fewer than 2^35 bytes, and a function at most 65,536 arrays.
        sum = array_bytes(&arrays[left]).checked_add(sum).ok_or(NoMemory)?;
    }
    Ok(sum)
}

/// The frame bound of a function.
pub(crate) fn frame_bound(function: &Function) -> Result<u64, NoMemory>
    ensures { IfOk result (λ n. n ≡ frame_bound (function_of function.now)) }
{
    let locals = within(function.locals.len() as u64)?;
    let height = within(statements(function.body.as_slice())?)?;
    let arrays = within(arrays_bytes(function.arrays.as_slice())?)?;
    Ok(8 * locals + 32 * height + arrays + 128)
}
