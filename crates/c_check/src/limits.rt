//! The limit that a program is above.

ghost use Rattle.std.specs.Prelude.{◌≡◌, map, IfOk};
ghost use Rattle.c_tree.specs.Program.{Program};
ghost use Rattle.c_tree.specs.Erased.{function_of};
ghost use Rattle.c_typing.specs.Typed.{arrays_bytes, large_frame, limit_of};

use crate::frame_sizes::frame_bound;
use c_tree::Function;
use pcc_base::{Limit, NoMemory};

/// The most bytes that static objects may take, and a frame.
const MOST_ARRAYS: u64 = 16777216;

const MOST_FRAME: u64 = 16384;

/// The first function whose frame is too large, by its number, with the bytes of the frame.
fn large_frame(functions: &[Function]) -> Result<Option<Limit>, NoMemory>
    ensures { IfOk result (λ l. l ≡ large_frame 0 (map function_of functions.now)) }
{
    let mut found = None;
    // No caller meets this: each function has tokens of its own, and sixteen texts have at most 65,536 each.
    if functions.len() > u32::MAX as usize {
        return Err(NoMemory);
    }
    let mut left = functions.len() as u32;
    'functions: while left > 0 {
        left -= 1;
        let bytes = frame_bound(&functions[left as usize])?;
        if bytes > MOST_FRAME {
            found = Some(Limit::Frame(left, bytes));
        }
    }
    Ok(found)
}

/// The limit that a typed program is above, where its static objects take so many bytes: first that of these, then that
/// of frames.
pub fn limit(arrays: u64, functions: &[Function]) -> Result<Option<Limit>, NoMemory>
    ensures { IfOk result (λ l. (p : Program) → arrays_bytes p ≡ arrays
        → p.functions ≡ map function_of functions.now → l ≡ limit_of p) }
{
    if arrays > MOST_ARRAYS {
        return Ok(Some(Limit::Arrays(arrays)));
    }
    large_frame(functions)
}
