//! Whether numbers are distinct. They are sorted, so that each is compared with one other only.

ghost use Rattle.std.specs.Prelude.{IfOk};
ghost use Rattle.std.specs.Bool.{Decides};
ghost use Rattle.flow_graph.specs.Graphs.{IsDistinct};
ghost use Rattle.flow_graph.specs.Lives.{IsAscending};

use pcc_base::NoMemory;

/// Whether each number is greater than those before it.
fn ascend(numbers: &[u32]) -> bool
    ensures { Decides result (IsAscending numbers.now) }
{
    let mut least: u64 = 0;
    for number in numbers {
        if (*number as u64) < least {
            return false;
        }
        least = *number as u64 + 1;
    }
    true
}

/// Whether numbers are distinct. They are put in order.
pub(crate) fn are_distinct(numbers: &mut Vec<u32>) -> bool
    ensures { Decides result (IsDistinct numbers.old.items) }
{
    numbers.sort_unstable();
    ascend(numbers.as_slice())
}

/// Whether numbers are distinct. A copy of them takes the place of what was in `spare`. The only refusal is want of
/// memory.
pub(crate) fn are_all_distinct(spare: &mut Vec<u32>, numbers: &[u32]) -> Result<bool, NoMemory>
    ensures { IfOk result (λ distinct. Decides distinct (IsDistinct numbers.now)) }
{
    spare.clear();
    spare.extend_from_slice(numbers)?;
    Ok(are_distinct(spare))
}
