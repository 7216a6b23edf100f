ghost use Rattle.std.specs.Prelude.{◌≡◌, IfOk, map};
ghost use Rattle.puzzle_solver.specs.Orders.{IsSpillOrder, sort_key};

use pcc_base::NoMemory;
use std::alloc::Global;
use std::cmp::Reverse;

/// A variable of a board, and its distance: how many steps it is at least to the next use, None where none comes.
#[derive(Clone, Copy)]
pub struct Candidate {
    pub variable: u32,
    pub distance: Option<u32>,
}

impl Candidate {
    /// What it is sorted by: no next use first, then the furthest, then the smaller variable.
    fn sort_key(&self) -> (Option<Reverse<u32>>, u32)
        ensures { result ≡ sort_key self.now }
    {
        match self.distance {
            None => (None, self.variable),
            Some(steps) => (Some(Reverse(steps)), self.variable),
        }
    }
}

/// The variables of these, in their order.
fn variables_of(alloc: Global, candidates: &[Candidate]) -> Result<Vec<u32>, NoMemory>
    ensures { IfOk result (λ variables. variables.items ≡ map (λ c. c.variable) candidates.now) }
{
    let mut variables = Vec::with_capacity(alloc, candidates.len())?;
    for candidate in candidates {
        variables.push_reserved(candidate.variable);
    }
    Ok(variables)
}

/// The variables in the order in which they are spilled: the furthest next use first, with none as furthest of all, and
/// of variables that are equally far the smaller first.
///
/// # Errors
///
/// Want of memory.
pub fn spill_order(alloc: Global, candidates: &[Candidate]) -> Result<Vec<u32>, NoMemory>
    ensures { IfOk result (λ order. IsSpillOrder candidates.now order.items) }
{
    let mut sorted = candidates.to_vec(alloc)?;
    sorted.sort_unstable_by_key(|candidate| candidate.sort_key());
    variables_of(alloc, &sorted)
}
