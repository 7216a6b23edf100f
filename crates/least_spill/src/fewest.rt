ghost use Rattle.std.specs.Prelude.{◌≡◌, [], IfErr, IfOk};
ghost use Rattle.puzzle_board.specs.Boards.{standing};
ghost use Rattle.puzzle_solver.specs.Prefixes.{without_variables};
ghost use Rattle.puzzle_solver.specs.Solved.{IsSolved};
ghost use Rattle.least_spill.specs.Least.{HasOneEach, IsLeast};

use crate::most::{most_kept, total};
use crate::removing::remove_beyond;
use pcc_base::{NoMemory, Steps};
use puzzle_board::Board;
use puzzle_solver::{areas_of, pieces_of, solve};
use std::alloc::Global;
use std::sync::ledger::Ledger;

/// Removes the fewest variables without whose pieces the board is solvable, places all other pieces, and answers the
/// removed variables in ascending order. Each variable has one piece, and none is placed.
///
/// # Errors
///
/// Want of memory, and then the board is as it was.
pub fn least<L: Ledger>(
    alloc: Global,
    board: &mut Board<L>,
    steps: &mut Steps<L>,
) -> Result<Vec<u32>, NoMemory>
    requires unplaced { standing board.old ≡ [] }
    requires single { HasOneEach board.old }
    ensures least { IfOk result (λ removed. IsLeast board.old removed.items) }
    ensures solved { IfOk result (λ removed. IsSolved (without_variables board.old removed.items) board.new) }
    ensures unchanged { IfErr result (λ _. board.new ≡ board.old) }
{
    let areas = areas_of(board, steps);
    let pieces = pieces_of(board, steps);
    let kept = most_kept(areas, pieces);
    let mut removed = Vec::with_capacity(alloc, (total(pieces) - total(kept)) as usize)?;
    remove_beyond(board, pieces, kept, &mut removed, steps);
    solve(board, steps);
    removed.sort_unstable();
    Ok(removed)
}
