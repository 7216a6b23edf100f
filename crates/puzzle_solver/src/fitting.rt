ghost use Rattle.std.specs.Prelude.{◌≡◌, [], IfErr, IfOk};
ghost use Rattle.std.specs.List.{AllByRecursion};
ghost use Rattle.puzzle_board.specs.Boards.{remaining, standing};
ghost use Rattle.puzzle_board.specs.Classes.{IsAmong};
ghost use Rattle.puzzle_solver.specs.Solved.{IsSolved};
ghost use Rattle.puzzle_solver.specs.Prefixes.{IsShortest, without_variables};

use crate::near::fit_near;
use pcc_base::{NoMemory, Steps};
use puzzle_board::Board;
use std::alloc::Global;
use std::sync::ledger::Ledger;

/// Removes the shortest prefix of the order without whose pieces the board is solvable, places all other pieces, and
/// answers the prefix. Each variable of a piece is in the order.
///
/// # Errors
///
/// Want of memory, and then the board is as it was.
pub fn fit<L: Ledger>(
    alloc: Global,
    board: &mut Board<L>,
    order: &[u32],
    steps: &mut Steps<L>,
) -> Result<Vec<u32>, NoMemory>
    requires unplaced { standing board.old ≡ [] }
    requires ordered { AllByRecursion (λ p. IsAmong order.now p.var) (remaining board.old) }
    ensures shortest { IfOk result (λ removed. IsShortest board.old order.now removed.items) }
    ensures solved { IfOk result (λ removed. IsSolved (without_variables board.old removed.items) board.new) }
    ensures unchanged { IfErr result (λ _. board.new ≡ board.old) }
{
    fit_near(alloc, board, order, &[], steps)
}
