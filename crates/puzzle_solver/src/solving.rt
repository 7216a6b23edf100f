ghost use Rattle.std.specs.Prelude.{◌≡◌, ◌+◌, ◌*◌, ◌≤◌, ◌↔◌, [], length, IsTrue};
ghost use Rattle.puzzle_board.specs.Boards.{remaining, standing};
ghost use Rattle.puzzle_board.specs.Bounds.{IsBounded, counts_of};
ghost use Rattle.puzzle_board.specs.Placements.{IsSolvable};
ghost use Rattle.std.specs.Bool.{OnFalse, OnTrue};
ghost use Rattle.puzzle_solver.specs.Solved.{IsSolved};

use crate::near::solve_near;
use pcc_base::Steps;
use puzzle_board::Board;
use std::sync::ledger::Ledger;

/// Places every piece that isn't removed, and answers true; or answers false where there is no legal placement, and
/// leaves the board as it was. There is one exactly where the areas and the pieces, counted by kind, keep the bounds.
pub fn solve<L: Ledger>(board: &mut Board<L>, steps: &mut Steps<L>) -> bool
    requires { standing board.old ≡ [] }
    ensures exact { IsTrue result ↔ IsSolvable board.old.areas (remaining board.old) }
    ensures solved { OnTrue result (IsSolved board.old board.new) }
    ensures unsolvable { OnFalse result (¬ IsSolvable board.old.areas (remaining board.old)) }
    ensures unchanged { OnFalse result (board.new ≡ board.old) }
    ensures bounded { IsTrue result ↔ IsBounded (counts_of board.old.areas (remaining board.old)) }
    ensures few { steps.new ≤ steps.old + 32 * length board.old.areas + 128 }
{
    solve_near(board, &[], steps)
}
