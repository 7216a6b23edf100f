//! Boards that are solved with pieces where they are wanted, as far as that can be.

ghost use Rattle.std.specs.Prelude.{◌≡◌, ◌+◌, ◌*◌, ◌≤◌, ◌↔◌, [], length, IfErr, IfOk, IsTrue};
ghost use Rattle.std.specs.Bool.{OnFalse, OnTrue};
ghost use Rattle.std.specs.List.{AllByRecursion};
ghost use Rattle.puzzle_board.specs.Boards.{remaining, standing};
ghost use Rattle.puzzle_board.specs.Bounds.{IsBounded, counts_of};
ghost use Rattle.puzzle_board.specs.Classes.{IsAmong};
ghost use Rattle.puzzle_board.specs.Placements.{IsSolvable};
ghost use Rattle.puzzle_solver.specs.Prefixes.{IsShortest, without_variables};
ghost use Rattle.puzzle_solver.specs.Solved.{IsSolved};

use crate::kept_bounds::{areas_of, is_bounded, pieces_of};
use crate::narrow::{Waiting, place_narrow};
use crate::near_counts::BoardCounts;
use crate::wanted::place_wanted;
use crate::wide_places::place_wide;
use crate::wide_shares::Plan;
use pcc_base::{NoMemory, Steps};
use puzzle_board::{Board, Spot};
use std::alloc::Global;
use std::sync::ledger::Ledger;

/// Places every piece that isn't removed, and answers true; or answers false where there is no legal placement, and
/// leaves the board as it was. A hint says where the piece of its number is wanted; which of them are followed isn't
/// promised.
pub fn solve_near<L: Ledger>(
    board: &mut Board<L>,
    hints: &[Option<Spot>],
    steps: &mut Steps<L>,
) -> bool
    requires { standing board.old ≡ [] }
    ensures exact { IsTrue result ↔ IsSolvable board.old.areas (remaining board.old) }
    ensures solved { OnTrue result (IsSolved board.old board.new) }
    ensures unsolvable { OnFalse result (¬ IsSolvable board.old.areas (remaining board.old)) }
    ensures unchanged { OnFalse result (board.new ≡ board.old) }
    ensures bounded { IsTrue result ↔ IsBounded (counts_of board.old.areas (remaining board.old)) }
    ensures few { steps.new ≤ steps.old + 32 * length board.old.areas + 128 }
{
    let areas = areas_of(board, steps);
    let pieces = pieces_of(board, steps);
    if !is_bounded(areas, pieces) {
        return false;
    }
    let left = place_wanted(board, BoardCounts { areas, pieces }, hints, steps);
    let plan = Plan::of(left.areas, left.pieces);
    place_wide(board, left.areas, left.pieces, plan, steps);
    let waiting = Waiting {
        x: left.pieces.x1,
        y: left.pieces.y1,
        z: left.pieces.z1,
    };
    place_narrow(board, waiting, steps);
    board.is_board();
    true
}

/// Removes the shortest prefix of the order without whose pieces the board is solvable, places all other pieces, and
/// answers the prefix. Each variable of a piece is in the order. A hint says where the piece of its number is wanted;
/// which of them are followed isn't promised.
///
/// # Errors
///
/// Want of memory, and then the board is as it was.
pub fn fit_near<L: Ledger>(
    alloc: Global,
    board: &mut Board<L>,
    order: &[u32],
    hints: &[Option<Spot>],
    steps: &mut Steps<L>,
) -> Result<Vec<u32>, NoMemory>
    requires unplaced { standing board.old ≡ [] }
    requires ordered { AllByRecursion (λ p. IsAmong order.now p.var) (remaining board.old) }
    ensures shortest { IfOk result (λ removed. IsShortest board.old order.now removed.items) }
    ensures solved { IfOk result (λ removed. IsSolved (without_variables board.old removed.items) board.new) }
    ensures unchanged { IfErr result (λ _. board.new ≡ board.old) }
{
    let mut removed = Vec::with_capacity(alloc, order.len())?;
    for i in 0..order.len() {
        if solve_near(board, hints, steps) {
            return Ok(removed);
        }
        board.remove_var(order[i]);
        removed.push_reserved(order[i]);
    }
    solve_near(board, hints, steps);
    Ok(removed)
}
