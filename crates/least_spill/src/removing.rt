//! Removing variables by kind and width of their pieces.

ghost use Rattle.std.specs.Prelude.{◌≡◌, ◌+◌, ◌≤◌, [], vec_capacity, vec_len};
ghost use Rattle.puzzle_board.specs.Boards.{piece_count, standing};
ghost use Rattle.puzzle_solver.specs.Counting.{PiecesAre};
ghost use Rattle.least_spill.specs.Most.{IsPart, total};
ghost use Rattle.least_spill.specs.Removing.{AreApart, IsTaken, IsWithout};

use pcc_base::{Steps, Width};
use puzzle_board::{Board, Kind};
use puzzle_solver::PieceCounts;
use std::sync::ledger::Ledger;

/// Removes the variable of a piece of a kind and width, and names it behind the others.
fn remove_one<L: Ledger>(
    board: &mut Board<L>,
    kind: Kind,
    width: Width,
    removed: &mut Vec<u32>,
    steps: &mut Steps<L>,
)
    requires stands { standing board.old ≡ [] }
    requires apart { AreApart board.old }
    requires some { 1 ≤ piece_count board.old kind width }
    requires room { vec_len removed.old + 1 ≤ vec_capacity removed.old }
    ensures taken { IsTaken kind width 1 board.old board.new removed.old.items removed.new.items }
    ensures len { vec_len removed.new ≡ vec_len removed.old + 1 }
    ensures capacity { vec_capacity removed.new ≡ vec_capacity removed.old }
{
    if let Some(number) = board.first_piece(kind, width, steps) {
        let piece = board.piece(number, steps);
        board.remove_var(piece.var);
        removed.push_reserved(piece.var);
    }
}

/// The same for so many pieces.
fn remove_some<L: Ledger>(
    board: &mut Board<L>,
    kind: Kind,
    width: Width,
    count: u32,
    removed: &mut Vec<u32>,
    steps: &mut Steps<L>,
)
    requires stands { standing board.old ≡ [] }
    requires apart { AreApart board.old }
    requires enough { count ≤ piece_count board.old kind width }
    requires room { vec_len removed.old + count ≤ vec_capacity removed.old }
    ensures taken { IsTaken kind width count board.old board.new removed.old.items removed.new.items }
    ensures len { vec_len removed.new ≡ vec_len removed.old + count }
    ensures capacity { vec_capacity removed.new ≡ vec_capacity removed.old }
{
    for _taken in 0..count {
        remove_one(board, kind, width, removed, steps);
    }
}

/// Removes the variables of all pieces but so many of each kind and width.
pub(crate) fn remove_beyond<L: Ledger>(
    board: &mut Board<L>,
    pieces: PieceCounts,
    kept: PieceCounts,
    removed: &mut Vec<u32>,
    steps: &mut Steps<L>,
)
    requires stands { standing board.old ≡ [] }
    requires apart { AreApart board.old }
    requires pieces { PiecesAre board.old pieces }
    requires kept { IsPart kept pieces }
    requires none { removed.old.items ≡ [] }
    requires room { total pieces ≤ total kept + vec_capacity removed.old }
    ensures stands { standing board.new ≡ [] }
    ensures pieces { PiecesAre board.new kept }
    ensures without { IsWithout board.old removed.new.items board.new }
    ensures len { vec_len removed.new + total kept ≡ total pieces }
{
    let (x1, x2) = (pieces.x1 - kept.x1, pieces.x2 - kept.x2);
    let (y1, y2) = (pieces.y1 - kept.y1, pieces.y2 - kept.y2);
    let (z1, z2) = (pieces.z1 - kept.z1, pieces.z2 - kept.z2);
    remove_some(board, Kind::X, Width::One, x1, removed, steps);
    remove_some(board, Kind::X, Width::Two, x2, removed, steps);
    remove_some(board, Kind::Y, Width::One, y1, removed, steps);
    remove_some(board, Kind::Y, Width::Two, y2, removed, steps);
    remove_some(board, Kind::Z, Width::One, z1, removed, steps);
    remove_some(board, Kind::Z, Width::Two, z2, removed, steps);
}
