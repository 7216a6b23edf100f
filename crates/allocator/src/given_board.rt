//! A board of given pieces.

ghost use Rattle.std.specs.Prelude.{◌≡◌, ◌≤◌, IfOk, length};
ghost use Rattle.allocator.specs.PointPuzzles.{puzzle_of};

use pcc_base::NoMemory;
use puzzle_board::{Area, Board, Piece};
use std::alloc::Global;
use std::sync::ledger::Ledger;

/// A board with these areas and pieces, of which none is placed. Piece i has number i.
pub(crate) fn board_with<L: Ledger>(
    alloc: Global,
    areas: &[Area],
    pieces: &[Piece],
) -> Result<Board<L>, NoMemory>
    requires areas { length areas.now ≤ 4294967295 }
    requires pieces { length pieces.now ≤ 4294967295 }
    ensures { IfOk result (λ board. board ≡ puzzle_of areas.now pieces.now) }
{
    let mut board = Board::new(alloc, areas)?;
    for i in 0..pieces.len() {
        board.add_piece(pieces[i])?;
    }
    Ok(board)
}
