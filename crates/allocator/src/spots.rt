//! The spots of a board's pieces.

ghost use Rattle.std.specs.Prelude.{◌≡◌, IfOk};
ghost use Rattle.allocator.specs.Solutions.{spots_of};

use pcc_base::{NoMemory, Steps};
use puzzle_board::{Board, Spot};
use std::alloc::Global;
use std::sync::ledger::Ledger;

/// The spots of a board's pieces.
pub fn spots_on<L: Ledger>(
    alloc: Global,
    board: &Board<L>,
    steps: &mut Steps<L>,
) -> Result<Vec<Option<Spot>>, NoMemory>
    ensures { IfOk result (λ spots. spots.items ≡ spots_of board.now.states) }
{
    board.is_board();
    let pieces = board.pieces(steps);
    let mut spots = Vec::new(alloc);
    for piece in 0..pieces {
        spots.push(board.spot(piece, steps))?;
    }
    Ok(spots)
}
