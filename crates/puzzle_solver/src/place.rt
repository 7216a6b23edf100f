ghost use Rattle.std.specs.Prelude.{◌+◌, ◌≤◌, ◌&&◌, IsTrue};
ghost use Rattle.puzzle_board.specs.Areas.{is_of_width};
ghost use Rattle.puzzle_board.specs.Boards.{free_areas, piece_count};
ghost use Rattle.puzzle_board.specs.Placements.{fits_at};
ghost use Rattle.puzzle_solver.specs.Onward.{IsFirstPlaced};

use pcc_base::{Steps, Width};
use puzzle_board::{Board, Kind, Spot};
use std::sync::ledger::Ledger;

/// Places a piece of this kind and width where there is room for it.
pub(crate) fn place_first<L: Ledger>(
    board: &mut Board<L>,
    kind: Kind,
    width: Width,
    spot: Spot,
    steps: &mut Steps<L>,
)
    requires waiting { 1 ≤ piece_count board.old kind width }
    requires wide { IsTrue (is_of_width width spot.columns) }
    requires fits { IsTrue (fits_at (free_areas board.old) spot.area kind spot.columns) }
    ensures placed { IsFirstPlaced kind width spot board.old board.new }
    ensures few { steps.new ≤ steps.old + 5 }
{
    if let Some(piece) = board.first_piece(kind, width, steps) {
        board.place(piece, spot, steps);
    }
}
