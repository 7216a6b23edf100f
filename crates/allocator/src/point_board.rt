//! The board of a point.

ghost use Rattle.std.specs.Prelude.{◌≡◌, ◌<◌, IfOk, Some, length};
ghost use Rattle.flow_graph.specs.Graphs.{IsPlaced};
ghost use Rattle.allocator.specs.PointPuzzles.{puzzle_at};

use crate::elementary::Elementary;
use crate::given_board::board_with;
use crate::point_pieces::pieces_of;
use crate::registers::areas_of;
use pcc_base::NoMemory;
use puzzle_board::Board;
use std::alloc::Global;
use std::sync::ledger::Ledger;

/// The board of a point of a block (Quintão Pereira and Palsberg, PLDI 2008, section 2): areas 0 to 3 are EAX, EBX, ECX
/// and EDX, and the pieces are those of the variables that are live there, but none that the op fixes.
///
/// # Errors
///
/// Want of memory.
pub fn board_of<L: Ledger>(
    alloc: Global,
    form: &Elementary,
    point: u32,
) -> Result<Board<L>, NoMemory>
    requires placed { IsPlaced form.now.graph point }
    requires few { length form.now.graph.widths < 2147483648 }
    ensures { IfOk result (λ board. puzzle_at form.now.graph form.now.lives point ≡ Some board) }
{
    let pieces = pieces_of(alloc, form, point)?;
    board_with(alloc, &areas_of(form.graph().op(point)), &pieces)
}
