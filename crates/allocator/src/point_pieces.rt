//! The pieces of a point.

ghost use Rattle.std.specs.Prelude.{◌≡◌, ◌<◌, ◌≤◌, ◌*◌, IfOk, Some, length, slice_get};
ghost use Rattle.std.specs.List.{AllByRecursion};
ghost use Rattle.allocator.specs.PointBoards as boards;
ghost use Rattle.flow_graph.specs.Graphs.{IsPlaced};
ghost use Rattle.allocator.specs.Order.{AreInOrder};
ghost use Rattle.allocator.specs.PointPuzzles.{pieces_at};

use crate::elementary::Elementary;
use crate::variable_pieces::push_pieces;
use crate::variables::with_result;
use flow_graph::Op;
use pcc_base::NoMemory;
use puzzle_board::Piece;
use std::alloc::Global;

/// The pieces of these variables.
fn pieces_for(
    alloc: Global,
    form: &Elementary,
    point: u32,
    op: &Op,
    vars: &[u32],
) -> Result<Vec<Piece>, NoMemory>
    requires op { slice_get form.now.graph.ops point ≡ Some op.now }
    requires vars { AllByRecursion (λ v. v < length form.now.graph.widths) vars.now }
    ensures { IfOk result (λ pieces.
        pieces.items ≡ boards.pieces_of_all form.now.graph form.now.lives point op.now vars.now) }
{
    let mut pieces = Vec::new(alloc);
    for i in 0..vars.len() {
        push_pieces(&mut pieces, form, point, op, vars[i])?;
    }
    Ok(pieces)
}

/// The pieces of a point of a block, in ascending order of variables, at most two for each variable.
pub fn pieces_of(alloc: Global, form: &Elementary, point: u32) -> Result<Vec<Piece>, NoMemory>
    requires { IsPlaced form.now.graph point }
    ensures value { IfOk result (λ pieces. pieces_at form.now.graph form.now.lives point ≡ Some pieces.items) }
    ensures order { IfOk result (λ pieces. AreInOrder pieces.items) }
    ensures few { IfOk result (λ pieces. length pieces.items ≤ 2 * length form.now.graph.widths) }
{
    form.is_form();
    form.graph().is_flow();
    let op = form.graph().op(point);
    let vars = with_result(alloc, op.defined(), form.live().before(point))?;
    pieces_for(alloc, form, point, op, &vars)
}
