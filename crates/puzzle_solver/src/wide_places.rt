ghost use Rattle.std.specs.Prelude.{◌+◌, ◌*◌, ◌≤◌};
ghost use Rattle.puzzle_board.specs.Bounds.{IsBounded};
ghost use Rattle.puzzle_solver.specs.Onward.{IsOnward};
ghost use Rattle.puzzle_solver.specs.Plans.{IsPlan, numbers};
ghost use Rattle.puzzle_solver.specs.Counting.{AreasAre, IsReady, PiecesAre};

use crate::board_counts::{AreaCounts, PieceCounts};
use crate::wide_shares::{Plan, fill};
use pcc_base::Steps;
use puzzle_board::{AreaKind, Board, Kind};
use std::sync::ledger::Ledger;

/// Places the pieces of width Two by a plan.
pub(crate) fn place_wide<L: Ledger>(
    board: &mut Board<L>,
    areas: AreaCounts,
    pieces: PieceCounts,
    plan: Plan,
    steps: &mut Steps<L>,
)
    requires areas { AreasAre board.old areas }
    requires pieces { PiecesAre board.old pieces }
    requires bounded { IsBounded (numbers areas pieces) }
    requires plan { IsPlan (numbers areas pieces) plan }
    ensures ready { IsReady board.new pieces.x1 pieces.y1 pieces.z1 }
    ensures onward { IsOnward board.old board.new }
    ensures few { steps.new ≤ steps.old + 6 * (pieces.y2 + pieces.x2 + pieces.z2) }
{
    fill(board, Kind::Y, AreaKind::E, pieces.y2, steps);
    fill(board, Kind::X, AreaKind::U0, plan.own_x, steps);
    fill(board, Kind::Z, AreaKind::L0, plan.own_z, steps);
    fill(board, Kind::X, AreaKind::E, plan.shared_x, steps);
    fill(board, Kind::Z, AreaKind::L0, plan.shared_z, steps);
    fill(board, Kind::Z, AreaKind::E, plan.alone_z, steps);
    fill(board, Kind::X, AreaKind::U1, plan.rest_x, steps);
    fill(board, Kind::Z, AreaKind::L1, plan.rest_z, steps);
}
