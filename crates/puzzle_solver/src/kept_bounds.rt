ghost use Rattle.std.specs.Prelude.{◌≡◌, ◌+◌, ◌*◌, ◌↔◌, IsTrue};
ghost use Rattle.puzzle_board.specs.Bounds.{IsBounded};
ghost use Rattle.puzzle_solver.specs.Plans.{numbers};
ghost use Rattle.puzzle_solver.specs.Counting.{AreasAre, KeepsCells, KeepsColumns, KeepsWide, PiecesAre};

use crate::board_counts::{AreaCounts, PieceCounts};
use pcc_base::{Steps, Width};
use puzzle_board::{AreaKind, Board, Kind};
use std::sync::ledger::Ledger;

/// Counts the areas of a board.
pub fn areas_of<L: Ledger>(board: &Board<L>, steps: &mut Steps<L>) -> AreaCounts
    ensures value { AreasAre board.now result }
    ensures ticks { steps.new ≡ steps.old + 9 }
{
    AreaCounts {
        e: board.count_areas(AreaKind::E, steps),
        u1: board.count_areas(AreaKind::U1, steps),
        l1: board.count_areas(AreaKind::L1, steps),
        c: board.count_areas(AreaKind::C, steps),
        u0: board.count_areas(AreaKind::U0, steps),
        l0: board.count_areas(AreaKind::L0, steps),
        upper_lower: board.count_areas(AreaKind::UpperLower, steps),
        upper_none: board.count_areas(AreaKind::UpperNone, steps),
        lower_none: board.count_areas(AreaKind::LowerNone, steps),
    }
}

/// Counts the pieces of a board that are neither placed nor removed.
pub fn pieces_of<L: Ledger>(board: &Board<L>, steps: &mut Steps<L>) -> PieceCounts
    ensures value { PiecesAre board.now result }
    ensures ticks { steps.new ≡ steps.old + 6 }
{
    PieceCounts {
        x1: board.count_pieces(Kind::X, Width::One, steps),
        x2: board.count_pieces(Kind::X, Width::Two, steps),
        y1: board.count_pieces(Kind::Y, Width::One, steps),
        y2: board.count_pieces(Kind::Y, Width::Two, steps),
        z1: board.count_pieces(Kind::Z, Width::One, steps),
        z2: board.count_pieces(Kind::Z, Width::Two, steps),
    }
}

/// There are areas for the pieces of width Two.
fn keeps_wide(areas: AreaCounts, pieces: PieceCounts) -> bool
    ensures { IsTrue result ↔ KeepsWide (numbers areas pieces) }
{
    let (e, u1, l1) = (u64::from(areas.e), u64::from(areas.u1), u64::from(areas.l1));
    let (u0, l0) = (u64::from(areas.u0), u64::from(areas.l0));
    let (x2, y2, z2) = (
        u64::from(pieces.x2),
        u64::from(pieces.y2),
        u64::from(pieces.z2),
    );
    y2 <= e && y2 + x2 <= e + u1 + u0 && y2 + z2 <= e + l1 + l0
}

/// There are columns with both rows free for the Y, beside the pieces of width Two.
fn keeps_columns(areas: AreaCounts, pieces: PieceCounts) -> bool
    ensures { IsTrue result ↔ KeepsColumns (numbers areas pieces) }
{
    let (u1, l1) = (u64::from(areas.u1), u64::from(areas.l1));
    let (u0, l0) = (u64::from(areas.u0), u64::from(areas.l0));
    let both = 2 * u64::from(areas.e) + u1 + l1 + u64::from(areas.c);
    let (x2, z2) = (u64::from(pieces.x2), u64::from(pieces.z2));
    let y = u64::from(pieces.y1) + 2 * u64::from(pieces.y2);
    y <= both
        && y + x2 <= both + u0
        && y + z2 <= both + l0
        && y + x2 + z2 <= both + u0 + l0
        && y + 2 * x2 <= both + u1 + 2 * u0
        && y + 2 * z2 <= both + l1 + 2 * l0
}

/// There are free cells in each row for all that need them.
fn keeps_cells(areas: AreaCounts, pieces: PieceCounts) -> bool
    ensures { IsTrue result ↔ KeepsCells (numbers areas pieces) }
{
    let (u1, l1) = (u64::from(areas.u1), u64::from(areas.l1));
    let (u0, l0) = (u64::from(areas.u0), u64::from(areas.l0));
    let shared = 2 * u64::from(areas.e) + u64::from(areas.c) + u64::from(areas.upper_lower);
    let upper = shared + 2 * u1 + l1 + 2 * u0 + u64::from(areas.upper_none);
    let lower = shared + u1 + 2 * l1 + 2 * l0 + u64::from(areas.lower_none);
    let y = u64::from(pieces.y1) + 2 * u64::from(pieces.y2);
    y + u64::from(pieces.x1) + 2 * u64::from(pieces.x2) <= upper
        && y + u64::from(pieces.z1) + 2 * u64::from(pieces.z2) <= lower
}

/// The counts keep the bounds of a solvable board.
pub fn is_bounded(areas: AreaCounts, pieces: PieceCounts) -> bool
    ensures { IsTrue result ↔ IsBounded (numbers areas pieces) }
{
    keeps_wide(areas, pieces) && keeps_columns(areas, pieces) && keeps_cells(areas, pieces)
}
