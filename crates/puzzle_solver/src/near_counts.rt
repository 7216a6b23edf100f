//! What the counts of a board are with one piece more in its place, in numbers alone.

ghost use Rattle.std.specs.Prelude.{◌≡◌, IfSome};
ghost use Rattle.puzzle_board.specs.Areas as areas;
ghost use Rattle.puzzle_board.specs.declared.area.AreaKind.TheVariants.{Full};
ghost use Rattle.puzzle_solver.specs.Near.{FitsWithRest, IsChangedKind, IsOneLess};

use crate::board_counts::{AreaCounts, PieceCounts};
use crate::kept_bounds::is_bounded;
use crate::narrow::fits;
use pcc_base::Width;
use puzzle_board::{Area, AreaKind, Columns, Kind, Piece};

/// How many areas of each kind a board has, and how many unplaced pieces of each kind and width.
#[derive(Clone, Copy)]
pub(crate) struct BoardCounts {
    pub(crate) areas: AreaCounts,
    pub(crate) pieces: PieceCounts,
}

/// A piece of this width takes these columns.
fn is_of_width(width: Width, columns: Columns) -> bool
    ensures { result ≡ areas.is_of_width width columns }
{
    match (width, columns) {
        (Width::One, Columns::Low | Columns::High) | (Width::Two, Columns::All) => true,
        (Width::One, Columns::All) | (Width::Two, Columns::Low | Columns::High) => false,
    }
}

/// The cells that a piece of this kind takes in these columns are free.
fn fits_area(free: Area, kind: Kind, columns: Columns) -> bool
    ensures { result ≡ areas.fits_area free kind columns }
{
    match columns {
        Columns::Low => fits(kind, free.low),
        Columns::High => fits(kind, free.high),
        Columns::All => fits(kind, free.low) && fits(kind, free.high),
    }
}

/// One area of this kind less. Areas without a free cell aren't counted.
fn without_area(areas: AreaCounts, kind: AreaKind) -> Option<AreaCounts>
    ensures { IfSome result (λ less. IsChangedKind kind Full areas less) }
{
    let mut less = areas;
    match kind {
        AreaKind::E => less.e = areas.e.checked_sub(1)?,
        AreaKind::U1 => less.u1 = areas.u1.checked_sub(1)?,
        AreaKind::L1 => less.l1 = areas.l1.checked_sub(1)?,
        AreaKind::C => less.c = areas.c.checked_sub(1)?,
        AreaKind::U0 => less.u0 = areas.u0.checked_sub(1)?,
        AreaKind::L0 => less.l0 = areas.l0.checked_sub(1)?,
        AreaKind::UpperLower => less.upper_lower = areas.upper_lower.checked_sub(1)?,
        AreaKind::UpperNone => less.upper_none = areas.upper_none.checked_sub(1)?,
        AreaKind::LowerNone => less.lower_none = areas.lower_none.checked_sub(1)?,
        AreaKind::Full => {}
    }
    Some(less)
}

/// One area of this kind more. Areas without a free cell aren't counted.
fn with_area(areas: AreaCounts, kind: AreaKind) -> Option<AreaCounts>
    ensures { IfSome result (λ more. IsChangedKind Full kind areas more) }
{
    let mut more = areas;
    match kind {
        AreaKind::E => more.e = areas.e.checked_add(1)?,
        AreaKind::U1 => more.u1 = areas.u1.checked_add(1)?,
        AreaKind::L1 => more.l1 = areas.l1.checked_add(1)?,
        AreaKind::C => more.c = areas.c.checked_add(1)?,
        AreaKind::U0 => more.u0 = areas.u0.checked_add(1)?,
        AreaKind::L0 => more.l0 = areas.l0.checked_add(1)?,
        AreaKind::UpperLower => more.upper_lower = areas.upper_lower.checked_add(1)?,
        AreaKind::UpperNone => more.upper_none = areas.upper_none.checked_add(1)?,
        AreaKind::LowerNone => more.lower_none = areas.lower_none.checked_add(1)?,
        AreaKind::Full => {}
    }
    Some(more)
}

/// One unplaced piece of this kind and width less.
fn without_piece(pieces: PieceCounts, kind: Kind, width: Width) -> Option<PieceCounts>
    ensures { IfSome result (λ less. IsOneLess kind width pieces less) }
{
    let mut less = pieces;
    match (kind, width) {
        (Kind::X, Width::One) => less.x1 = pieces.x1.checked_sub(1)?,
        (Kind::X, Width::Two) => less.x2 = pieces.x2.checked_sub(1)?,
        (Kind::Y, Width::One) => less.y1 = pieces.y1.checked_sub(1)?,
        (Kind::Y, Width::Two) => less.y2 = pieces.y2.checked_sub(1)?,
        (Kind::Z, Width::One) => less.z1 = pieces.z1.checked_sub(1)?,
        (Kind::Z, Width::Two) => less.z2 = pieces.z2.checked_sub(1)?,
    }
    Some(less)
}

/// The counts with this piece in these columns of an area of which this is free. None where it doesn't fit there, or
/// where the rest wouldn't fit any more.
pub(crate) fn counts_with(
    counts: BoardCounts,
    piece: Piece,
    free: Area,
    columns: Columns,
) -> Option<BoardCounts>
    ensures { IfSome result (λ rest. FitsWithRest counts rest piece free columns) }
{
    if !is_of_width(piece.width, columns) || !fits_area(free, piece.kind, columns) {
        return None;
    }
    let left = free.cleared(piece.kind, columns);
    let fewer = without_area(counts.areas, free.kind())?;
    let areas = with_area(fewer, left.kind())?;
    let pieces = without_piece(counts.pieces, piece.kind, piece.width)?;
    if !is_bounded(areas, pieces) {
        return None;
    }
    Some(BoardCounts { areas, pieces })
}
