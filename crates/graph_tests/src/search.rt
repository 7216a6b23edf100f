//! Every board of at most two areas and three pieces, compared with a plain search over bits.

use crate::expected::expect;
use crate::solving::spots;
use pcc_base::Width;
use puzzle_board::{Area, Column, Columns, Kind, Piece, Spot};
use std::alloc::Global;
use std::process::Abort;

/// The cells of an area are bits: 1 and 2 the upper and the lower row of the low column, 4 and 8 those of the high one.
/// The sets of cells that a piece may take.
pub(crate) fn choices(kind: Kind, width: Width) -> [u8; 2] {
    let rows = match kind {
        Kind::X => 1,
        Kind::Z => 2,
        Kind::Y => 3,
    };
    match width {
        Width::One => [rows, rows * 4],
        Width::Two => [rows * 5, rows * 5],
    }
}

/// Some places are left for the pieces from this one on.
pub(crate) fn has_place(free: [u8; 2], pieces: &[Piece], from: usize) -> bool {
    if from >= pieces.len() {
        return true;
    }
    let piece = pieces[from];
    for cells in choices(piece.kind, piece.width) {
        if free[0] & cells == cells && has_place([free[0] & !cells, free[1]], pieces, from + 1) {
            return true;
        }
        if free[1] & cells == cells && has_place([free[0], free[1] & !cells], pieces, from + 1) {
            return true;
        }
    }
    false
}

/// The column of two bits.
fn column(bits: u8) -> Column {
    match bits % 4 {
        3 => Column::Both,
        1 => Column::Upper,
        2 => Column::Lower,
        _ => Column::Neither,
    }
}

/// The area of four bits.
pub(crate) fn area(bits: u8) -> Area {
    Area {
        low: column(bits),
        high: column(bits / 4),
    }
}

/// The cells that a piece takes at a spot.
pub(crate) fn cells_at(piece: Piece, spot: Spot) -> u8 {
    let sets = choices(piece.kind, piece.width);
    match spot.columns {
        Columns::Low | Columns::All => sets[0],
        Columns::High => sets[1],
    }
}

/// Each piece has a spot of its width on cells that are free and that no piece before it has taken.
pub(crate) fn is_legal(free: [u8; 2], pieces: &[Piece], spots: &[Option<Spot>]) -> bool {
    let mut left = free;
    if pieces.len() != spots.len() {
        return false;
    }
    for (piece, spot) in pieces.iter().zip(spots) {
        let Some(spot) = *spot else {
            return false;
        };
        let cells = cells_at(*piece, spot);
        let wide = piece.width == Width::Two;
        if spot.area > 1 || wide != (spot.columns == Columns::All) {
            return false;
        }
        let area = spot.area as usize;
        if left[area] & cells != cells {
            return false;
        }
        left[area] &= !cells;
    }
    true
}

/// The solver agrees with the search on these pieces.
fn expect_agreement(
    rt: &impl Abort,
    alloc: Global,
    free: [u8; 2],
    areas: &[Area],
    pieces: &[Piece],
) {
    let want = has_place(free, pieces, 0);
    let agrees = match spots(rt, alloc, areas, pieces) {
        Some(found) => want && is_legal(free, pieces, &found),
        None => !want,
    };
    expect(
        rt,
        &(free, pieces.len(), agrees),
        &(free, pieces.len(), true),
        "a board",
    );
}

/// The solver agrees with the search on up to three pieces.
fn agrees_on_pieces(rt: &impl Abort, alloc: Global, free: [u8; 2], areas: &[Area]) {
    expect_agreement(rt, alloc, free, areas, &[]);
    for a in 0..6 {
        let first = piece(a);
        expect_agreement(rt, alloc, free, areas, &[first]);
        for b in a..6 {
            let second = piece(b);
            expect_agreement(rt, alloc, free, areas, &[first, second]);
            for c in b..6 {
                expect_agreement(rt, alloc, free, areas, &[first, second, piece(c)]);
            }
        }
    }
}

/// A piece of one of the three kinds and two widths, in the order X1, X2, Y1, Y2, Z1, Z2.
pub(crate) fn piece(class: u8) -> Piece {
    Piece {
        kind: match class / 2 {
            0 => Kind::X,
            1 => Kind::Y,
            _ => Kind::Z,
        },
        width: if class % 2 == 0 {
            Width::One
        } else {
            Width::Two
        },
        var: 0,
    }
}

#[test]
fn agrees_with_a_plain_search(rt: HostRuntime) {
    agrees_on_pieces(&rt, rt.alloc(), [0, 0], &[]);
    for low in 0..16 {
        agrees_on_pieces(&rt, rt.alloc(), [low, 0], &[area(low)]);
        for high in 0..16 {
            agrees_on_pieces(&rt, rt.alloc(), [low, high], &[area(low), area(high)]);
        }
    }
}
