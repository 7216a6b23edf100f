//! Boards that were solved by hand.

use crate::expected::expect;
use crate::solving::{spilled_at, spots, takes};
use pcc_base::Width;
use puzzle_board::{Area, Column, Kind, Piece};
use std::alloc::Global;
use std::process::Abort;

const BB: Area = Area {
    low: Column::Both,
    high: Column::Both,
};

const BU: Area = Area {
    low: Column::Both,
    high: Column::Upper,
};

const UB: Area = Area {
    low: Column::Upper,
    high: Column::Both,
};

const UU: Area = Area {
    low: Column::Upper,
    high: Column::Upper,
};

const X1: Piece = Piece {
    kind: Kind::X,
    width: Width::One,
    var: 0,
};

const X2: Piece = Piece {
    kind: Kind::X,
    width: Width::Two,
    var: 0,
};

const Y1: Piece = Piece {
    kind: Kind::Y,
    width: Width::One,
    var: 1,
};

const Y2: Piece = Piece {
    kind: Kind::Y,
    width: Width::Two,
    var: 1,
};

const Z1: Piece = Piece {
    kind: Kind::Z,
    width: Width::One,
    var: 2,
};

const Z2: Piece = Piece {
    kind: Kind::Z,
    width: Width::Two,
    var: 2,
};

/// Areas and pieces, and the areas in which the pieces can stand alone, in their order.
static SOLVED: [(&[Area], &[Piece], &[u32]); 5] = [
    (&[UU, BB, UU, UU], &[Y2], &[1]),
    (&[UU, BB, UU, UU], &[Y1, Y1], &[1, 1]),
    (&[BB, BU], &[X2, Z2, Y1], &[0, 0, 1]),
    (&[UU, UB], &[X1, Y1, X2], &[1, 1, 0]),
    (&[], &[], &[]),
];

/// Areas, and pieces that have no legal placement on them.
static UNSOLVABLE: [(&[Area], &[Piece]); 6] = [
    (&[UU, BB, UU, UU], &[Y2, Y2]),
    (&[BB, BB, BB, BB], &[X2, Z2, Y1, Y1, Y1, Y1, Y1, Y1, Y1]),
    (&[UB], &[X2, Z1, Z1]),
    (&[BB], &[Y1, Y1, Y1]),
    (&[BB], &[Y1, X2]),
    (&[], &[X1]),
];

/// The area of each piece on the solved board.
fn areas_found(rt: &impl Abort, alloc: Global, areas: &[Area], pieces: &[Piece]) -> Vec<u32> {
    let mut found = Vec::new(alloc);
    for spot in spots(rt, alloc, areas, pieces)
        .expect(rt, "a placement")
        .iter()
    {
        found
            .push(spot.expect(rt, "a spot").area)
            .expect(rt, "memory");
    }
    found
}

/// Each board is solved, and its pieces stand in these areas.
#[test]
fn solves(rt: HostRuntime) {
    for (row, (areas, pieces, want)) in SOLVED.iter().enumerate() {
        let found = areas_found(&rt, rt.alloc(), areas, pieces);
        expect(&rt, &found.as_slice(), want, row);
    }
}

/// No board is solved.
#[test]
fn knows_that_there_is_none(rt: HostRuntime) {
    for (row, (areas, pieces)) in UNSOLVABLE.iter().enumerate() {
        let found = spots(&rt, rt.alloc(), areas, pieces);
        expect(&rt, &found.is_none(), &true, row);
    }
}

/// A wide X and a wide Z share an area, and of the six Y two stand in each other area.
#[test]
fn shares_an_area(rt: HostRuntime) {
    let pieces = [X2, Z2, Y1, Y1, Y1, Y1, Y1, Y1];
    let areas = areas_found(&rt, rt.alloc(), &[BB, BB, BB, BB], &pieces);
    expect(&rt, &areas.len(), &8, "how many");
    let mut wide = 0;
    for (piece, area) in areas.iter().enumerate() {
        if piece == 0 {
            wide = *area;
        }
        expect(&rt, &(*area == wide), &(piece < 2), piece);
    }
}

/// Two narrow Y fit in an area, and neither three nor a million do, which is known within 160 steps.
#[test]
fn knows_of_a_million(rt: HostRuntime) {
    let alloc = rt.alloc();
    let found = [
        takes(&rt, alloc, 2),
        takes(&rt, alloc, 3),
        takes(&rt, alloc, 1_000_000),
    ];
    expect(&rt, &found, &[true, false, false], "2, 3 and a million");
}

/// A table: on each line the distances, the spill order, and what is spilled.
macro_rules! spills {
    ($([$($distance:expr),*] => [$($variable:literal),*] [$($spilled:literal),*];)*) => {
        [$((&[$($distance),*], &[$($variable),*], &[$($spilled),*])),*]
    };
}

static SPILLS: [(&[Option<u32>], &[u32], &[u32]); 3] = spills! {
    [Some(3), Some(9), Some(9), Some(1), Some(2), Some(4), Some(5), Some(6), Some(7)] =>
        [1, 2, 8, 7, 6, 5, 0, 4, 3] [1];
    [Some(3), Some(9), Some(9), Some(1), Some(2), Some(4), Some(5), Some(6)] =>
        [1, 2, 7, 6, 5, 0, 4, 3] [];
    [Some(9), None, Some(0), None] => [1, 3, 0, 2] [];
};

/// The furthest next use is spilled first, of equal ones the smaller variable, and only as many as don't fit.
#[test]
fn spills_the_furthest(rt: HostRuntime) {
    for (row, (distances, order, removed)) in SPILLS.iter().enumerate() {
        let (found, spilled) = spilled_at(&rt, rt.alloc(), distances).expect(&rt, "memory");
        let found = (found.as_slice(), spilled.as_slice());
        expect(&rt, &found, &(*order, *removed), row);
    }
}
