//! Boards that are solved with hints.

use crate::expected::expect;
use crate::search::{area, has_place, is_legal, piece};
use crate::solving::spots_near;
use pcc_base::Width;
use puzzle_board::{Area, Column, Columns, Kind, Piece, Spot};
use std::alloc::Global;
use std::process::Abort;

const BB: Area = Area {
    low: Column::Both,
    high: Column::Both,
};

const BU: Area = Area {
    low: Column::Both,
    high: Column::Upper,
};

/// A piece by its kind and width.
macro_rules! piece_of {
    ($kind:ident, $width:ident) => {
        Piece {
            kind: Kind::$kind,
            width: Width::$width,
            var: 0,
        }
    };
}

const X2: Piece = piece_of!(X, Two);

const Y1: Piece = piece_of!(Y, One);

const Y2: Piece = piece_of!(Y, Two);

const Z2: Piece = piece_of!(Z, Two);

/// A hint by its area and columns.
macro_rules! near {
    ($area:literal, $columns:ident) => {
        Some(Spot {
            area: $area,
            columns: Columns::$columns,
        })
    };
}

/// Areas, pieces, hints, and the areas in which the pieces stand then.
static HINTED: [(&[Area], &[Piece], &[Option<Spot>], &[u32]); 8] = [
    // where it is wanted
    (&[BB, BB, BB, BB], &[Y2], &[near!(2, All)], &[2]),
    (&[BB, BB], &[Y2, Y2], &[None, near!(0, All)], &[1, 0]),
    // an X and a Z in the same columns
    (
        &[BB, BB],
        &[X2, Z2],
        &[near!(1, All), near!(1, All)],
        &[1, 1],
    ),
    // the second finds it taken
    (
        &[BB, BB],
        &[Y2, Y2],
        &[near!(1, All), near!(1, All)],
        &[1, 0],
    ),
    // the wide Z would find no place
    (
        &[BB, BU],
        &[X2, Z2, Y1],
        &[None, None, near!(0, Low)],
        &[0, 0, 1],
    ),
    // a piece of width Two takes all columns
    (&[BB, BU], &[Y2], &[near!(1, Low)], &[0]),
    // there is no such area
    (&[BB], &[Y2], &[near!(1, All)], &[0]),
    // more hints than pieces
    (&[BB, BB], &[Y2], &[near!(1, All), near!(0, All)], &[1]),
];

/// Each board is solved, and its pieces stand in these areas.
#[test]
fn stands_where_it_is_wanted(rt: HostRuntime) {
    for (row, (areas, pieces, hints, want)) in HINTED.iter().enumerate() {
        let mut found = Vec::new(rt.alloc());
        for spot in spots_near(&rt, rt.alloc(), areas, pieces, hints)
            .expect(&rt, "a placement")
            .iter()
        {
            found
                .push(spot.expect(&rt, "a spot").area)
                .expect(&rt, "memory");
        }
        expect(&rt, &found.as_slice(), want, row);
    }
}

/// The next number that is drawn, below a bound (Numerical Recipes, 7.1).
fn draw(state: &mut u32, below: u32) -> u32 {
    *state = state.wrapping_mul(1_664_525).wrapping_add(1_013_904_223);
    (*state >> 16) % below.max(1)
}

/// A hint that is drawn: none, or any columns of one of three areas.
fn hint(state: &mut u32) -> Option<Spot> {
    let columns = match draw(state, 4) {
        0 => return None,
        1 => Columns::Low,
        2 => Columns::High,
        _ => Columns::All,
    };
    Some(Spot {
        area: draw(state, 3),
        columns,
    })
}

/// The low byte of a number.
fn low_byte(number: u32) -> u8 {
    (number % 256) as u8
}

/// A board of two areas and up to five pieces with hints, all drawn: it is solved legally exactly where a plain search
/// finds a placement.
fn expect_drawn(rt: &impl Abort, alloc: Global, state: &mut u32) {
    let free = [low_byte(draw(state, 16)), low_byte(draw(state, 16))];
    let mut pieces = Vec::new(alloc);
    let mut hints = Vec::new(alloc);
    for _piece in 0..draw(state, 6).min(5) {
        pieces
            .push(piece(low_byte(draw(state, 6))))
            .expect(rt, "memory");
        hints.push(hint(state)).expect(rt, "memory");
    }
    let want = has_place(free, &pieces, 0);
    let areas = [area(free[0]), area(free[1])];
    let agrees = match spots_near(rt, alloc, &areas, &pieces, &hints) {
        Some(found) => want && is_legal(free, &pieces, &found),
        None => !want,
    };
    expect(
        rt,
        &(free, pieces.len(), agrees),
        &(free, pieces.len(), true),
        "a drawn board",
    );
}

#[test]
fn agrees_with_a_plain_search_on_drawn_hints(rt: HostRuntime) {
    let mut state = 56;
    for _board in 0..10_000 {
        expect_drawn(&rt, rt.alloc(), &mut state);
    }
}
