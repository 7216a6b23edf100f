//! The fewest removals: boards worked by hand, and small boards compared with a plain search over all sets of pieces.

ghost use Rattle.std.specs.Prelude.{◌≡◌, ◌≤◌, length};

use crate::expected::expect;
use crate::search::{cells_at, choices, piece};
use least_spill::least;
use pcc_base::{NoMemory, Steps, Width};
use puzzle_board::{Board, Columns, Kind, Piece, Spot};
use puzzle_solver::{BoardRefusal, read_board};
use std::alloc::{AllocError, Global};
use std::marker::Brand;
use std::process::Abort;
use std::sync::ledger::{Blank, Ledger};

/// Where each piece of a board stands.
fn spots_of<L: Ledger>(
    alloc: Global,
    board: &Board<L>,
    steps: &mut Steps<L>,
) -> Result<Vec<Option<Spot>>, NoMemory> {
    let mut spots = Vec::new(alloc);
    for number in 0..board.pieces(steps) {
        spots.push(board.spot(number, steps))?;
    }
    Ok(spots)
}

/// The variables that are removed of a board by its text, and where each piece stands then.
fn removed_with<L: Ledger>(
    alloc: Global,
    text: &[u8],
    blank: Blank,
) -> Result<(Vec<u32>, Vec<Option<Spot>>), BoardRefusal>
    requires text { length text.now ≤ 4294967295 }
    requires name { blank.name ≡ L.name }
    requires parts { blank.parts ≡ L.parts }
    requires one { L.parts ≡ 1 }
{
    let mut board = read_board::<L>(alloc, text)?;
    let mut steps = Steps::<L>::new(blank);
    let removed = least(alloc, &mut board, &mut steps)?;
    let spots = spots_of(alloc, &board, &mut steps)?;
    Ok((removed, spots))
}

/// The same of a text of at most 10,000 bytes that is a board's.
fn removed_of(rt: &impl Abort, alloc: Global, text: &[u8]) -> (Vec<u32>, Vec<Option<Spot>>) {
    assert!(rt; text.len() <= 10_000);
    match removed_with::<Brand>(alloc, text, Blank::new(1)) {
        Ok(found) => found,
        Err(_) => panic!(rt; "no board, or no memory"),
    }
}

/// Texts of boards, how many pieces are removed, and between which numbers they are.
const ROWS: [(&[u8], usize, u32, u32); 6] = [
    (b"areas bb\npieces Y2 X1 Z1\n", 1, 0, 0),
    (b"areas bb\npieces X2 Z2\n", 0, 0, 0),
    (b"areas nn\npieces X1 Z1\n", 2, 0, 1),
    (
        b"areas bb bb bb bb\npieces X2 Z2 Y1 Y1 Y1 Y1 Y1 Y1 Y1\n",
        1,
        2,
        8,
    ),
    (b"areas ub\npieces X2 Z1 Z1\n", 1, 1, 2),
    (b"areas\npieces\n", 0, 0, 0),
];

#[test]
fn removes_what_was_worked_by_hand(rt: HostRuntime) {
    for (row, (text, count, first, last)) in ROWS.iter().enumerate() {
        let (removed, _) = removed_of(&rt, rt.alloc(), text);
        expect(&rt, &removed.len(), count, row);
        for variable in &removed {
            let between = *first <= *variable && *variable <= *last;
            expect(&rt, &between, &true, row);
        }
    }
}

/// Three areas of four cells as bits, as `search` has them. One that isn't there has no free cells.
type Cells = [u8; 3];

/// The cells once a piece has taken these of an area. None where they aren't free.
fn taken(free: Cells, area: usize, cells: u8) -> Option<Cells> {
    let mut left = free;
    if area >= 3 || left[area] & cells != cells {
        return None;
    }
    left[area] &= !cells;
    Some(left)
}

/// Some places are left for the pieces from this one on.
fn has_place(free: Cells, pieces: &[Piece], from: usize) -> bool {
    if from >= pieces.len() {
        return true;
    }
    for cells in choices(pieces[from].kind, pieces[from].width) {
        for area in 0..3 {
            let Some(left) = taken(free, area, cells) else {
                continue;
            };
            if has_place(left, pieces, from + 1) {
                return true;
            }
        }
    }
    false
}

/// The least number of pieces without which the others have a place, by trying every set of them.
fn fewest(alloc: Global, free: Cells, pieces: &[Piece]) -> Result<usize, AllocError> {
    let mut best = pieces.len();
    for set in 0..64_u32 {
        let mut bits = set;
        let mut kept = Vec::new(alloc);
        for piece in pieces {
            if bits % 2 == 0 {
                kept.push(*piece)?;
            }
            bits /= 2;
        }
        let removed = pieces.len().saturating_sub(kept.len());
        if bits == 0 && removed < best && has_place(free, &kept, 0) {
            best = removed;
        }
    }
    Ok(best)
}

/// Each piece that isn't removed has a spot of its width on cells that are free and that no piece before it has taken,
/// and each that is has none.
fn is_legal(free: Cells, pieces: &[Piece], removed: &[u32], spots: &[Option<Spot>]) -> bool {
    let mut left = free;
    if pieces.len() != spots.len() {
        return false;
    }
    for (number, (piece, spot)) in pieces.iter().zip(spots).enumerate() {
        let gone = removed.iter().any(|variable| *variable as usize == number);
        let Some(spot) = *spot else {
            if gone {
                continue;
            }
            return false;
        };
        let wide = piece.width == Width::Two;
        if gone || spot.area > 2 || wide != (spot.columns == Columns::All) {
            return false;
        }
        let Some(now) = taken(left, spot.area as usize, cells_at(*piece, spot)) else {
            return false;
        };
        left = now;
    }
    true
}

/// The letter of a column by its bits.
fn letter(bits: u8) -> u8 {
    match bits % 4 {
        3 => b'b',
        1 => b'u',
        2 => b'l',
        _ => b'n',
    }
}

/// The text of a board of the first so many of these areas.
fn text_of(
    alloc: Global,
    areas: usize,
    free: Cells,
    pieces: &[Piece],
) -> Result<Vec<u8>, AllocError> {
    let mut text = b"areas".to_vec(alloc)?;
    for bits in free.iter().take(areas) {
        text.extend_from_slice(&[b' ', letter(*bits), letter(*bits / 4)])?;
    }
    text.extend_from_slice(b"\npieces")?;
    for piece in pieces {
        let kind = match piece.kind {
            Kind::X => b'X',
            Kind::Y => b'Y',
            Kind::Z => b'Z',
        };
        let width = match piece.width {
            Width::One => b'1',
            Width::Two => b'2',
        };
        text.extend_from_slice(&[b' ', kind, width])?;
    }
    text.push(b'\n')?;
    Ok(text)
}

/// As many pieces are removed as the search wants, and the others stand legally.
fn expect_fewest(rt: &impl Abort, alloc: Global, areas: usize, free: Cells, pieces: &[Piece]) {
    let text = text_of(alloc, areas, free, pieces).expect(rt, "memory");
    let (removed, spots) = removed_of(rt, alloc, &text);
    let want = fewest(alloc, free, pieces).expect(rt, "memory");
    let legal = is_legal(free, pieces, &removed, &spots);
    expect(
        rt,
        &(free, removed.len(), legal),
        &(free, want, true),
        "a board",
    );
}

/// The same on these areas with up to three pieces.
fn expect_fewest_of_pieces(rt: &impl Abort, alloc: Global, areas: usize, free: Cells) {
    expect_fewest(rt, alloc, areas, free, &[]);
    for a in 0..6 {
        let first = piece(a);
        expect_fewest(rt, alloc, areas, free, &[first]);
        for b in a..6 {
            let second = piece(b);
            expect_fewest(rt, alloc, areas, free, &[first, second]);
            for c in b..6 {
                expect_fewest(rt, alloc, areas, free, &[first, second, piece(c)]);
            }
        }
    }
}

#[test]
fn removes_as_few_as_a_plain_search(rt: HostRuntime) {
    expect_fewest_of_pieces(&rt, rt.alloc(), 0, [0, 0, 0]);
    for low in 0..16 {
        expect_fewest_of_pieces(&rt, rt.alloc(), 1, [low, 0, 0]);
        for high in 0..16 {
            expect_fewest_of_pieces(&rt, rt.alloc(), 2, [low, high, 0]);
        }
    }
}

/// Numbers that are drawn one after another.
#[derive(Drop)]
struct Draw {
    state: u64,
}

impl Draw {
    /// The next number.
    fn next(&mut self) -> u64 {
        self.state = self
            .state
            .wrapping_mul(6_364_136_223_846_793_005)
            .wrapping_add(1);
        self.state >> 33
    }

    /// The free cells of an area.
    fn cells(&mut self) -> u8 {
        (self.next() % 16) as u8
    }
}

#[test]
fn removes_as_few_from_drawn_boards(rt: HostRuntime) {
    let alloc = rt.alloc();
    let mut draw = Draw { state: 58 };
    for _ in 0..500 {
        let free = [draw.cells(), draw.cells(), draw.cells()];
        let mut pieces = Vec::new(alloc);
        for _ in 0..3 + draw.next() % 4 {
            let class = (draw.next() % 6) as u8;
            pieces.push(piece(class)).expect(&rt, "memory");
        }
        expect_fewest(&rt, alloc, 3, free, &pieces);
    }
}
