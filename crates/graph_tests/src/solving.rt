//! Boards that are made and solved.

ghost use Rattle.std.specs.Prelude.{◌≡◌, ◌≤◌, ◌<◌, ◌+◌, [], length, map, IfOk, OnOk};
ghost use Rattle.puzzle_board.specs.Boards.{remaining, standing};
ghost use Rattle.graph_tests.specs.Narrow.{narrow_of};

use pcc_base::{NoMemory, Steps, Width};
use puzzle_board::{Area, Board, Column, Kind, Piece, Spot};
use puzzle_solver::{Candidate, fit, solve, solve_near, spill_order};
use std::alloc::Global;
use std::marker::Brand;
use std::process::Abort;
use std::sync::ledger::{Blank, Ledger};

/// A board of these areas and pieces.
fn board_of<L: Ledger>(
    alloc: Global,
    areas: &[Area],
    pieces: &[Piece],
) -> Result<Board<L>, NoMemory>
    requires areas { length areas.now ≤ 16 }
    requires pieces { length pieces.now ≤ 16 }
    ensures stands { IfOk result (λ board. standing board ≡ []) }
    ensures pieces { IfOk result (λ board. length board.pieces ≡ length pieces.now) }
{
    let mut board = Board::new(alloc, areas)?;
    for piece in pieces {
        board.add_piece(*piece)?;
    }
    Ok(board)
}

/// The spots of the pieces on a board.
fn spots_on<L: Ledger>(
    alloc: Global,
    board: &Board<L>,
    steps: &mut Steps<L>,
) -> Result<Vec<Option<Spot>>, NoMemory> {
    let mut spots = Vec::new(alloc);
    for piece in 0..board.pieces(steps) {
        spots.push(board.spot(piece, steps))?;
    }
    Ok(spots)
}

/// The spots of the pieces on a solved board, or None where it isn't solvable.
fn spots_with<L: Ledger>(
    alloc: Global,
    areas: &[Area],
    pieces: &[Piece],
    blank: Blank,
) -> Result<Option<Vec<Option<Spot>>>, NoMemory>
    requires areas { length areas.now ≤ 16 }
    requires pieces { length pieces.now ≤ 16 }
    requires name { blank.name ≡ L.name }
    requires parts { blank.parts ≡ L.parts }
    requires one { L.parts ≡ 1 }
{
    let mut steps = Steps::<L>::new(blank);
    let mut board = board_of::<L>(alloc, areas, pieces)?;
    if !solve(&mut board, &mut steps) {
        return Ok(None);
    }
    Ok(Some(spots_on(alloc, &board, &mut steps)?))
}

/// The spots of at most 16 pieces on a solved board of at most 16 areas, or None where it isn't solvable.
pub(crate) fn spots(
    rt: &impl Abort,
    alloc: Global,
    areas: &[Area],
    pieces: &[Piece],
) -> Option<Vec<Option<Spot>>> {
    assert!(rt; areas.len() <= 16 && pieces.len() <= 16);
    spots_with::<Brand>(alloc, areas, pieces, Blank::new(1)).expect(rt, "memory")
}

/// The same with hints.
fn spots_near_with<L: Ledger>(
    alloc: Global,
    areas: &[Area],
    pieces: &[Piece],
    hints: &[Option<Spot>],
    blank: Blank,
) -> Result<Option<Vec<Option<Spot>>>, NoMemory>
    requires areas { length areas.now ≤ 16 }
    requires pieces { length pieces.now ≤ 16 }
    requires name { blank.name ≡ L.name }
    requires parts { blank.parts ≡ L.parts }
    requires one { L.parts ≡ 1 }
{
    let mut steps = Steps::<L>::new(blank);
    let mut board = board_of::<L>(alloc, areas, pieces)?;
    if !solve_near(&mut board, hints, &mut steps) {
        return Ok(None);
    }
    Ok(Some(spots_on(alloc, &board, &mut steps)?))
}

/// The spots of at most 16 pieces on a solved board of at most 16 areas, near to these hints, or None where it isn't
/// solvable.
pub(crate) fn spots_near(
    rt: &impl Abort,
    alloc: Global,
    areas: &[Area],
    pieces: &[Piece],
    hints: &[Option<Spot>],
) -> Option<Vec<Option<Spot>>> {
    assert!(rt; areas.len() <= 16 && pieces.len() <= 16);
    spots_near_with::<Brand>(alloc, areas, pieces, hints, Blank::new(1)).expect(rt, "memory")
}

/// A board of one empty area and so many pieces Y of width One, each of its own variable.
fn narrow_board<L: Ledger>(alloc: Global, pieces: u32) -> Result<Board<L>, NoMemory>
    ensures stands { IfOk result (λ board. standing board ≡ []) }
    ensures areas { IfOk result (λ board. length board.areas ≡ 1) }
{
    let area = Area {
        low: Column::Both,
        high: Column::Both,
    };
    let mut board = Board::new(alloc, &[area])?;
    for var in 0..pieces {
        board.add_piece(Piece {
            kind: Kind::Y,
            width: Width::One,
            var,
        })?;
    }
    Ok(board)
}

/// Whether an empty area takes so many pieces Y of width One. The solver knows within 160 steps.
fn takes_with<L: Ledger>(alloc: Global, pieces: u32, steps: &mut Steps<L>) -> Result<bool, NoMemory>
    ensures few { OnOk result (steps.new ≤ steps.old + 160) }
{
    let mut board = narrow_board(alloc, pieces)?;
    Ok(solve(&mut board, steps))
}

fn takes_counted<L: Ledger>(alloc: Global, pieces: u32, blank: Blank) -> Result<bool, NoMemory>
    requires name { blank.name ≡ L.name }
    requires parts { blank.parts ≡ L.parts }
    requires one { L.parts ≡ 1 }
{
    takes_with(alloc, pieces, &mut Steps::<L>::new(blank))
}

/// Whether an empty area takes so many pieces Y of width One.
pub(crate) fn takes(rt: &impl Abort, alloc: Global, pieces: u32) -> bool {
    takes_counted::<Brand>(alloc, pieces, Blank::new(1)).expect(rt, "memory")
}

/// Four empty areas, and a piece Y of width One for each of these variables.
fn board_for<L: Ledger>(alloc: Global, candidates: &[Candidate]) -> Result<Board<L>, NoMemory>
    requires { length candidates.now ≤ 16 }
    ensures stands { IfOk result (λ board. standing board ≡ []) }
    ensures remain { IfOk result (λ board. remaining board ≡ map narrow_of candidates.now) }
{
    let area = Area {
        low: Column::Both,
        high: Column::Both,
    };
    let mut board = Board::new(alloc, &[area, area, area, area])?;
    for candidate in candidates {
        board.is_board();
        board.add_piece(Piece {
            kind: Kind::Y,
            width: Width::One,
            var: candidate.variable,
        })?;
    }
    Ok(board)
}

/// The spill order of at most 16 variables, and those of them that are spilled on four empty areas where each is a
/// piece Y
/// of width One.
fn spilled_with<L: Ledger>(
    alloc: Global,
    candidates: &[Candidate],
    blank: Blank,
) -> Result<(Vec<u32>, Vec<u32>), NoMemory>
    requires few { length candidates.now ≤ 16 }
    requires name { blank.name ≡ L.name }
    requires parts { blank.parts ≡ L.parts }
    requires one { L.parts ≡ 1 }
{
    let order = spill_order(alloc, candidates)?;
    let mut board = board_for::<L>(alloc, candidates)?;
    let removed = fit(alloc, &mut board, &order, &mut Steps::<L>::new(blank))?;
    Ok((order, removed))
}

/// The same of at most 16 variables with these distances.
pub(crate) fn spilled_at(
    rt: &impl Abort,
    alloc: Global,
    distances: &[Option<u32>],
) -> Result<(Vec<u32>, Vec<u32>), NoMemory> {
    let mut candidates = Vec::new(alloc);
    for i in 0..distances.len().min(16) {
        candidates.push(Candidate {
            variable: i as u32,
            distance: distances[i],
        })?;
    }
    assert!(rt; candidates.len() <= 16);
    spilled_with::<Brand>(alloc, &candidates, Blank::new(1))
}
