//! A point's board, solved.

ghost use Rattle.std.specs.Prelude.{◌≡◌, ◌≤◌, IfOk, length};
ghost use Rattle.std.specs.List.{AllByRecursion};
ghost use Rattle.flow_liveness.specs.Distances.{AreDistances};
ghost use Rattle.allocator.specs.PointBoards as boards;
ghost use Rattle.allocator.specs.Order.{AreInOrder};
ghost use Rattle.allocator.specs.Solutions.{AreSpots};
ghost use Rattle.allocator.specs.Spills.{HasPiece, IsSpilledAt};

use crate::candidates::candidates_of;
use crate::elementary::Elementary;
use crate::fixed::fixed_result;
use crate::given_board::board_with;
use crate::registers::areas_of;
use crate::spots::spots_on;
use crate::stood::Stood;
use flow_graph::Op;
use flow_liveness::Distances;
use pcc_base::{NoMemory, Steps};
use puzzle_board::{Piece, Spot};
use puzzle_solver::{fit_near, spill_order};
use std::alloc::Global;
use std::marker::Brand;
use std::sync::ledger::{Blank, Ledger};

/// What becomes of a point's board: the variables that are spilled, and the spot of each piece that stands.
#[derive(Drop)]
pub struct Solution {
    pub spilled: Vec<u32>,
    pub spots: Vec<Option<Spot>>,
}

/// The same with a counter of steps, which the board asks for.
fn solve_counted<L: Ledger>(
    alloc: Global,
    form: &Elementary,
    distances: &Distances,
    point: u32,
    op: &Op,
    pieces: &[Piece],
    stood: &mut Stood,
    blank: Blank,
) -> Result<Solution, NoMemory>
    requires distances { AreDistances form.now.graph distances.now }
    requires few { length pieces.now ≤ 4294967295 }
    requires order { AreInOrder pieces.now }
    requires pieces { pieces.now ≡ boards.point_pieces form.now.graph form.now.lives point op.now }
    requires name { blank.name ≡ L.name }
    requires parts { blank.parts ≡ L.parts }
    requires one { L.parts ≡ 1 }
    ensures spilled { IfOk result (λ s. IsSpilledAt form.now.graph form.now.lives point op.now s.spilled.items) }
    ensures of_pieces { IfOk result (λ s. AllByRecursion (HasPiece pieces.now) s.spilled.items) }
    ensures spots { IfOk result (λ s. AreSpots (boards.areas_of op.now) pieces.now s.spilled.items s.spots.items) }
{
    let candidates = candidates_of(alloc, distances, point, pieces)?;
    let order = spill_order(alloc, &candidates)?;
    let mut board = board_with::<L>(alloc, &areas_of(op), pieces)?;
    let mut steps = Steps::<L>::new(blank);
    let hints = stood.hints(alloc, op, pieces)?;
    let spilled = fit_near(alloc, &mut board, &order, &hints, &mut steps)?;
    let spots = spots_on(alloc, &board, &mut steps)?;
    stood.remember(pieces, &spots, fixed_result(op));
    Ok(Solution { spilled, spots })
}

/// Solves a point's board, of which these are the pieces, with as few variables spilled as the spill order allows, and
/// near to where the variables stood.
pub(crate) fn solve_point(
    alloc: Global,
    form: &Elementary,
    distances: &Distances,
    point: u32,
    op: &Op,
    pieces: &[Piece],
    stood: &mut Stood,
) -> Result<Solution, NoMemory>
    requires distances { AreDistances form.now.graph distances.now }
    requires few { length pieces.now ≤ 4294967295 }
    requires order { AreInOrder pieces.now }
    requires pieces { pieces.now ≡ boards.point_pieces form.now.graph form.now.lives point op.now }
    ensures spilled { IfOk result (λ s. IsSpilledAt form.now.graph form.now.lives point op.now s.spilled.items) }
    ensures of_pieces { IfOk result (λ s. AllByRecursion (HasPiece pieces.now) s.spilled.items) }
    ensures spots { IfOk result (λ s. AreSpots (boards.areas_of op.now) pieces.now s.spilled.items s.spots.items) }
{
    solve_counted::<Brand>(
        alloc,
        form,
        distances,
        point,
        op,
        pieces,
        stood,
        Blank::new(1),
    )
}
