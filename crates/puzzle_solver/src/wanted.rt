//! Pieces where they are wanted, as far as the rest still fits.

ghost use Rattle.std.specs.Prelude.{◌≡◌, ◌+◌, ◌*◌, ◌≤◌, ◌<◌, length};
ghost use Rattle.puzzle_solver.specs.Near.{IsCounted, steps_for};
ghost use Rattle.puzzle_solver.specs.Onward.{IsOnward};

use crate::near_counts::{BoardCounts, counts_with};
use pcc_base::Steps;
use puzzle_board::{Board, Spot};
use std::sync::ledger::Ledger;

/// The counts of what isn't placed yet, and how many more hints may be asked about.
#[derive(Clone, Copy)]
struct Left {
    counts: BoardCounts,
    hints: u64,
}

/// Places a piece where it is wanted, if it waits, its cells are free there and the rest still fits. Answers the counts
/// of what is left.
fn place_one<L: Ledger>(
    board: &mut Board<L>,
    counts: BoardCounts,
    number: u32,
    spot: Spot,
    steps: &mut Steps<L>,
) -> BoardCounts
    requires counted { IsCounted board.old counts }
    requires number { number < length board.old.pieces }
    requires area { spot.area < length board.old.areas }
    ensures counted { IsCounted board.new result }
    ensures onward { IsOnward board.old board.new }
    ensures few { steps.new + steps_for result.pieces ≤ steps.old + steps_for counts.pieces + 2 }
{
    let Some(piece) = board.waiting(number, steps) else {
        return counts;
    };
    let free = board.class(spot.area, steps);
    match counts_with(counts, piece, free, spot.columns) {
        Some(rest) => {
            board.place(number, spot, steps);
            rest
        }
        None => counts,
    }
}

/// Follows a hint, if there is one, it is on the board, and more may be asked about.
fn follow<L: Ledger>(
    board: &mut Board<L>,
    left: Left,
    number: u32,
    hint: Option<Spot>,
    areas: u32,
    steps: &mut Steps<L>,
) -> Left
    requires counted { IsCounted board.old left.counts }
    requires number { number < length board.old.pieces }
    requires areas { areas ≡ length board.old.areas }
    ensures counted { IsCounted board.new result.counts }
    ensures onward { IsOnward board.old board.new }
    ensures few { steps.new + steps_for result.counts.pieces + 2 * result.hints
        ≤ steps.old + steps_for left.counts.pieces + 2 * left.hints }
{
    let Some(spot) = hint else {
        return left;
    };
    if spot.area >= areas || left.hints == 0 {
        return left;
    }
    let counts = place_one(board, left.counts, number, spot, steps);
    Left {
        counts,
        hints: left.hints - 1,
    }
}

/// Places pieces where they are wanted, in the order of their numbers. At most five hints an area and fifty more are
/// asked about, so that the steps stay linear in the areas. Answers the counts of what is left.
pub(crate) fn place_wanted<L: Ledger>(
    board: &mut Board<L>,
    counts: BoardCounts,
    hints: &[Option<Spot>],
    steps: &mut Steps<L>,
) -> BoardCounts
    requires { IsCounted board.old counts }
    ensures counted { IsCounted board.new result }
    ensures onward { IsOnward board.old board.new }
    ensures few { steps.new + steps_for result.pieces
        ≤ steps.old + steps_for counts.pieces + 10 * length board.old.areas + 102 }
{
    let areas = board.areas(steps);
    let mut left = Left {
        counts,
        hints: 5 * u64::from(areas) + 50,
    };
    for number in 0..board.pieces(steps) {
        let hint = hints.get(number as usize).copied().flatten();
        left = follow(board, left, number, hint, areas, steps);
    }
    left.counts
}
