ghost use Rattle.std.specs.Prelude.{ℕ, ◌≡◌, ◌+◌, ◌*◌, ◌≤◌, ◌<◌, ◌∷◌, List, IsTrue, length};
ghost use Rattle.pcc_base.specs.declared.run.Width.TheVariants.{One};
ghost use Rattle.puzzle_board.specs.Areas.{fits_column, is_of_width};
ghost use Rattle.puzzle_board.specs.Boards.{free_areas, piece_count};
ghost use Rattle.puzzle_board.specs.Placements.{fits_at};
ghost use Rattle.puzzle_solver.specs.Onward.{IsOnward};
ghost use Rattle.puzzle_solver.specs.Columns.{IsChanged, IsRoom, IsWaiting, PlacedIfAny, columns_from, used};
ghost use Rattle.puzzle_solver.specs.Counting.{IsReady};

use crate::place::place_first;
use pcc_base::{Steps, Width};
use puzzle_board::{Board, Column, Columns, Kind, Spot};
use std::sync::ledger::Ledger;

/// How many pieces of width One are neither placed nor removed.
#[derive(Clone, Copy)]
pub(crate) struct Waiting {
    pub(crate) x: u32,
    pub(crate) y: u32,
    pub(crate) z: u32,
}

/// A piece of this kind and of width One fits in the column.
pub(crate) fn fits(kind: Kind, column: Column) -> bool
    ensures { result ≡ fits_column kind column }
{
    match (kind, column) {
        (Kind::X, Column::Both | Column::Upper) => true,
        (Kind::X, Column::Lower | Column::Neither) => false,
        (Kind::Y, Column::Both) => true,
        (Kind::Y, Column::Upper | Column::Lower | Column::Neither) => false,
        (Kind::Z, Column::Both | Column::Lower) => true,
        (Kind::Z, Column::Upper | Column::Neither) => false,
    }
}

/// Places a piece of this kind in the column, if there is one and it fits there. Answers how many are left.
fn place_if_any<L: Ledger>(
    board: &mut Board<L>,
    kind: Kind,
    waiting: u32,
    spot: Spot,
    column: Column,
    steps: &mut Steps<L>,
) -> u32
    requires waiting { piece_count board.old kind One ≡ waiting }
    requires width { IsTrue (is_of_width One spot.columns) }
    requires fits { IsTrue (fits_column kind column)
        → IsTrue (fits_at (free_areas board.old) spot.area kind spot.columns) }
    ensures left { result + used waiting kind column ≡ waiting }
    ensures changed { PlacedIfAny kind (used waiting kind column) spot board.old board.new }
    ensures few { steps.new ≤ steps.old + 5 * used waiting kind column }
{
    if waiting > 0 && fits(kind, column) {
        place_first(board, kind, Width::One, spot, steps);
        return waiting - 1;
    }
    waiting
}

/// Places a Y, or else an X and a Z, in the column, as far as there are any and they fit.
fn place_in_column<L: Ledger>(
    board: &mut Board<L>,
    spot: Spot,
    column: Column,
    waiting: Waiting,
    steps: &mut Steps<L>,
) -> Waiting
    requires waiting { IsWaiting board.old waiting.x waiting.y waiting.z }
    requires width { IsTrue (is_of_width One spot.columns) }
    requires here { (k : Kind) → fits_at (free_areas board.old) spot.area k spot.columns ≡ fits_column k column }
    ensures waiting { IsWaiting board.new result.x result.y result.z }
    ensures room { (more : List Column)
        → IsRoom waiting.x waiting.y waiting.z (column ∷ more)
        → IsRoom result.x result.y result.z more }
    ensures changed { IsChanged spot board.old board.new }
    ensures few { steps.new + 5 * (result.x + result.y + result.z)
        ≤ steps.old + 5 * (waiting.x + waiting.y + waiting.z) }
{
    let y = place_if_any(board, Kind::Y, waiting.y, spot, column, steps);
    if y < waiting.y {
        return Waiting {
            x: waiting.x,
            y,
            z: waiting.z,
        };
    }
    let x = place_if_any(board, Kind::X, waiting.x, spot, column, steps);
    let z = place_if_any(board, Kind::Z, waiting.z, spot, column, steps);
    Waiting { x, y, z }
}

/// Places pieces in both columns of an area.
fn place_in_area<L: Ledger>(
    board: &mut Board<L>,
    area: u32,
    waiting: Waiting,
    steps: &mut Steps<L>,
) -> Waiting
    requires in_range { area < length board.old.areas }
    requires waiting { IsWaiting board.old waiting.x waiting.y waiting.z }
    requires room { IsRoom waiting.x waiting.y waiting.z (columns_from (free_areas board.old) area) }
    ensures waiting { IsWaiting board.new result.x result.y result.z }
    ensures room { IsRoom result.x result.y result.z (columns_from (free_areas board.new) (area + 1)) }
    ensures onward { IsOnward board.old board.new }
    ensures few { steps.new + 5 * (result.x + result.y + result.z)
        ≤ steps.old + 1 + 5 * (waiting.x + waiting.y + waiting.z) }
{
    let cells = board.class(area, steps);
    let low = Spot {
        area,
        columns: Columns::Low,
    };
    let high = Spot {
        area,
        columns: Columns::High,
    };
    let rest = place_in_column(board, low, cells.low, waiting, steps);
    place_in_column(board, high, cells.high, rest, steps)
}

/// Places the pieces of width One, area by area.
pub(crate) fn place_narrow<L: Ledger>(board: &mut Board<L>, waiting: Waiting, steps: &mut Steps<L>)
    requires { IsReady board.old waiting.x waiting.y waiting.z }
    ensures all { IsWaiting board.new 0 0 0 }
    ensures onward { IsOnward board.old board.new }
    ensures few { steps.new ≤ steps.old + 1 + length board.old.areas + 5 * (waiting.x + waiting.y + waiting.z) }
{
    let mut rest = waiting;
    for area in 0..board.areas(steps) {
        rest = place_in_area(board, area, rest, steps);
    }
}
