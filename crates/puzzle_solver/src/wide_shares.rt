//! Pieces of width Two: how many go where, and areas that take them.

ghost use Rattle.std.specs.Prelude.{◌≡◌, ◌+◌, ◌*◌, ◌≤◌, IsSome};
ghost use Rattle.pcc_base.specs.declared.run.Width.TheVariants.{Two};
ghost use Rattle.puzzle_board.specs.Boards.{area_count, piece_count};
ghost use Rattle.puzzle_board.specs.Worth.{after_wide};
ghost use Rattle.puzzle_board.specs.Bounds.{IsBounded};
ghost use Rattle.puzzle_solver.specs.Plans.{IsPlan, numbers};
ghost use Rattle.puzzle_solver.specs.Filling.{Filled, IsFilled, left_by};

use crate::board_counts::{AreaCounts, PieceCounts};
use crate::place::place_first;
use pcc_base::{Steps, Width};
use puzzle_board::{AreaKind, Board, Columns, Kind, Spot};
use std::sync::ledger::Ledger;

/// How many pieces of width Two go where.
#[derive(Clone, Copy)]
pub struct Plan {
    /// X in areas U0 and Z in areas L0, which nothing else of width Two can use.
    pub own_x: u32,
    pub own_z: u32,
    /// X in areas E, Z in the rows that these leave, and Z in further areas E.
    pub shared_x: u32,
    pub shared_z: u32,
    pub alone_z: u32,
    /// X in areas U1 and Z in areas L1.
    pub rest_x: u32,
    pub rest_z: u32,
}

impl Plan {
    /// X and Z of width Two go where nothing else of width Two can, then as few areas E as serve take an X and a Z
    /// together, and the others go beside a column with both rows free.
    pub fn of(areas: AreaCounts, pieces: PieceCounts) -> Plan
        requires { IsBounded (numbers areas pieces) }
        ensures { IsPlan (numbers areas pieces) result }
    {
        let own_x = pieces.x2.min(areas.u0);
        let own_z = pieces.z2.min(areas.l0);
        let x = pieces.x2 - own_x;
        let z = pieces.z2 - own_z;
        let shared = x.saturating_sub(areas.u1).max(z.saturating_sub(areas.l1));
        let shared_x = x.min(shared);
        let with_shared = z.min(shared);
        let shared_z = with_shared.min(shared_x);
        Plan {
            own_x,
            own_z,
            shared_x,
            shared_z,
            alone_z: with_shared - shared_z,
            rest_x: x - shared_x,
            rest_z: z - with_shared,
        }
    }
}

/// Places a piece of a kind and of width Two in an area of a kind.
fn fill_one<L: Ledger>(board: &mut Board<L>, kind: Kind, from: AreaKind, steps: &mut Steps<L>)
    requires pieces { 1 ≤ piece_count board.old kind Two }
    requires areas { 1 ≤ area_count board.old from }
    requires fits { IsSome (after_wide kind from) }
    ensures filled { IsFilled kind from (left_by kind from) 1 board.old board.new }
    ensures few { steps.new ≤ steps.old + 6 }
{
    if let Some(area) = board.first_area(from, steps) {
        let spot = Spot {
            area,
            columns: Columns::All,
        };
        place_first(board, kind, Width::Two, spot, steps);
    }
}

/// Places so many pieces of a kind and of width Two in areas of a kind.
pub fn fill<L: Ledger>(
    board: &mut Board<L>,
    kind: Kind,
    from: AreaKind,
    count: u32,
    steps: &mut Steps<L>,
)
    requires pieces { count ≤ piece_count board.old kind Two }
    requires areas { count ≤ area_count board.old from }
    requires fits { IsSome (after_wide kind from) }
    ensures filled { Filled kind from (left_by kind from) count board.old board.new }
    ensures few { steps.new ≤ steps.old + 6 * count }
{
    for _placed in 0..count {
        fill_one(board, kind, from, steps);
    }
}
