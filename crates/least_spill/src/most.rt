//! How many pieces of each kind and width can stay on a board at most, in numbers.

ghost use Rattle.std.specs.Prelude.{ℕ, ◌≡◌, ◌≤◌, ◌+◌, ◌↔◌, MatchOption};
ghost use Rattle.puzzle_board.specs.Bounds.{IsBounded, lower_of, upper_of};
ghost use Rattle.puzzle_solver.specs.declared.board_counts.PieceCounts.{PieceCounts};
ghost use Rattle.puzzle_solver.specs.Plans.{numbers};
ghost use Rattle.least_spill.specs.Most.{CanStay, HasWide, IsMost, IsMostBefore, IsMostWith, beside, total};

use puzzle_solver::{AreaCounts, PieceCounts, is_bounded};

/// How many pieces these are.
pub(crate) fn total(pieces: PieceCounts) -> u64
    ensures { result ≡ total pieces }
{
    u64::from(pieces.x1)
        + u64::from(pieces.x2)
        + u64::from(pieces.y1)
        + u64::from(pieces.y2)
        + u64::from(pieces.z1)
        + u64::from(pieces.z2)
}

/// The free cells of the upper row.
fn upper_cells(areas: AreaCounts) -> u64
    ensures { (p : PieceCounts) → result ≡ upper_of (numbers areas p) }
{
    let (u1, u0) = (u64::from(areas.u1), u64::from(areas.u0));
    let shared = 2 * u64::from(areas.e) + u64::from(areas.c) + u64::from(areas.upper_lower);
    shared + 2 * u1 + u64::from(areas.l1) + 2 * u0 + u64::from(areas.upper_none)
}

/// The free cells of the lower row.
fn lower_cells(areas: AreaCounts) -> u64
    ensures { (p : PieceCounts) → result ≡ lower_of (numbers areas p) }
{
    let (l1, l0) = (u64::from(areas.l1), u64::from(areas.l0));
    let shared = 2 * u64::from(areas.e) + u64::from(areas.c) + u64::from(areas.upper_lower);
    shared + u64::from(areas.u1) + 2 * l1 + 2 * l0 + u64::from(areas.lower_none)
}

/// How many Y of width One have room beside so many X and Z of width Two.
fn room_for_y(areas: AreaCounts, x: u64, z: u64) -> u64
    requires { IsBounded (numbers areas (beside x 0 z)) }
    ensures { (y : ℕ) → IsBounded (numbers areas (beside x y z)) ↔ y ≤ result }
{
    let (u1, l1) = (u64::from(areas.u1), u64::from(areas.l1));
    let (u0, l0) = (u64::from(areas.u0), u64::from(areas.l0));
    let both = 2 * u64::from(areas.e) + u1 + l1 + u64::from(areas.c);
    let with_x = both.min(both + u0 - x).min(both + u1 + 2 * u0 - 2 * x);
    let with_z = (both + l0 - z).min(both + l1 + 2 * l0 - 2 * z);
    let with_both = both + u0 + l0 - x - z;
    let cells = (upper_cells(areas) - 2 * x).min(lower_cells(areas) - 2 * z);
    with_x.min(with_z).min(with_both).min(cells)
}

/// The most that can stay with so many X and Z of width Two and no such Y. None where these alone can't. A Y takes a
/// cell of each row, so as many stay as have room and take none of what an X or a Z needs, or none of the other.
fn most_with(areas: AreaCounts, pieces: PieceCounts, x: u32, z: u32) -> Option<PieceCounts>
    requires x { x ≤ pieces.x2 }
    requires z { z ≤ pieces.z2 }
    ensures { MatchOption result
        ((other : PieceCounts) → CanStay areas pieces other → HasWide x z other → ⊥)
        (λ kept. IsMostWith areas pieces x z kept) }
{
    let wide = PieceCounts {
        x1: 0,
        x2: x,
        y1: 0,
        y2: 0,
        z1: 0,
        z2: z,
    };
    if !is_bounded(areas, wide) {
        return None;
    }
    let room = room_for_y(areas, u64::from(x), u64::from(z));
    let upper = upper_cells(areas) - 2 * u64::from(x);
    let lower = lower_cells(areas) - 2 * u64::from(z);
    let spare_upper = upper.saturating_sub(u64::from(pieces.x1));
    let spare_lower = lower.saturating_sub(u64::from(pieces.z1));
    let y = u64::from(pieces.y1)
        .min(room)
        .min(spare_upper.max(spare_lower));
    Some(PieceCounts {
        x1: u64::from(pieces.x1).min(upper - y) as u32,
        y1: y as u32,
        z1: u64::from(pieces.z1).min(lower - y) as u32,
        ..wide
    })
}

/// The most of what was the most so far and of what can stay with so many X and Z of width Two and no such Y.
fn more_with(
    areas: AreaCounts,
    pieces: PieceCounts,
    x: u32,
    z: u32,
    best: PieceCounts,
) -> PieceCounts
    requires x { x ≤ pieces.x2 }
    requires z { z ≤ pieces.z2 }
    requires best { IsMostBefore areas pieces x z best }
    ensures { IsMostBefore areas pieces x (z + 1) result }
{
    match most_with(areas, pieces, x, z) {
        None => best,
        Some(kept) => {
            if total(kept) > total(best) {
                kept
            } else {
                best
            }
        }
    }
}

/// The same with so many X of width Two and any Z.
fn more_with_x(areas: AreaCounts, pieces: PieceCounts, x: u32, so_far: PieceCounts) -> PieceCounts
    requires x { x ≤ pieces.x2 }
    requires best { IsMostBefore areas pieces x 0 so_far }
    ensures { IsMostBefore areas pieces (x + 1) 0 result }
{
    let mut best = so_far;
    for z in 0..u64::from(pieces.z2) + 1 {
        best = more_with(areas, pieces, x, z as u32, best);
    }
    best
}

/// The most that can stay without Y of width Two.
fn most_without_wide_y(areas: AreaCounts, pieces: PieceCounts) -> PieceCounts
    ensures { IsMostBefore areas pieces (pieces.x2 + 1) 0 result }
{
    let mut best = PieceCounts {
        x1: 0,
        x2: 0,
        y1: 0,
        y2: 0,
        z1: 0,
        z2: 0,
    };
    for x in 0..u64::from(pieces.x2) + 1 {
        best = more_with_x(areas, pieces, x as u32, best);
    }
    best
}

/// All pieces but some Y of width Two, as few as the bounds want. None where the others break them alone.
fn all_but_wide_y(areas: AreaCounts, pieces: PieceCounts) -> Option<PieceCounts>
    ensures { MatchOption result
        (¬ IsBounded (numbers areas (record pieces { y2 = 0 })))
        (λ kept. IsMost areas pieces kept) }
{
    for fewer in 0..u64::from(pieces.y2) + 1 {
        let kept = PieceCounts {
            y2: pieces.y2 - fewer as u32,
            ..pieces
        };
        if is_bounded(areas, kept) {
            return Some(kept);
        }
    }
    None
}

/// The most that can stay. A removed piece can stand where a Y of width Two stood, so these go first.
pub(crate) fn most_kept(areas: AreaCounts, pieces: PieceCounts) -> PieceCounts
    ensures { IsMost areas pieces result }
{
    match all_but_wide_y(areas, pieces) {
        Some(kept) => kept,
        None => most_without_wide_y(areas, pieces),
    }
}
