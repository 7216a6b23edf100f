//! The map of a graph.

ghost use Rattle.std.specs.Prelude.{◌≡◌, ◌<◌, ◌+◌, ◌*◌, IfOk, OnOk, length};
ghost use Rattle.allocator.specs.PointMaps.{IsLegalMap, bytes_of_arrays};
ghost use Rattle.flow_graph.specs.Graphs.{IsPlaced};
ghost use Rattle.flow_liveness.specs.Distances.{AreDistances};
ghost use Rattle.allocator.specs.Allocations.{IsAllocation, NothingFirst};
ghost use Rattle.allocator.specs.Progress.{IsDoneTo};
ghost use Rattle.allocator.specs.Slots.{slots_given};

use crate::elementary::Elementary;
use crate::fixed::{fixed_result, fixed_use};
use crate::frame::bytes_of_arrays;
use crate::given_slots::spill_all;
use crate::piece_places::{places_of, put_fixed, put_pieces};
use crate::point_pieces::pieces_of;
use crate::solution::solve_point;
use crate::stood::Stood;
use flow_liveness::Distances;
use pcc_base::NoMemory;
use puzzle_board::PointMap;
use std::alloc::Global;

/// Allocates a point of a block. So many slots were given.
fn allocate_point(
    alloc: Global,
    form: &Elementary,
    distances: &Distances,
    point: u32,
    map: &mut PointMap,
    given: &mut u32,
    stood: &mut Stood,
) -> Result<(), NoMemory>
    requires distances { AreDistances form.now.graph distances.now }
    requires placed { IsPlaced form.now.graph point }
    requires few { length form.now.graph.widths < 536870908 }
    requires done { IsDoneTo form.now point map.old }
    requires count { given.old ≡ slots_given map.old.slots }
    ensures done { OnOk result (IsDoneTo form.now (point + 1) map.new) }
    ensures count { OnOk result (given.new ≡ slots_given map.new.slots) }
{
    form.is_form();
    form.graph().is_flow();
    form.live().is_lives();
    let op = form.graph().op(point);
    let pieces = pieces_of(alloc, form, point)?;
    let solution = solve_point(alloc, form, distances, point, op, &pieces, stood)?;
    spill_all(map, point, &solution.spilled, given)?;
    let places = places_of(alloc, map, &pieces, &solution.spots)?;
    put_pieces(map, point, &pieces, &places)?;
    put_fixed(map, point, fixed_use(op), fixed_result(op))
}

/// Allocates a point, if it is in a block.
fn allocate_next(
    alloc: Global,
    form: &Elementary,
    distances: &Distances,
    point: u32,
    map: &mut PointMap,
    given: &mut u32,
    stood: &mut Stood,
) -> Result<(), NoMemory>
    requires distances { AreDistances form.now.graph distances.now }
    requires few { length form.now.graph.widths < 536870908 }
    requires done { IsDoneTo form.now point map.old }
    requires count { given.old ≡ slots_given map.old.slots }
    ensures done { OnOk result (IsDoneTo form.now (point + 1) map.new) }
    ensures count { OnOk result (given.new ≡ slots_given map.new.slots) }
{
    if form.is_placed(point) {
        stood.go_to(form, map, point);
        return allocate_point(alloc, form, distances, point, map, given, stood);
    }
    Ok(())
}

/// Where each variable stands before and after each point of a graph (Quintão Pereira and Palsberg, "Register
/// Allocation by Puzzle Solving", PLDI 2008). Each point is a board of its own: of its variables those are spilled that
/// come first in the spill order, as few as leave a board that is solvable, and they stand in their slots there; the
/// others stand in registers, where they stood before as far as the board allows. A variable has a slot only if it is
/// spilled at some point. Each point is gone to once, and
/// what is asked of its variables is found by binary search.
///
/// # Errors
///
/// Want of memory.
pub fn allocate(
    alloc: Global,
    form: &Elementary,
    distances: &Distances,
) -> Result<PointMap, NoMemory>
    requires distances { AreDistances form.now.graph distances.now }
    requires room { 16 + 4 * length form.now.graph.widths + bytes_of_arrays form.now.graph.arrays < 2147483648 }
    ensures allocated { IfOk result (IsAllocation form.now) }
    ensures legal { IfOk result (λ places. NothingFirst form.now.graph → IsLegalMap form.now.graph places) }
{
    form.is_form();
    let graph = form.graph();
    let mut map = PointMap::new(alloc, graph.points(), graph.vars(), 0)?;
    let mut stood = Stood::new(alloc, graph)?;
    let mut given = 0;
    for point in 0..graph.points() {
        allocate_next(
            alloc, form, distances, point, &mut map, &mut given, &mut stood,
        )?;
    }
    map.set_frame(16 + 4 * given + bytes_of_arrays(graph));
    Ok(map)
}
