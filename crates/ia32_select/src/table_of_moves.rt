//! The instructions between all points of a graph over a map.

ghost use Rattle.std.specs.Prelude.{ℕ, ◌≡◌, ◌<◌, length, Some, IfOk, OnOk};
ghost use Rattle.flow_graph.specs.Graphs.{IsPlaced, Stands};
ghost use Rattle.flow_graph.specs.Liveness.{IsSuccessor};
ghost use Rattle.ia32_placements.specs.Laws.{AllMove};
ghost use Rattle.ia32_select.specs.EdgeMoves.{AreBetween};
ghost use Rattle.ia32_select.specs.MoveTables.{Fills, between_in};
ghost use Rattle.ia32_select.specs.Selections.{CanSelect};

use crate::edges::{Edge, insns_on};
use crate::exits::next_points;
use crate::move_table::MoveTable;
use arrayvec::ArrayVec;
use flow_graph::Graph;
use ia32_insn::Insn;
use pcc_base::NoMemory;
use puzzle_board::PointMap;
use std::alloc::Global;

/// The instructions to the point that follows, if there is one.
fn insns_to(graph: &Graph, map: &PointMap, point: u32, next: Option<u32>) -> ArrayVec<Insn, 48>
    requires selects { CanSelect graph.now map.now }
    requires leads { (to : ℕ) → next ≡ Some to → IsSuccessor graph.now point to }
    ensures { (to : ℕ) → next ≡ Some to → AreBetween graph.now map.now point to result.items }
{
    match next {
        Some(next) => insns_on(&Edge {
            graph,
            map,
            point,
            next,
        }),
        None => ArrayVec::new(),
    }
}

/// Sets what leads from a point.
fn fill_point(
    table: &mut MoveTable,
    graph: &Graph,
    map: &PointMap,
    point: u32,
) -> Result<(), NoMemory>
    requires selects { CanSelect graph.now map.now }
    requires placed { IsPlaced graph.now point }
    requires points { length table.old ≡ length graph.now.ops }
    ensures { OnOk result (Fills graph.now map.now (λ p. p ≡ point) table.old table.new) }
{
    graph.is_flow();
    let (first, second) = next_points(graph, point);
    let to_first = insns_to(graph, map, point, first);
    let to_second = insns_to(graph, map, point, second);
    table.set(
        point,
        first,
        to_first.as_slice(),
        second,
        to_second.as_slice(),
    )
}

/// Sets what leads from each point of a block.
fn fill_block(
    alloc: Global,
    table: &mut MoveTable,
    graph: &Graph,
    map: &PointMap,
    block: u32,
) -> Result<(), NoMemory>
    requires selects { CanSelect graph.now map.now }
    requires in_range { block < length graph.now.blocks }
    requires points { length table.old ≡ length graph.now.ops }
    ensures { OnOk result (Fills graph.now map.now (λ p. Stands graph.now p block) table.old table.new) }
{
    let points = graph.points_in(alloc, block)?;
    for point in points.as_slice() {
        fill_point(table, graph, map, *point)?;
    }
    Ok(())
}

/// The instructions that move variables, from each point to those that follow it.
pub(crate) fn table_of(alloc: Global, graph: &Graph, map: &PointMap) -> Result<MoveTable, NoMemory>
    requires { CanSelect graph.now map.now }
    ensures { IfOk result (λ table. AllMove graph.now map.now (between_in table)) }
{
    let mut table = MoveTable::new(alloc, graph.points())?;
    for block in 0..graph.blocks() {
        fill_block(alloc, &mut table, graph, map, block)?;
    }
    Ok(table)
}
