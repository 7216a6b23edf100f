//! The points that lead to each point.

ghost use Rattle.std.specs.Prelude.{ℕ, ◌≡◌, ◌<◌, ◌↔◌, length, IfOk, IfSome, OnOk, Some, slice_get};
ghost use Rattle.flow_graph.specs.Graphs.{IsPlaced, Stands};
ghost use Rattle.flow_graph.specs.Liveness.{IsBehind, IsSuccessor};
ghost use Rattle.flow_liveness.specs.Index.{ArePredecessors};
ghost use Rattle.flow_liveness.specs.Lists.{Adds};

use crate::lists::Lists;
use crate::ways::{Way, way_of};
use flow_graph::Graph;
use pcc_base::NoMemory;
use std::alloc::Global;

/// Notes that a point leads to another, if there is one.
fn add_edge(predecessors: &mut Lists<u32>, from: u32, to: Option<u32>) -> Result<(), NoMemory>
    requires { IfSome to (λ next. next < length predecessors.old) }
    ensures { OnOk result
        (Adds predecessors.old predecessors.new (λ point next. (point ≡ from) × (to ≡ Some next))) }
{
    match to {
        Some(next) => predecessors.push(next, from),
        None => Ok(()),
    }
}

/// Notes where a point leads; `next` is the point behind it.
fn add_edges(
    predecessors: &mut Lists<u32>,
    graph: &Graph,
    from: u32,
    next: Option<u32>,
) -> Result<(), NoMemory>
    requires placed { IsPlaced graph.now from }
    requires next { (point : ℕ) → IsBehind graph.now from point ↔ (next ≡ Some point) }
    requires points { length predecessors.old ≡ length graph.now.ops }
    ensures { OnOk result
        (Adds predecessors.old predecessors.new (λ point next. (point ≡ from) × IsSuccessor graph.now from next)) }
{
    graph.is_flow();
    match way_of(graph.op(from)) {
        Way::Next => add_edge(predecessors, from, next),
        Way::Block(block) => add_edge(predecessors, from, graph.first(block)),
        Way::Either(first, second) => {
            add_edge(predecessors, from, graph.first(first))?;
            add_edge(predecessors, from, graph.first(second))
        }
        Way::Nowhere => Ok(()),
    }
}

/// The number at a place, if there are so many.
fn number_at(numbers: &[u32], place: usize) -> Option<u32>
    ensures { result ≡ slice_get numbers.now place }
{
    numbers.get(place).copied()
}

/// Notes where the points of a block lead.
fn add_block(
    alloc: Global,
    predecessors: &mut Lists<u32>,
    graph: &Graph,
    block: u32,
) -> Result<(), NoMemory>
    requires in_range { block < length graph.now.blocks }
    requires points { length predecessors.old ≡ length graph.now.ops }
    ensures { OnOk result (Adds predecessors.old predecessors.new
        (λ point next. Stands graph.now point block × IsSuccessor graph.now point next)) }
{
    graph.is_flow();
    let points = graph.points_in(alloc, block)?;
    for place in 0..points.len() {
        let next = number_at(points.as_slice(), place + 1);
        add_edges(predecessors, graph, points[place], next)?;
    }
    Ok(())
}

/// For each point of a graph those that lead to it.
pub(crate) fn predecessors_of(alloc: Global, graph: &Graph) -> Result<Lists<u32>, NoMemory>
    ensures { IfOk result (ArePredecessors graph.now) }
{
    let mut predecessors = Lists::new(alloc, graph.points())?;
    for block in 0..graph.blocks() {
        add_block(alloc, &mut predecessors, graph, block)?;
    }
    Ok(predecessors)
}
