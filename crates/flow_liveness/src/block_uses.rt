//! The variables that the points of a block use.

ghost use Rattle.std.specs.Prelude.{◌≡◌, ◌<◌, length, OnOk};
ghost use Rattle.flow_graph.specs.Graphs.{IsPlaced, Stands};
ghost use Rattle.flow_graph.specs.Liveness.{IsUsedAt};
ghost use Rattle.flow_liveness.specs.Lists.{Adds};

use crate::lists::Lists;
use flow_graph::Graph;
use pcc_base::NoMemory;
use std::alloc::Global;

/// Notes what a point uses.
fn add_uses(uses: &mut Lists<u32>, graph: &Graph, point: u32) -> Result<(), NoMemory>
    requires placed { IsPlaced graph.now point }
    requires variables { length uses.old ≡ length graph.now.widths }
    ensures { OnOk result (Adds uses.old uses.new (λ user v. (user ≡ point) × IsUsedAt graph.now v point)) }
{
    graph.is_flow();
    let op = graph.op(point);
    for place in 0..op.use_count() {
        if let Some(var) = op.use_at(place) {
            uses.push(var, point)?;
        }
    }
    Ok(())
}

/// Notes what the points of a block use.
pub fn add_block(
    alloc: Global,
    uses: &mut Lists<u32>,
    graph: &Graph,
    block: u32,
) -> Result<(), NoMemory>
    requires in_range { block < length graph.now.blocks }
    requires variables { length uses.old ≡ length graph.now.widths }
    ensures { OnOk result
        (Adds uses.old uses.new (λ user v. Stands graph.now user block × IsUsedAt graph.now v user)) }
{
    let points = graph.points_in(alloc, block)?;
    for point in points.as_slice() {
        add_uses(uses, graph, *point)?;
    }
    Ok(())
}
