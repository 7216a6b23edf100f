//! The points that use each variable.

ghost use Rattle.std.specs.Prelude.{IfOk};
ghost use Rattle.flow_liveness.specs.Index.{AreUses};

use crate::block_uses::add_block;
use crate::lists::Lists;
use flow_graph::Graph;
use pcc_base::NoMemory;
use std::alloc::Global;

/// For each variable of a graph the points that use it.
pub(crate) fn uses_of(alloc: Global, graph: &Graph) -> Result<Lists<u32>, NoMemory>
    ensures { IfOk result (AreUses graph.now) }
{
    let mut uses = Lists::new(alloc, graph.vars())?;
    for block in 0..graph.blocks() {
        add_block(alloc, &mut uses, graph, block)?;
    }
    Ok(uses)
}
