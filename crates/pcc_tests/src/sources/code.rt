//! The graphs of a program as an interpreter reads them: the ops of each block, in order.

ghost use Rattle.std.specs.Prelude.{◌<◌, length};
ghost use Rattle.flow_graph.specs.Graphs.{IsPlaced};

use flow_graph::{Graph, Op};
use pcc_base::NoMemory;
use std::alloc::Global;

/// The graph of a function, and the ops of its blocks.
#[derive(Drop)]
pub struct Code<'a> {
    pub graph: &'a Graph,
    pub blocks: Vec<Vec<&'a Op>>,
}

/// Adds the op of a point.
fn push_op<'a>(ops: &mut Vec<&'a Op>, graph: &'a Graph, point: u32) -> Result<(), NoMemory>
    requires { IsPlaced graph.now point }
{
    Ok(ops.push(graph.op(point))?)
}

/// The ops of a block, in order.
fn ops_in<'a>(alloc: Global, graph: &'a Graph, block: u32) -> Result<Vec<&'a Op>, NoMemory>
    requires { block < length graph.now.blocks }
{
    let points = graph.points_in(alloc, block)?;
    let mut ops = Vec::new(alloc);
    for point in points.as_slice() {
        push_op(&mut ops, graph, *point)?;
    }
    Ok(ops)
}

/// The graph of one function.
fn code_of<'a>(alloc: Global, graph: &'a Graph) -> Result<Code<'a>, NoMemory> {
    let mut blocks = Vec::new(alloc);
    for block in 0..graph.blocks() {
        blocks.push(ops_in(alloc, graph, block)?)?;
    }
    Ok(Code { graph, blocks })
}

/// The graphs of all functions, by their numbers.
pub(crate) fn codes_of<'a>(alloc: Global, graphs: &'a [Graph]) -> Result<Vec<Code<'a>>, NoMemory> {
    let mut codes = Vec::new(alloc);
    for graph in graphs {
        codes.push(code_of(alloc, graph)?)?;
    }
    Ok(codes)
}
