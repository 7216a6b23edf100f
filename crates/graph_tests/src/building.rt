//! The steps by which a graph is built. Where there is no memory for one, the test ends there.

ghost use Rattle.std.specs.Prelude.{◌≡◌, ◌<◌, length};
ghost use Rattle.flow_graph.specs.Graphs.{empty_flow, with_block, with_op, with_variable, FitsOp, IsEnded};
ghost use Rattle.pcc_base.specs.declared.run.Width.TheVariants.{One, Two};

use flow_graph::{Graph, Op};
use pcc_base::Width;
use std::alloc::Global;
use std::process::Abort;

/// A graph with no variables and one empty block, block 0.
pub(crate) fn empty_graph(rt: &impl Abort, alloc: Global) -> Graph
    ensures { result ≡ empty_flow }
{
    Graph::new(alloc).expect(rt, "a graph")
}

/// Makes a variable of width Two, and answers its number.
pub fn add_var(rt: &impl Abort, graph: &mut Graph) -> u32
    requires { length graph.old.widths < 4294967295 }
    ensures number { result ≡ length graph.old.widths }
    ensures graph { graph.new ≡ with_variable graph.old Two }
{
    graph.add_var(Width::Two).expect(rt, "a variable")
}

/// Makes a variable of width One, and answers its number.
pub fn add_byte(rt: &impl Abort, graph: &mut Graph) -> u32
    requires { length graph.old.widths < 4294967295 }
    ensures number { result ≡ length graph.old.widths }
    ensures graph { graph.new ≡ with_variable graph.old One }
{
    graph.add_var(Width::One).expect(rt, "a variable")
}

/// Makes an empty block.
pub fn add_block(rt: &impl Abort, graph: &mut Graph)
    requires { length graph.old.blocks < 4294967295 }
    ensures { graph.new ≡ with_block graph.old }
{
    graph.add_block().expect(rt, "a block");
}

/// Makes a point with this op at the end of a block, and answers its number.
pub fn append(rt: &impl Abort, graph: &mut Graph, block: u32, op: Op) -> u32
    requires room { length graph.old.ops < 4294967295 }
    requires in_range { block < length graph.old.blocks }
    requires not_ended { ¬ IsEnded graph.old block }
    requires fits { FitsOp graph.old op }
    ensures number { result ≡ length graph.old.ops }
    ensures graph { graph.new ≡ with_op graph.old block op }
{
    graph.append(block, op).expect(rt, "a point")
}
