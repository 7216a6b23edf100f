//! The graph of lines: its variables, frame arrays and blocks are made first, and then each op goes to the end of the
//! block that was started last.

ghost use Rattle.std.specs.Prelude.{◌≡◌, ◌≤◌, [], IfOk, OnOk, map};
ghost use Rattle.std.specs.List.{AllByRecursion};
ghost use Rattle.flow_graph.specs.Graphs.{IsArray};
ghost use Rattle.lower_lines.specs.Lines.{graph_of_lines};
ghost use Rattle.lower_builder.specs.Built.{line_of};
ghost use Rattle.lower_builder.specs.Graphs.{and_arrays, and_widths, graph_behind, last_behind};
ghost use Rattle.lower_builder.specs.Graphs.{AllFit, AreClosed, CanFollow};

use crate::line::Line;
use flow_graph::Graph;
use pcc_base::{NoMemory, Width};
use std::alloc::Global;

/// Variables of these widths.
fn add_widths(graph: &mut Graph, widths: &[Width]) -> Result<(), NoMemory>
    ensures { OnOk result (graph.new ≡ and_widths graph.old widths.now) }
{
    for width in widths {
        // No caller meets this: a function has no more variables than its locals and its points.
        if graph.vars() == u32::MAX {
            return Err(NoMemory);
        }
        graph.add_var(*width)?;
    }
    Ok(())
}

/// Frame arrays of these bytes and counts.
fn add_arrays(graph: &mut Graph, arrays: &[(u8, u32)]) -> Result<(), NoMemory>
    requires { AllByRecursion IsArray arrays.now }
    ensures { OnOk result (graph.new ≡ and_arrays graph.old arrays.now) }
{
    for (width, count) in arrays {
        // No caller meets this: each array has tokens of its own.
        if graph.arrays() == u32::MAX {
            return Err(NoMemory);
        }
        graph.add_array(*width, *count)?;
    }
    Ok(())
}

/// A graph without points, of so many blocks.
fn without_points(
    alloc: Global,
    widths: &[Width],
    arrays: &[(u8, u32)],
    blocks: u32,
) -> Result<Graph, NoMemory>
    requires arrays { AllByRecursion IsArray arrays.now }
    requires some { 1 ≤ blocks }
    ensures { IfOk result (λ graph. graph ≡ graph_of_lines widths.now arrays.now blocks []) }
{
    let mut graph = Graph::new(alloc)?;
    add_widths(&mut graph, widths)?;
    add_arrays(&mut graph, arrays)?;
    for _block in 1..blocks {
        graph.add_block()?;
    }
    Ok(graph)
}

/// One more line; the block that was started last, which ops then go to.
fn follow(graph: &mut Graph, last: u32, line: Line) -> Result<u32, NoMemory>
    requires { CanFollow graph.old last (line_of line) }
    ensures graph { IfOk result (λ _. graph.new ≡ graph_behind graph.old last (line_of line)) }
    ensures last { IfOk result (λ next. next ≡ last_behind last (line_of line)) }
{
    match line {
        Line::Start(block) => Ok(block),
        Line::Emit(op) => {
            // No caller meets this: a program has at most 20 points for each of its tokens.
            if graph.points() == u32::MAX {
                return Err(NoMemory);
            }
            graph.append(last, op)?;
            Ok(last)
        }
    }
}

/// The graph of lines, over these variables and frame arrays, of so many blocks.
pub(crate) fn graph_of(
    alloc: Global,
    widths: &[Width],
    arrays: &[(u8, u32)],
    blocks: u32,
    lines: Vec<Line>,
) -> Result<Graph, NoMemory>
    requires arrays { AllByRecursion IsArray arrays.now }
    requires some { 1 ≤ blocks }
    requires closed { AreClosed blocks (map line_of lines.items) }
    requires fit { AllFit (graph_of_lines widths.now arrays.now blocks []) (map line_of lines.items) }
    ensures { IfOk result (λ graph. graph
        ≡ graph_of_lines widths.now arrays.now blocks (map line_of lines.items)) }
{
    let mut graph = without_points(alloc, widths, arrays, blocks)?;
    let mut last = 0;
    for line in lines {
        last = follow(&mut graph, last, line)?;
    }
    Ok(graph)
}
