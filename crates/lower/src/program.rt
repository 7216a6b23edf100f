//! The graphs of a program.

ghost use Rattle.std.specs.Prelude.{◌≡◌, IfOk};
ghost use Rattle.c_tree.specs.Erased.{program_of};
ghost use Rattle.c_tree.specs.WellTyped.{WellTyped};
ghost use Rattle.flow_graph.specs.Running.{IsNeverStuck};
ghost use Rattle.flow_graph.specs.WellFormed.{IsGraphProgram};
ghost use Rattle.lower.specs.Graphs.{graphs_of};
ghost use Rattle.lower_lines.specs.Lowering.{
  AreSmall,
  HasObjects,
  HaveMarks,
  HaveShapes,
  KeepsOutcome,
  MarksOnce,
};
ghost use Rattle.lower_lines.specs.Programs.{lowered};
ghost use Rattle.lower_lines.specs.Words.{IsInMemory};
ghost use Rattle.lower_laws.specs.Declared.{IsDeclaredFirst};
ghost use Rattle.lower_laws.specs.SettledLaws.{HaveLiveness, NothingLiveFirst};

use crate::graphs::Graphs;
use crate::lowered::graph;
use crate::objects::objects_of;
use c_tree::Program;
use flow_graph::{Graph, never_stuck};
use lower_laws::{all_programs_lower, first_points_hold, graphs_are_there, liveness_holds};
use lower_lines::{graphs_are_small, marks_hold, objects_hold, shapes_hold};
use pcc_base::NoMemory;
use std::alloc::Global;

/// The graphs of the functions, in order.
fn functions_of(alloc: Global, program: &Program) -> Result<Vec<Graph>, NoMemory>
    requires typed { WellTyped (program_of program.now) }
    requires memory { IsInMemory (program_of program.now) }
    ensures { IfOk result (λ v. v.items ≡ (lowered (program_of program.now)).functions) }
{
    let mut graphs = Vec::new(alloc);
    for function in program.functions.as_slice() {
        let made = graph(alloc, program, function)?;
        graphs.push(made)?;
    }
    Ok(graphs)
}

/// The graphs of a typed program in memory. The only refusal is want of memory; a number above 32 bits counts as it.
pub fn lower(alloc: Global, program: &Program) -> Result<Graphs, NoMemory>
    requires typed { WellTyped (program_of program.now) }
    requires memory { IsInMemory (program_of program.now) }

    // They are those of the program's lines.
    ensures graphs { IfOk result (λ graphs. graphs_of graphs ≡ lowered (program_of program.now)) }

    // For every input and number of turns the graphs do what the program does (C99 5.1.2.3).
    ensures outcome { IfOk result (λ graphs. KeepsOutcome (program_of program.now) (graphs_of graphs)) }

    // Every state that comes has its next one or an end.
    ensures never_stuck { IfOk result (λ graphs. IsNeverStuck (graphs_of graphs)) }

    // Each graph is one, and each of its blocks is ended; ops name functions and objects of the graphs alone; each
    // object is one.
    ensures well_formed { IfOk result (λ graphs. IsGraphProgram (graphs_of graphs)) }

    // The first variables are the locals, frame arrays are the functions', blocks are ended, and frames are within
    // their bound.
    ensures shapes { IfOk result (λ graphs. HaveShapes (program_of program.now) (graphs_of graphs)) }
    ensures has_objects { IfOk result (λ graphs. HasObjects (program_of program.now) (graphs_of graphs)) }

    // Each statement has one mark, in the graph of its function.
    ensures marks { IfOk result (λ graphs. MarksOnce (graphs_of graphs)) }
    ensures statements { IfOk result (λ graphs. HaveMarks (program_of program.now) (graphs_of graphs)) }

    // The graphs grow no faster than the program.
    ensures small { IfOk result (λ graphs. AreSmall (program_of program.now) (graphs_of graphs)) }

    // No temporary is live at a mark, and the dividend of a division and the count of a shift die at their op and are
    // no other operand of it.
    ensures liveness { IfOk result (λ graphs. HaveLiveness (program_of program.now) (graphs_of graphs)) }

    // No variable is live at a function's first point, where each local is declared before it is named.
    ensures first_points { IfOk result (λ graphs. IsDeclaredFirst (program_of program.now)
        → NothingLiveFirst (program_of program.now) (graphs_of graphs)) }
{
    let functions = functions_of(alloc, program)?;
    let objects = objects_of(alloc, program.objects.as_slice())?;
    graphs_are_there();
    all_programs_lower();
    never_stuck();
    shapes_hold();
    objects_hold();
    marks_hold();
    graphs_are_small();
    liveness_holds();
    first_points_hold();
    Ok(Graphs {
        functions,
        objects,
        main: program.main,
    })
}
