//! The graph of a function.

ghost use Rattle.std.specs.Prelude.{◌≡◌, ℕ, Some, slice_get, IfOk};
ghost use Rattle.c_tree.specs.Erased.{function_of, program_of};
ghost use Rattle.c_tree.specs.WellTyped.{WellTyped};
ghost use Rattle.lower_lines.specs.Programs.{graph_of_function};
ghost use Rattle.lower_lines.specs.Words.{IsInMemory};

use crate::functions::function as lines_of;
use c_tree::{Function, Program};
use flow_graph::Graph;
use lower_builder::{Site, arrays_of, widths_of};
use pcc_base::NoMemory;
use std::alloc::Global;

/// The graph of a function of a typed program.
pub fn graph(alloc: Global, program: &Program, function: &Function) -> Result<Graph, NoMemory>
    requires typed { WellTyped (program_of program.now) }
    requires memory { IsInMemory (program_of program.now) }
    requires there { (k : ℕ) × (slice_get (program_of program.now).functions k ≡ Some (function_of function.now)) }
    ensures { IfOk result (λ graph. graph ≡ graph_of_function (program_of program.now) (function_of function.now)) }
{
    let site = Site::new(alloc, program, function)?;
    let lines = lines_of(&site)?;
    let widths = widths_of(alloc, function)?;
    let arrays = arrays_of(alloc, function)?;
    let blocks = lines.next();
    lines.graph(alloc, widths.as_slice(), arrays.as_slice(), blocks)
}
