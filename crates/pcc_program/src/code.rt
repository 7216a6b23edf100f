//! Laws of graphs and of their code over maps: each function's contract is one, and the function does nothing.

ghost use Rattle.pcc_program.specs.CodeLaws.{GraphsHaveFrames, MappedIsSelected};

use ia32_select::blocks_are_few;

/// The graphs of a program in memory that declares each local before it names it have frames within all limits, even
/// with a slot for each variable; fixed operands die at their ops, and nothing is live at a first point.
pub fn graphs_have_frames()
    ensures { GraphsHaveFrames }
{
    blocks_are_few();
}

/// Code that is laid out over maps of these graphs is that of its graphs, over placements that support them.
pub fn mapped_is_selected()
    ensures { MappedIsSelected }
{}
