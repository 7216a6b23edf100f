//! Functions. Some blocks are named before it is known which ones they are, so the lines are made twice.

ghost use Rattle.std.specs.Prelude.{◌≡◌, ◌∷◌, ◌++◌, IfOk, OnOk, take};
ghost use Rattle.flow_graph.specs.declared.op.Op.TheVariants as op;
ghost use Rattle.lower.specs.Walks.{AddsIf};
ghost use Rattle.lower_lines.specs.Lines.{Emit, Start};
ghost use Rattle.lower_lines.specs.Programs.{blocks_of_function, body_run, lines_of_function, no_exits};
ghost use Rattle.lower_lines.specs.Programs.{parameters_lines};
ghost use Rattle.lower_lines.specs.Statements.{Leaves};
ghost use Rattle.lower_builder.specs.Sites.{context_of};

use crate::walk::sequence;
use flow_graph::Op;
use lower_builder::{Lines, Site};
use lower_expressions::{After, Ahead, Exits, take_parameters};
use pcc_base::NoMemory;

/// The start of a call, and the body.
fn add_function(lines: &mut Lines, ahead: &mut Ahead, site: &Site<'_>) -> Result<(), NoMemory>
    ensures { OnOk result (AddsIf ahead.old ahead.new lines.old lines.new
        ((body_run (context_of site.now)).blocks Leaves)
        (Start 0 ∷ Emit op.Turn ∷ (parameters_lines (context_of site.now)
        (take (context_of site.now).function.parameters (context_of site.now).function.locals) 0 0
        ++ (body_run (context_of site.now)).lines no_exits lines.old.next Leaves))) }
{
    lines.start(0)?;
    lines.emit(Op::Turn)?;
    take_parameters(lines, site)?;
    let none = Exits {
        breaks: 0,
        continues: 0,
    };
    sequence(
        lines,
        ahead,
        site,
        &[],
        site.function.body.as_slice(),
        none,
        After::Leaves,
    )?;
    Ok(())
}

/// The lines of a function, and the number of its blocks, which is the next that would be taken.
pub fn function(site: &Site<'_>) -> Result<Lines, NoMemory>
    ensures lines { IfOk result (λ lines. lines.lines ≡ lines_of_function (context_of site.now)) }
    ensures blocks { IfOk result (λ lines. lines.next ≡ blocks_of_function (context_of site.now)) }
{
    let mut ahead = Ahead::new(site.alloc);
    let mut first = Lines::new(site.alloc, 1);
    add_function(&mut first, &mut ahead, site)?;
    ahead.again();
    let mut lines = Lines::new(site.alloc, 1);
    add_function(&mut lines, &mut ahead, site)?;
    if ahead.is_right() {
        return Ok(lines);
    }
    // No caller meets this: both looks make the same lines, so the numbers of blocks agree.
    Err(NoMemory)
}
