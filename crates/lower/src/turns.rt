//! The start of a loop and its turn, what comes again in it, and a `do` before and behind its body (C99 6.8.5).

ghost use Rattle.std.specs.Prelude.{◌≡◌, ◌+◌, IfOk, OnOk, option_map};
ghost use Rattle.c_tree.specs.Erased.{boxed_of, expression_of};
ghost use Rattle.lower_builder.specs.Built.{Adds};
ghost use Rattle.lower_lines.specs.Expressions.{part_of, test_blocks_of};
ghost use Rattle.lower_lines.specs.Statements.{continue_block, exit_blocks, exit_of};
ghost use Rattle.lower.specs.LoopFronts.{do_end, do_front, loop_front};
ghost use Rattle.lower_builder.specs.Sites.{context_of};
ghost use Rattle.lower_expressions.specs.Views.{after_of};

use c_tree::Expression;
use flow_graph::Op;
use lower_builder::{Lines, Site, Wanted};
use lower_expressions::{After, emit, take_exit};
use pcc_base::NoMemory;

/// Where a loop goes: behind it, and to its start.
#[derive(Clone, Copy)]
pub struct Ends {
    pub exit: u32,
    pub start: u32,
}

/// The start of a loop, where its turn is (C99 6.8.5).
pub(crate) fn start_loop(lines: &mut Lines, after: After) -> Result<Ends, NoMemory>
    ensures exit { IfOk result (λ ends. ends.exit ≡ exit_of lines.old.next (after_of after)) }
    ensures start { IfOk result (λ ends. ends.start ≡ lines.old.next + exit_blocks (after_of after)) }
    ensures adds { IfOk result (λ _. Adds lines.old lines.new (exit_blocks (after_of after) + 1)
        (loop_front (lines.old.next + exit_blocks (after_of after)))) }
{
    let exit = take_exit(lines, after)?;
    let start = lines.take_blocks(1)?;
    lines.emit(Op::Jump(start))?;
    lines.start(start)?;
    lines.emit(Op::Turn)?;
    Ok(Ends { exit, start })
}

/// Where `continue` goes: to what comes after the body, and where nothing does, to the start.
pub fn again(step: &Option<Box<Expression>>, start: u32, named: u32) -> u32
    ensures { result ≡ continue_block (option_map boxed_of step.now) start named }
{
    match step {
        None => start,
        Some(_) => named,
    }
}

/// A `do` up to its body (C99 6.8.5.2): its start, behind which is the block of its test.
pub(crate) fn open_do(lines: &mut Lines, n: u32, after: After) -> Result<Ends, NoMemory>
    ensures exit { IfOk result (λ ends. ends.exit ≡ exit_of lines.old.next (after_of after)) }
    ensures start { IfOk result (λ ends. ends.start ≡ lines.old.next + exit_blocks (after_of after)) }
    ensures adds { IfOk result (λ _. Adds lines.old lines.new (exit_blocks (after_of after) + 2)
        (do_front n (lines.old.next + exit_blocks (after_of after)))) }
{
    lines.emit(Op::Mark(n))?;
    let ends = start_loop(lines, after)?;
    lines.take_blocks(1)?;
    Ok(ends)
}

/// The test of a `do`, behind its body.
pub(crate) fn close_do(
    lines: &mut Lines,
    site: &Site<'_>,
    e: &Expression,
    test: u32,
    ends: Ends,
) -> Result<(), NoMemory>
    ensures { OnOk result (Adds lines.old lines.new
        (test_blocks_of (part_of (context_of site.now) (expression_of e.now)))
        (do_end (part_of (context_of site.now) (expression_of e.now)) test ends.start ends.exit lines.old.next)) }
{
    lines.start(test)?;
    emit(lines, site, 0, Wanted::Tests(ends.start, ends.exit), e)
}
