//! What stands in a statement beside other statements (C99 6.8).

ghost use Rattle.std.specs.Prelude.{◌≡◌, ◌+◌, ◌∷◌, [], suc, IfOk, OnOk, option_map, true, Some};
ghost use Rattle.c_tree.specs.Erased.{boxed_of, expression_of, first_of, statement_of, statements_of};
ghost use Rattle.flow_graph.specs.declared.op.Op.TheVariants as op;
ghost use Rattle.lower_builder.specs.Built.{Adds};
ghost use Rattle.lower.specs.StatementFronts.{for_front, if_front, returned_whole, while_front};
ghost use Rattle.lower_lines.specs.Expressions.{part_of, test_blocks_of};
ghost use Rattle.lower_lines.specs.Lines.{Emit, Start};
ghost use Rattle.lower_lines.specs.Statements.{after_blocks, after_lines, continue_block, dead, dead_blocks};
ghost use Rattle.lower_lines.specs.Statements.{dropped_blocks, dropped_lines, exit_blocks, exit_of, first_blocks};
ghost use Rattle.lower_lines.specs.Statements.{returned_blocks, returned_lines, is_empty, run_of, runs_of};
ghost use Rattle.lower_lines.specs.Statements.{test_blocks_if_any};
ghost use Rattle.lower_lines.specs.Statements.{test_if_any};
ghost use Rattle.lower_lines.specs.Variables.{Context};
ghost use Rattle.lower_builder.specs.Sites.{context_of};
ghost use Rattle.lower_expressions.specs.Views.{after_of};

use crate::items::first_part;
use crate::turns::{Ends, start_loop};
use c_tree::{Expression, First, Statement};
use flow_graph::Op;
use lower_builder::{Lines, Site, Wanted};
use lower_expressions::{After, Ahead, emit, returned, start_dead, take_dead, take_exit};
use pcc_base::NoMemory;

/// Whether there are no statements.
fn are_none(body: &[Statement]) -> bool
    ensures { (c : Context) → result ≡ is_empty (runs_of c (statements_of body.now)) }
{
    match body.split_first() {
        None => true,
        Some(_) => false,
    }
}

/// Whether a statement is a block without statements.
pub(crate) fn is_nothing(s: &Statement) -> bool
    ensures { (c : Context) → result ≡ (run_of c (statement_of s.now)).nothing }
{
    match s {
        Statement::Block(body) => are_none(body.as_slice()),
        _ => false,
    }
}

/// An expression statement (C99 6.8.3).
pub fn evaluated(lines: &mut Lines, site: &Site<'_>, n: u32, e: &Expression) -> Result<(), NoMemory>
    ensures { OnOk result (Adds lines.old lines.new (dropped_blocks (context_of site.now) (expression_of e.now))
        (Emit (op.Mark n) ∷ dropped_lines (context_of site.now) (expression_of e.now) lines.old.next)) }
{
    lines.emit(Op::Mark(n))?;
    emit(lines, site, 0, Wanted::Dropped, e)
}

/// `break` or `continue` (C99 6.8.6).
pub fn go(lines: &mut Lines, n: u32, to: u32, after: After) -> Result<(), NoMemory>
    ensures { OnOk result (Adds lines.old lines.new (dead_blocks (after_of after))
        (Emit (op.Mark n) ∷ Emit (op.Jump to) ∷ dead lines.old.next (after_of after))) }
{
    let dead = take_dead(lines, after)?;
    lines.emit(Op::Mark(n))?;
    lines.emit(Op::Jump(to))?;
    start_dead(lines, dead, after)
}

/// The value that a function returns, and the return.
fn give(lines: &mut Lines, site: &Site<'_>, value: &Option<Box<Expression>>) -> Result<(), NoMemory>
    ensures { OnOk result (Adds lines.old lines.new
        (returned_blocks (context_of site.now) (option_map boxed_of value.now))
        (returned_lines (context_of site.now) (option_map boxed_of value.now) lines.old.next)) }
{
    match value {
        None => lines.emit(Op::Return(None)),
        Some(e) => {
            let x = returned(lines, site, site.function.result, e)?;
            lines.emit(Op::Return(Some(x)))
        }
    }
}

/// `return` (C99 6.8.6.4).
pub fn return_value(
    lines: &mut Lines,
    site: &Site<'_>,
    n: u32,
    value: &Option<Box<Expression>>,
    after: After,
) -> Result<(), NoMemory>
    ensures { OnOk result (Adds lines.old lines.new
        (returned_blocks (context_of site.now) (option_map boxed_of value.now) + dead_blocks (after_of after))
        (returned_whole (context_of site.now) n (option_map boxed_of value.now) lines.old.next
        (after_of after))) }
{
    let dead = take_dead(lines, after)?;
    lines.emit(Op::Mark(n))?;
    give(lines, site, value)?;
    start_dead(lines, dead, after)
}

/// An `if` up to the start of its first way (C99 6.8.4.1): the block behind the statement. `second` is that of the
/// second way, if something is on it.
pub(crate) fn open_if(
    lines: &mut Lines,
    site: &Site<'_>,
    n: u32,
    e: &Expression,
    nothing: bool,
    second: u32,
    after: After,
) -> Result<u32, NoMemory>
    ensures exit { IfOk result (λ exit. exit ≡ exit_of lines.old.next (after_of after)) }
    ensures adds { IfOk result (λ _. Adds lines.old lines.new
        (exit_blocks (after_of after) + suc (test_blocks_of (part_of (context_of site.now) (expression_of e.now))))
        (if_front n (part_of (context_of site.now) (expression_of e.now)) nothing second lines.old.next
        (after_of after))) }
{
    lines.emit(Op::Mark(n))?;
    let exit = take_exit(lines, after)?;
    let first = lines.take_blocks(1)?;
    let fails = if nothing { exit } else { second };
    emit(lines, site, 0, Wanted::Tests(first, fails), e)?;
    lines.start(first)?;
    Ok(exit)
}

/// The start of the second way of an `if`, which was named ahead.
pub(crate) fn start_second(
    lines: &mut Lines,
    ahead: &mut Ahead,
    place: usize,
    named: u32,
) -> Result<(), NoMemory>
    ensures named { OnOk result (ahead.new ≡ true → (ahead.old ≡ true) × (named ≡ lines.old.next)) }
    ensures adds { OnOk result (Adds lines.old lines.new 1 (Start lines.old.next ∷ [])) }
{
    let second = lines.take_blocks(1)?;
    ahead.settle(place, named, second);
    lines.start(second)
}

/// The test of a loop, before its body.
fn test(lines: &mut Lines, site: &Site<'_>, e: &Expression, exit: u32) -> Result<(), NoMemory>
    ensures { OnOk result (Adds lines.old lines.new
        (test_blocks_if_any (context_of site.now) (Some (expression_of e.now)))
        (test_if_any (context_of site.now) (Some (expression_of e.now)) (lines.old.next + 1) lines.old.next exit)) }
{
    let body = lines.take_blocks(1)?;
    emit(lines, site, 0, Wanted::Tests(body, exit), e)?;
    lines.start(body)
}

/// The test of a loop, if it has one.
fn test_if_any(
    lines: &mut Lines,
    site: &Site<'_>,
    e: &Option<Box<Expression>>,
    exit: u32,
) -> Result<(), NoMemory>
    ensures { OnOk result (Adds lines.old lines.new
        (test_blocks_if_any (context_of site.now) (option_map boxed_of e.now))
        (test_if_any (context_of site.now) (option_map boxed_of e.now) (lines.old.next + 1) lines.old.next
        exit)) }
{
    match e {
        None => Ok(()),
        Some(e) => test(lines, site, e, exit),
    }
}

/// A `while` up to its body.
pub(crate) fn open_while(
    lines: &mut Lines,
    site: &Site<'_>,
    n: u32,
    e: &Expression,
    after: After,
) -> Result<Ends, NoMemory>
    ensures exit { IfOk result (λ ends. ends.exit ≡ exit_of lines.old.next (after_of after)) }
    ensures start { IfOk result (λ ends. ends.start ≡ lines.old.next + exit_blocks (after_of after)) }
    ensures adds { IfOk result (λ _. Adds lines.old lines.new
        (exit_blocks (after_of after)
        + suc (test_blocks_if_any (context_of site.now) (Some (expression_of e.now))))
        (while_front (context_of site.now) n (Some (expression_of e.now)) lines.old.next (after_of after))) }
{
    lines.emit(Op::Mark(n))?;
    let ends = start_loop(lines, after)?;
    test(lines, site, e, ends.exit)?;
    Ok(ends)
}

/// A `for` up to its body (C99 6.8.5.3).
pub(crate) fn open_for(
    lines: &mut Lines,
    site: &Site<'_>,
    n: u32,
    first: &First,
    e: &Option<Box<Expression>>,
    after: After,
) -> Result<Ends, NoMemory>
    ensures exit { IfOk result (λ ends. ends.exit
        ≡ exit_of (lines.old.next + first_blocks (context_of site.now) (first_of first.now)) (after_of after)) }
    ensures start { IfOk result (λ ends. ends.start
        ≡ lines.old.next + first_blocks (context_of site.now) (first_of first.now)
        + exit_blocks (after_of after)) }
    ensures adds { IfOk result (λ _. Adds lines.old lines.new
        (first_blocks (context_of site.now) (first_of first.now) + (exit_blocks (after_of after)
        + suc (test_blocks_if_any (context_of site.now) (option_map boxed_of e.now))))
        (for_front (context_of site.now) n (first_of first.now) (option_map boxed_of e.now) lines.old.next
        (after_of after))) }
{
    lines.emit(Op::Mark(n))?;
    first_part(lines, site, first)?;
    let ends = start_loop(lines, after)?;
    test_if_any(lines, site, e, ends.exit)?;
    Ok(ends)
}

/// What comes after the body of a `for`, which was named ahead, if anything does.
pub(crate) fn close_for(
    lines: &mut Lines,
    ahead: &mut Ahead,
    site: &Site<'_>,
    step: &Option<Box<Expression>>,
    start: u32,
    place: usize,
    named: u32,
) -> Result<(), NoMemory>
    ensures named { OnOk result (ahead.new ≡ true → (ahead.old ≡ true)
        × (continue_block (option_map boxed_of step.now) start named
        ≡ continue_block (option_map boxed_of step.now) start lines.old.next)) }
    ensures adds { OnOk result (Adds lines.old lines.new
        (after_blocks (context_of site.now) (option_map boxed_of step.now))
        (after_lines (context_of site.now) (option_map boxed_of step.now) start lines.old.next)) }
{
    match step {
        None => Ok(()),
        Some(e) => {
            let block = lines.take_blocks(1)?;
            ahead.settle(place, named, block);
            lines.start(block)?;
            emit(lines, site, 0, Wanted::Dropped, e)?;
            lines.emit(Op::Jump(start))
        }
    }
}
