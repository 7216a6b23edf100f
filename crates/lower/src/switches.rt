//! `switch` (C99 6.8.4.2): the blocks of labelled statements, and the comparisons.

ghost use Rattle.std.specs.Prelude.{◌≡◌, ◌+◌, ◌<◌, ◌∷◌, [], ℕ, length, IfOk, OnOk};
ghost use Rattle.c_tree.specs.Erased.{expression_of};
ghost use Rattle.flow_graph.specs.declared.op.Comparison.TheVariants.{Eq};
ghost use Rattle.flow_graph.specs.declared.op.Op.TheVariants as op;
ghost use Rattle.lower_builder.specs.Built.{Adds};
ghost use Rattle.lower.specs.Walks.{has_start, switch_blocks, switch_front};
ghost use Rattle.lower.specs.StartedBlocks.{starts_at};
ghost use Rattle.lower_lines.specs.Expressions.{part_of};
ghost use Rattle.lower_lines.specs.Lines.{Emit};
ghost use Rattle.lower_lines.specs.Statements.{comparing, comparing_blocks, exit_blocks, exit_of, labelled_from};
ghost use Rattle.lower_lines.specs.Statements.{opening, opening_blocks};
ghost use Rattle.lower_lines.specs.Variables.{ForScratch, temporary};
ghost use Rattle.lower_builder.specs.Sites.{context_of};
ghost use Rattle.lower_expressions.specs.Views.{after_of};

use crate::labels::{cases_of, otherwise_of, starts_of};
use c_tree::{Expression, Label};
use flow_graph::{Comparison, Op};
use lower_builder::{Lines, Site, plus};
use lower_expressions::{After, stood, take_exit};
use pcc_base::NoMemory;

/// How many blocks the comparisons with cases take: each but the last has one behind it.
fn behind(cases: &[(i32, u32)]) -> Result<u32, NoMemory>
    ensures { IfOk result (λ blocks. blocks ≡ comparing_blocks cases.now) }
{
    if cases.is_empty() {
        return Ok(0);
    }
    // This number is never refused: each case has tokens of its own.
    let blocks = u32::try_from(cases.len() - 1).map_err(|_| NoMemory)?;
    Ok(blocks)
}

/// A value is compared with a case.
fn compare_one(
    lines: &mut Lines,
    site: &Site<'_>,
    x: u32,
    case: (i32, u32),
    fails: u32,
) -> Result<(), NoMemory>
    ensures { OnOk result (Adds lines.old lines.new 0
        (Emit (op.Const (temporary (context_of site.now) 0 ForScratch) case.0)
        ∷ Emit (op.Branch Eq x (temporary (context_of site.now) 0 ForScratch) case.1 fails) ∷ [])) }
{
    let scratch = site.scratch(0)?;
    lines.emit(Op::Const(scratch, case.0))?;
    lines.emit(Op::Branch(Comparison::Eq, x, scratch, case.1, fails))?;
    Ok(())
}

/// A value is compared with each of some cases in order, of which there is one.
fn compare_some(
    lines: &mut Lines,
    site: &Site<'_>,
    x: u32,
    otherwise: u32,
    cases: &[(i32, u32)],
    first: u32,
) -> Result<(), NoMemory>
    requires { 0 < length cases.now }
    ensures { OnOk result (Adds lines.old lines.new 0
        (comparing (context_of site.now) x otherwise cases.now first)) }
{
    let mut place = 0;
    let mut block = first;
    'cases: while place < cases.len() - 1 {
        compare_one(lines, site, x, cases[place], block)?;
        lines.start(block)?;
        block = plus(block, 1)?;
        place += 1;
    }
    compare_one(lines, site, x, cases[place], otherwise)?;
    Ok(())
}

/// A value is compared with each case in order.
fn compare(
    lines: &mut Lines,
    site: &Site<'_>,
    x: u32,
    otherwise: u32,
    cases: &[(i32, u32)],
    first: u32,
) -> Result<(), NoMemory>
    ensures { OnOk result (Adds lines.old lines.new 0
        (comparing (context_of site.now) x otherwise cases.now first)) }
{
    if cases.is_empty() {
        return lines.emit(Op::Jump(otherwise));
    }
    compare_some(lines, site, x, otherwise, cases, first)
}

/// The block behind a switch, and those that its statements start.
#[derive(Drop)]
pub(crate) struct Ways {
    pub exit: u32,
    pub starts: Vec<Option<u32>>,
}

/// A switch up to its body, which has so many statements.
pub(crate) fn open_switch(
    lines: &mut Lines,
    site: &Site<'_>,
    n: u32,
    e: &Expression,
    labels: &[Label],
    statements: usize,
    after: After,
) -> Result<Ways, NoMemory>
    ensures exit { IfOk result (λ ways. ways.exit ≡ exit_of lines.old.next (after_of after)) }
    ensures starts { IfOk result (λ ways. (place : ℕ) → place < statements → starts_at ways.starts.items place
        ≡ labelled_from (lines.old.next + exit_blocks (after_of after)) labels.now place) }
    ensures adds { IfOk result (λ _. Adds lines.old lines.new
        (switch_blocks (context_of site.now) (part_of (context_of site.now) (expression_of e.now)) labels.now
        statements (after_of after))
        (switch_front (context_of site.now) n (part_of (context_of site.now) (expression_of e.now)) labels.now
        statements lines.old.next (after_of after))) }
{
    lines.emit(Op::Mark(n))?;
    let exit = take_exit(lines, after)?;
    let first = lines.next();
    let starts = starts_of(site.alloc, first, labels, statements)?;
    lines.take_blocks(starts.count)?;
    let otherwise = otherwise_of(exit, first, starts.blocks.as_slice(), labels)?;
    let cases = cases_of(site.alloc, first, starts.blocks.as_slice(), labels)?;
    let tests = lines.take_blocks(behind(cases.as_slice())?)?;
    let x = stood(lines, site, 0, true, e)?;
    compare(lines, site, x.number, otherwise, cases.as_slice(), tests)?;
    Ok(Ways {
        exit,
        starts: starts.blocks,
    })
}

/// A first statement without a label stands in a block that nothing leads to.
pub(crate) fn open_body(lines: &mut Lines, starts: &[Option<u32>]) -> Result<(), NoMemory>
    ensures { OnOk result (Adds lines.old lines.new (opening_blocks (has_start (starts_at starts.now 0)))
        (opening (has_start (starts_at starts.now 0)) lines.old.next)) }
{
    match starts.first().copied().flatten() {
        Some(_) => Ok(()),
        None => {
            let block = lines.take_blocks(1)?;
            lines.start(block)
        }
    }
}
