//! Where control goes behind a statement (C99 6.8).

ghost use Rattle.std.specs.Prelude.{◌≡◌, ◌+◌, IfOk, OnOk};
ghost use Rattle.lower_builder.specs.Built.{Adds};
ghost use Rattle.lower_lines.specs.Statements.{dead, dead_blocks, exit_blocks, exit_lines, exit_of, leaving, onward};
ghost use Rattle.lower_builder.specs.Sites.{context_of};
ghost use Rattle.lower_expressions.specs.Views.{after_of};

use crate::after::After;
use c_tree::ValueType;
use flow_graph::Op;
use lower_builder::{Lines, Site};
use pcc_base::NoMemory;

/// A function that falls off its end, or returns no value, gives 0 (C99 6.9.1p12).
pub fn leave(lines: &mut Lines, site: &Site<'_>) -> Result<(), NoMemory>
    ensures { OnOk result (Adds lines.old lines.new 0 (leaving (context_of site.now))) }
{
    match site.function.result {
        ValueType::Void => lines.emit(Op::Return(None)),
        ValueType::Integer(_) => {
            let zero = site.number(0)?;
            lines.emit(Op::Const(zero, 0))?;
            lines.emit(Op::Return(Some(zero)))
        }
        ValueType::Pointer(_) => {
            let zero = site.number(0)?;
            lines.emit(Op::Const(zero, 0))?;
            lines.emit(Op::Return(Some(zero)))
        }
    }
}

/// What follows lines after which a block is open.
pub fn go_onward(lines: &mut Lines, site: &Site<'_>, after: After) -> Result<(), NoMemory>
    ensures { OnOk result (Adds lines.old lines.new 0 (onward (context_of site.now) (after_of after))) }
{
    match after {
        After::Here => Ok(()),
        After::To(block) => lines.emit(Op::Jump(block)),
        After::Leaves => leave(lines, site),
    }
}

/// The block behind an end that nothing leads to, where control stays.
pub fn take_dead(lines: &mut Lines, after: After) -> Result<u32, NoMemory>
    ensures block { IfOk result (λ block. block ≡ lines.old.next) }
    ensures lines { IfOk result (λ _. lines.new.lines ≡ lines.old.lines) }
    ensures next { IfOk result (λ _. lines.new.next ≡ lines.old.next + dead_blocks (after_of after)) }
{
    match after {
        After::Here => lines.take_blocks(1),
        After::To(_) => lines.take_blocks(0),
        After::Leaves => lines.take_blocks(0),
    }
}

/// What follows an end: where control stays, a block is open that nothing leads to.
pub fn start_dead(lines: &mut Lines, block: u32, after: After) -> Result<(), NoMemory>
    ensures { OnOk result (Adds lines.old lines.new 0 (dead block (after_of after))) }
{
    match after {
        After::Here => lines.start(block),
        After::To(_) => Ok(()),
        After::Leaves => Ok(()),
    }
}

/// The block behind a statement to which several ways lead: one of its own, where none is named already.
pub fn take_exit(lines: &mut Lines, after: After) -> Result<u32, NoMemory>
    ensures block { IfOk result (λ block. block ≡ exit_of lines.old.next (after_of after)) }
    ensures lines { IfOk result (λ _. lines.new.lines ≡ lines.old.lines) }
    ensures next { IfOk result (λ _. lines.new.next ≡ lines.old.next + exit_blocks (after_of after)) }
{
    match after {
        After::Here => lines.take_blocks(1),
        After::To(block) => {
            lines.take_blocks(0)?;
            Ok(block)
        }
        After::Leaves => lines.take_blocks(1),
    }
}

/// The start of that block, and what follows it.
pub fn start_exit(
    lines: &mut Lines,
    site: &Site<'_>,
    exit: u32,
    after: After,
) -> Result<(), NoMemory>
    ensures { OnOk result (Adds lines.old lines.new 0 (exit_lines (context_of site.now) exit (after_of after))) }
{
    match after {
        After::Here => lines.start(exit),
        After::To(_) => Ok(()),
        After::Leaves => {
            lines.start(exit)?;
            leave(lines, site)
        }
    }
}
