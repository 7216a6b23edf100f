//! Statements without statements inside (C99 6.8.3 and 6.8.6).

ghost use Rattle.std.specs.Prelude.{◌≡◌, List, Option, IfOk, OnOk};
ghost use Rattle.c_syntax.specs.Declarations.{maybe_expr_of};
ghost use Rattle.c_syntax.specs.Expressions.{expr_of};
ghost use Rattle.c_tree.specs.Erased.{statement_of};
ghost use Rattle.c_tree.specs.Program as tree;
ghost use Rattle.c_tree.specs.Program.{Expression as Typed};
ghost use Rattle.c_typing.specs.Checked.{Checked, Note, fits, if_fits};
ghost use Rattle.c_typing.specs.Expressions.{typed_expression, typed_if_any};
ghost use Rattle.c_typing.specs.Names.{numbered};
ghost use Rattle.c_typing.specs.Statements.{jump, one, returned};
ghost use Rattle.c_check_expressions.specs.Said.{IsSaid};
ghost use Rattle.c_check_declarations.specs.InitialValues.{IsTree};
ghost use Rattle.c_check_declarations.specs.ItemAnswers.{IsTreeIfAny};
ghost use Rattle.c_check_statements.specs.Answers.{AreListed};

use crate::conditions::{returned, value};
use crate::parts::one;
use c_check_expressions::{Judged, Notes};
use c_check_names::Scopes;
use c_syntax::Expression;
use c_tree::{Expression as Tree, Statement, ValueType};
use pcc_base::{Fault, FaultKind, NoMemory, Span};
use std::alloc::Global;

/// An empty statement (C99 6.8.3).
pub(crate) fn empty_statement(
    alloc: Global,
    scopes: &mut Scopes,
) -> Result<Judged<Vec<Statement>>, NoMemory>
    ensures said { IfOk result (λ j. (notes : List Note)
        → IsSaid AreListed (one (fits (tree.Empty scopes.old.next))) j notes notes) }
    ensures scope { OnOk result (scopes.new ≡ numbered scopes.old) }
{
    let number = scopes.take_number()?;
    one(alloc, Statement::Empty(number))
}

/// A statement that evaluates what was judged.
fn evaluation(
    alloc: Global,
    number: u32,
    value: Judged<Box<Tree>>,
) -> Result<Judged<Vec<Statement>>, NoMemory>
    ensures { IfOk result (λ j. (c : Checked Typed) (before after : List Note) → IsSaid IsTree c value before after
        → IsSaid AreListed (one (if_fits c (λ x. fits (tree.Evaluate number x)))) j before after) }
{
    match value {
        Judged::Fails(fault) => Ok(Judged::Fails(fault)),
        Judged::Fits(value) => one(alloc, Statement::Expression(number, value)),
    }
}

/// An expression that is a statement (C99 6.8.3).
pub fn evaluated(
    alloc: Global,
    scopes: &mut Scopes,
    notes: &mut Notes,
    e: &Expression,
) -> Result<Judged<Vec<Statement>>, NoMemory>
    ensures said { IfOk result (λ j. IsSaid AreListed (one (if_fits (typed_expression scopes.old (expr_of e.now))
        (λ x. fits (tree.Evaluate scopes.old.next x)))) j notes.old notes.new) }
    ensures scope { OnOk result (scopes.new ≡ numbered scopes.old) }
{
    let value = value(alloc, scopes, notes, e)?;
    match scopes.take_number() {
        Ok(number) => evaluation(alloc, number, value),
        Err(refusal) => {
            drop(value);
            Err(refusal)
        }
    }
}

/// A jump, where it may stand (C99 6.8.6.2p1 and 6.8.6.3p1).
fn jump(
    alloc: Global,
    may: bool,
    at: Span,
    statement: Statement,
) -> Result<Judged<Vec<Statement>>, NoMemory>
    ensures { IfOk result (λ j. (notes : List Note)
        → IsSaid AreListed (one (jump may at (statement_of statement))) j notes notes) }
{
    if may {
        return one(alloc, statement);
    }
    drop(statement);
    Ok(Judged::Fails(Fault {
        kind: FaultKind::Jump,
        at,
    }))
}

/// `break;`, where it may stand (C99 6.8.6.3).
pub(crate) fn break_statement(
    alloc: Global,
    scopes: &mut Scopes,
    may: bool,
    at: Span,
) -> Result<Judged<Vec<Statement>>, NoMemory>
    ensures said { IfOk result (λ j. (notes : List Note)
        → IsSaid AreListed (one (jump may at (tree.Break scopes.old.next))) j notes notes) }
    ensures scope { OnOk result (scopes.new ≡ numbered scopes.old) }
{
    let number = scopes.take_number()?;
    jump(alloc, may, at, Statement::Break(number))
}

/// `continue;`, where it may stand (C99 6.8.6.2).
pub(crate) fn continue_statement(
    alloc: Global,
    scopes: &mut Scopes,
    may: bool,
    at: Span,
) -> Result<Judged<Vec<Statement>>, NoMemory>
    ensures said { IfOk result (λ j. (notes : List Note)
        → IsSaid AreListed (one (jump may at (tree.Continue scopes.old.next))) j notes notes) }
    ensures scope { OnOk result (scopes.new ≡ numbered scopes.old) }
{
    let number = scopes.take_number()?;
    jump(alloc, may, at, Statement::Continue(number))
}

/// A statement that returns what was judged.
fn returning(
    alloc: Global,
    number: u32,
    value: Judged<Option<Box<Tree>>>,
) -> Result<Judged<Vec<Statement>>, NoMemory>
    ensures { IfOk result (λ j. (c : Checked (Option Typed)) (before after : List Note)
        → IsSaid IsTreeIfAny c value before after
        → IsSaid AreListed (one (if_fits c (λ y. fits (tree.Return number y)))) j before after) }
{
    match value {
        Judged::Fails(fault) => Ok(Judged::Fails(fault)),
        Judged::Fits(value) => one(alloc, Statement::Return(number, value)),
    }
}

/// `return`, in a function whose result is of this type (C99 6.8.6.4).
pub(crate) fn return_statement(
    alloc: Global,
    scopes: &mut Scopes,
    notes: &mut Notes,
    of: ValueType,
    at: Span,
    e: &Option<Box<Expression>>,
) -> Result<Judged<Vec<Statement>>, NoMemory>
    ensures said { IfOk result (λ j. IsSaid AreListed (one
        (if_fits (typed_if_any scopes.old (maybe_expr_of e.now)) (λ x. if_fits (returned of at x) (λ y.
        fits (tree.Return scopes.old.next y))))) j notes.old notes.new) }
    ensures scope { OnOk result (scopes.new ≡ numbered scopes.old) }
{
    let value = returned(alloc, scopes, notes, of, at, e)?;
    match scopes.take_number() {
        Ok(number) => returning(alloc, number, value),
        Err(refusal) => {
            drop(value);
            Err(refusal)
        }
    }
}
