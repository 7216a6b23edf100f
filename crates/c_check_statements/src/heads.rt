//! What stands before the parts of a statement: its number, and the conditions that are judged outside it.

ghost use Rattle.std.specs.Prelude.{◌≡◌, [], List, Option, map, option_map, IfOk, OnOk};
ghost use Rattle.c_syntax.specs.Declarations.{declaration_of, maybe_expr_of};
ghost use Rattle.c_syntax.specs.Expressions.{expr_of};
ghost use Rattle.c_syntax.specs.Statements.{stmt_of, stmts_of};
ghost use Rattle.c_tree.specs.Erased.{boxed_of, first_of};
ghost use Rattle.c_tree.specs.Program.{
  value_type,
  Declared,
  Expression as Typed,
  First as TypedFirst,
  Item as TypedItem,
};
ghost use Rattle.c_tree.specs.declared.statement.Label.{Label as TypedLabel};
ghost use Rattle.c_typing.specs.Checked.{Checked, Note, fits, if_fits, pair};
ghost use Rattle.c_typing.specs.Expressions.{typed_expression, typed_if_any};
ghost use Rattle.c_typing.specs.Names.{numbered};
ghost use Rattle.c_typing.specs.Rows.{selected};
ghost use Rattle.c_typing.specs.Statements.{
  after_declaration,
  condition,
  condition_if_any,
  first_part,
  given_labels,
  typed_declaration,
  typed_labels,
};
ghost use Rattle.c_typing.specs.Types.{InFor};
ghost use Rattle.c_check_expressions.specs.Said.{IsSaid};
ghost use Rattle.c_check_declarations.specs.InitialValues.{IsTree};
ghost use Rattle.c_check_declarations.specs.ItemAnswers.{AreItems, IsTreeIfAny};
ghost use Rattle.c_check_statements.specs.Labels.{AreLabels};
ghost use Rattle.c_check_statements.specs.Answers.{AreHead, AreSelected, AreStart, IsFirst};

use crate::conditions::{condition, condition_if_any, switch_value, value_if_any};
use crate::labels::switch_labels;
use c_check_declarations::{Position, declaration};
use c_check_expressions::{Judged, Notes, both};
use c_check_names::Scopes;
use c_syntax::{Declaration, Expression, Statement as RawStatement};
use c_tree::{Expression as Tree, First, Item, Label};
use pcc_base::{NoMemory, Span};
use std::alloc::Global;

/// A condition that is judged before what it decides on, with the number of the statement.
#[derive(Drop)]
pub struct TestHead {
    pub number: u32,
    pub test: Judged<Box<Tree>>,
}

/// The condition of a `do`, with the number of the statement and what it says beside its tree.
#[derive(Drop)]
pub struct DoHead {
    pub number: u32,
    pub test: Judged<Box<Tree>>,
    pub notes: Notes,
}

/// The value of a switch and its labels, with the number of the statement.
#[derive(Drop)]
pub struct SwitchHead {
    pub number: u32,
    pub parts: Judged<(Box<Tree>, Vec<Label>)>,
}

/// The first part of a `for`, its test and what follows each turn, with the number of the statement.
#[derive(Drop)]
pub struct ForHead {
    pub number: u32,
    pub parts: Judged<((First, Option<Box<Tree>>), Option<Box<Tree>>)>,
}

// ---- conditions

/// A condition before the statement that it decides on (C99 6.8.4.1 and 6.8.5.1).
pub(crate) fn test_head(
    alloc: Global,
    scopes: &mut Scopes,
    notes: &mut Notes,
    at: Span,
    e: &Expression,
) -> Result<TestHead, NoMemory>
    ensures said { IfOk result (λ h. (h.number ≡ scopes.old.next)
        × IsSaid IsTree (condition scopes.old at (expr_of e.now)) h.test notes.old notes.new) }
    ensures scope { OnOk result (scopes.new ≡ numbered scopes.old) }
{
    let test = condition(alloc, scopes, notes, at, e)?;
    match scopes.take_number() {
        Ok(number) => Ok(TestHead { number, test }),
        Err(refusal) => {
            drop(test);
            Err(refusal)
        }
    }
}

/// The condition of a `do`, which stands behind its body, and is judged before it (C99 6.8.5.2).
pub(crate) fn do_head(
    alloc: Global,
    scopes: &mut Scopes,
    until: Span,
    e: &Expression,
) -> Result<DoHead, NoMemory>
    ensures said { IfOk result (λ h. (h.number ≡ scopes.old.next)
        × IsSaid IsTree (condition scopes.old until (expr_of e.now)) h.test [] h.notes) }
    ensures scope { OnOk result (scopes.new ≡ numbered scopes.old) }
{
    let mut notes = Notes::new(alloc);
    let test = condition(alloc, scopes, &mut notes, until, e)?;
    match scopes.take_number() {
        Ok(number) => Ok(DoHead {
            number,
            test,
            notes,
        }),
        Err(refusal) => {
            drop(test);
            Err(refusal)
        }
    }
}

// ---- the value and labels of a switch

/// The labels behind the value.
fn and_labels(
    alloc: Global,
    scopes: &Scopes,
    notes: &mut Notes,
    value: Judged<Box<Tree>>,
    items: &[RawStatement],
) -> Result<Judged<(Box<Tree>, Vec<Label>)>, NoMemory>
    ensures { IfOk result (λ j. (c : Checked Typed) (before : List Note) → IsSaid IsTree c value before notes.old
        → IsSaid AreSelected
        (pair c (typed_labels [] (given_labels scopes.now 0 (stmts_of (map stmt_of items.now))))) j
        before notes.new) }
{
    match switch_labels(alloc, scopes, notes, items) {
        Ok(labels) => Ok(selected_parts(value, labels)),
        Err(refusal) => {
            drop(value);
            Err(refusal)
        }
    }
}

/// A value and labels.
fn selected_parts(
    value: Judged<Box<Tree>>,
    labels: Judged<Vec<Label>>,
) -> Judged<(Box<Tree>, Vec<Label>)>
    ensures { (c : Checked Typed) (d : Checked (List TypedLabel)) (before between after : List Note)
        → IsSaid IsTree c value before between → IsSaid AreLabels d labels between after
        → IsSaid AreSelected (pair c d) result before after }
{
    both(value, labels)
}

/// The value of a switch and its labels (C99 6.8.4.2).
pub fn switch_head(
    alloc: Global,
    scopes: &mut Scopes,
    notes: &mut Notes,
    at: Span,
    e: &Expression,
    items: &[RawStatement],
) -> Result<SwitchHead, NoMemory>
    ensures said { IfOk result (λ h. (h.number ≡ scopes.old.next) × IsSaid AreSelected
        (pair (if_fits (typed_expression scopes.old (expr_of e.now)) (λ x. selected (value_type x) at x))
        (typed_labels [] (given_labels scopes.old 0 (stmts_of (map stmt_of items.now))))) h.parts
        notes.old notes.new) }
    ensures scope { OnOk result (scopes.new ≡ numbered scopes.old) }
{
    let value = switch_value(alloc, scopes, notes, at, e)?;
    let parts = and_labels(alloc, scopes, notes, value, items)?;
    match scopes.take_number() {
        Ok(number) => Ok(SwitchHead { number, parts }),
        Err(refusal) => {
            drop(parts);
            Err(refusal)
        }
    }
}

// ---- the parts of a `for`

/// The first part of a `for`, an expression that may be absent.
fn first_part(value: Option<Box<Tree>>) -> First
    ensures { first_of result ≡ first_part (option_map boxed_of value) }
{
    match value {
        None => First::Nothing,
        Some(tree) => First::Expression(tree),
    }
}

/// The first part of a `for` that was judged.
fn first(part: Judged<Option<Box<Tree>>>) -> Judged<First>
    ensures { (c : Checked (Option Typed)) (before after : List Note) → IsSaid IsTreeIfAny c part before after
        → IsSaid IsFirst (if_fits c (λ x. fits (first_part x))) result before after }
{
    match part {
        Judged::Fails(fault) => Judged::Fails(fault),
        Judged::Fits(value) => Judged::Fits(first_part(value)),
    }
}

/// The items that a `for` declares.
fn first_items(part: Judged<Vec<Item>>) -> Judged<First>
    ensures { (c : Checked (List TypedItem)) (before after : List Note) → IsSaid AreItems c part before after
        → IsSaid IsFirst (if_fits c (λ items. fits (Declared items))) result before after }
{
    match part {
        Judged::Fails(fault) => Judged::Fails(fault),
        Judged::Fits(items) => Judged::Fits(First::Items(items)),
    }
}

/// A first part and a test.
fn start(
    first: Judged<First>,
    test: Judged<Option<Box<Tree>>>,
) -> Judged<(First, Option<Box<Tree>>)>
    ensures { (a : Checked TypedFirst) (b : Checked (Option Typed)) (before between after : List Note)
        → IsSaid IsFirst a first before between → IsSaid IsTreeIfAny b test between after
        → IsSaid AreStart (pair a b) result before after }
{
    both(first, test)
}

/// The test of a `for` behind its first part.
fn and_test(
    alloc: Global,
    scopes: &Scopes,
    notes: &mut Notes,
    first: Judged<First>,
    at: Span,
    e: &Option<Box<Expression>>,
) -> Result<Judged<(First, Option<Box<Tree>>)>, NoMemory>
    ensures { IfOk result (λ j. (a : Checked TypedFirst) (before : List Note) → IsSaid IsFirst a first before notes.old
        → IsSaid AreStart (pair a (condition_if_any scopes.now at (maybe_expr_of e.now))) j before notes.new) }
{
    match condition_if_any(alloc, scopes, notes, at, e) {
        Ok(test) => Ok(start(first, test)),
        Err(refusal) => {
            drop(first);
            Err(refusal)
        }
    }
}

/// A first part and a test, and what follows each turn.
fn head(
    start: Judged<(First, Option<Box<Tree>>)>,
    step: Judged<Option<Box<Tree>>>,
) -> Judged<((First, Option<Box<Tree>>), Option<Box<Tree>>)>
    ensures { (a : Checked (TypedFirst × Option Typed)) (b : Checked (Option Typed))
        (before between after : List Note)
        → IsSaid AreStart a start before between → IsSaid IsTreeIfAny b step between after
        → IsSaid AreHead (pair a b) result before after }
{
    both(start, step)
}

/// What follows each turn of a `for`, behind its first part and its test.
fn and_step(
    alloc: Global,
    scopes: &Scopes,
    notes: &mut Notes,
    start: Judged<(First, Option<Box<Tree>>)>,
    e: &Option<Box<Expression>>,
) -> Result<Judged<((First, Option<Box<Tree>>), Option<Box<Tree>>)>, NoMemory>
    ensures { IfOk result (λ j. (a : Checked (TypedFirst × Option Typed)) (before : List Note)
        → IsSaid AreStart a start before notes.old
        → IsSaid AreHead (pair a (typed_if_any scopes.now (maybe_expr_of e.now))) j before notes.new) }
{
    match value_if_any(alloc, scopes, notes, e) {
        Ok(step) => Ok(head(start, step)),
        Err(refusal) => {
            drop(start);
            Err(refusal)
        }
    }
}

/// The parts of a `for` before its body, but for the first one (C99 6.8.5.3).
fn behind_first(
    alloc: Global,
    scopes: &Scopes,
    notes: &mut Notes,
    first: Judged<First>,
    at: Span,
    condition: &Option<Box<Expression>>,
    step: &Option<Box<Expression>>,
) -> Result<Judged<((First, Option<Box<Tree>>), Option<Box<Tree>>)>, NoMemory>
    ensures { IfOk result (λ j. (a : Checked TypedFirst) (before : List Note)
        → IsSaid IsFirst a first before notes.old → IsSaid AreHead
        (pair (pair a (condition_if_any scopes.now at (maybe_expr_of condition.now)))
        (typed_if_any scopes.now (maybe_expr_of step.now))) j before notes.new) }
{
    let start = and_test(alloc, scopes, notes, first, at, condition)?;
    and_step(alloc, scopes, notes, start, step)
}

/// The parts of a `for` before its body, where its first part declares nothing (C99 6.8.5.3).
pub fn for_head(
    alloc: Global,
    scopes: &mut Scopes,
    notes: &mut Notes,
    at: Span,
    start: &Option<Box<Expression>>,
    condition: &Option<Box<Expression>>,
    step: &Option<Box<Expression>>,
) -> Result<ForHead, NoMemory>
    ensures said { IfOk result (λ h. (h.number ≡ scopes.old.next) × IsSaid AreHead
        (pair (pair (if_fits (typed_if_any scopes.old (maybe_expr_of start.now)) (λ x. fits (first_part x)))
        (condition_if_any scopes.old at (maybe_expr_of condition.now)))
        (typed_if_any scopes.old (maybe_expr_of step.now))) h.parts notes.old notes.new) }
    ensures scope { OnOk result (scopes.new ≡ numbered scopes.old) }
{
    let value = value_if_any(alloc, scopes, notes, start)?;
    let parts = behind_first(alloc, scopes, notes, first(value), at, condition, step)?;
    match scopes.take_number() {
        Ok(number) => Ok(ForHead { number, parts }),
        Err(refusal) => {
            drop(parts);
            Err(refusal)
        }
    }
}

/// The parts of a `for` before its body, where its first part is a declaration. Its names are seen behind it.
pub(crate) fn declared_head(
    alloc: Global,
    scopes: &mut Scopes,
    notes: &mut Notes,
    at: Span,
    start: &Declaration,
    condition: &Option<Box<Expression>>,
    step: &Option<Box<Expression>>,
) -> Result<Judged<((First, Option<Box<Tree>>), Option<Box<Tree>>)>, NoMemory>
    ensures said { let inside = after_declaration InFor (declaration_of start.now) scopes.old in
        IfOk result (λ j. IsSaid AreHead
        (pair (pair (if_fits (typed_declaration InFor (declaration_of start.now) scopes.old)
        (λ items. fits (Declared items)))
        (condition_if_any inside at (maybe_expr_of condition.now)))
        (typed_if_any inside (maybe_expr_of step.now))) j notes.old notes.new) }
    ensures scope { OnOk result (scopes.new ≡ after_declaration InFor (declaration_of start.now) scopes.old) }
{
    let items = declaration(alloc, scopes, notes, Position::InFor, start)?;
    behind_first(
        alloc,
        scopes,
        notes,
        first_items(items),
        at,
        condition,
        step,
    )
}
