//! The walk over raw statements, which judges each part once.

ghost use Rattle.std.specs.Prelude.{◌≡◌, [], List, Option, map, IfOk, OnOk};
ghost use Rattle.c_syntax.specs.Statements.{stmt_of, stmts_of};
ghost use Rattle.c_tree.specs.Program as tree;
ghost use Rattle.c_tree.specs.Program.{
  Done,
  Expression as Typed,
  First as TypedFirst,
  Statement as TypedStatement,
};
ghost use Rattle.c_tree.specs.declared.statement.Label.{Label as TypedLabel};
ghost use Rattle.c_typing.specs.Checked.{Checked, Note, both, fits, pair, three};
ghost use Rattle.c_typing.specs.Names.{entered, left};
ghost use Rattle.c_typing.specs.Statements.{
  after_statement,
  after_statements,
  alone,
  for_loop,
  one,
  typed_statement,
  typed_statements,
};
ghost use Rattle.c_check_expressions.specs.Said.{IsSaid};
ghost use Rattle.c_check_declarations.specs.InitialValues.{IsTree};
ghost use Rattle.c_check_statements.specs.Answers.{AreHead, AreListed, AreSelected, AreStatements, AreTested};
ghost use Rattle.c_check_statements.specs.Together.{joined};
ghost use Rattle.c_check_statements.specs.Views.{around_of};

use crate::around::Around;
use crate::heads::{
    DoHead, ForHead, SwitchHead, TestHead, declared_head, do_head, for_head, switch_head, test_head,
};
use crate::jumps::{
    break_statement, continue_statement, empty_statement, evaluated, return_statement,
};
use crate::nodes::{
    Branch, block, do_loop, first_branch, for_loop, if_else, if_only, switch, while_loop,
};
use crate::parts::{declared, joined};
use c_check_declarations::{Position, declaration};
use c_check_expressions::{Judged, Notes};
use c_check_names::Scopes;
use c_syntax::{Declaration, Expression, Statement as RawStatement};
use c_tree::Statement;
use pcc_base::{NoMemory, Span};
use std::alloc::Global;

/// The statements that a statement, or a declaration in a block, is.
#[cycle(statement)]
pub(crate) fn statement(
    alloc: Global,
    around: Around,
    scopes: &mut Scopes,
    notes: &mut Notes,
    st: &RawStatement,
) -> Result<Judged<Vec<Statement>>, NoMemory>
    ensures said { IfOk result (λ j. IsSaid AreListed
        (typed_statement (around_of around) (stmt_of st.now) scopes.old) j notes.old notes.new) }
    ensures scope { OnOk result (scopes.new ≡ after_statement (stmt_of st.now) scopes.old) }
{
    match st {
        RawStatement::Declaration(d) => {
            let items = declaration(alloc, scopes, notes, Position::InBlock, d)?;
            declared(alloc, items)
        }
        RawStatement::Labelled(_, inner) => statement(alloc, around, scopes, notes, inner),
        RawStatement::Block(_, items, _) => {
            let body = within(alloc, around, scopes, notes, items.as_slice())?;
            block(alloc, body)
        }
        RawStatement::Simple(None, _) => empty_statement(alloc, scopes),
        RawStatement::Simple(Some(e), _) => evaluated(alloc, scopes, notes, e),
        RawStatement::If {
            at,
            condition,
            then,
            ..
        } => {
            let head = test_head(alloc, scopes, notes, *at, condition)?;
            if_behind(alloc, around, scopes, notes, head, then)
        }
        RawStatement::IfElse(parts, then, other) => {
            let head = test_head(alloc, scopes, notes, parts.at, &parts.condition)?;
            let front = branch_behind(alloc, around, scopes, notes, head, then)?;
            else_behind(alloc, around, scopes, notes, front, other)
        }
        RawStatement::Switch(parts, items) => {
            let list = items.as_slice();
            let head = switch_head(alloc, scopes, notes, parts.at, &parts.value, list)?;
            switch_behind(alloc, around.in_switch(), scopes, notes, head, list)
        }
        RawStatement::While {
            at,
            condition,
            body,
            ..
        } => {
            let head = test_head(alloc, scopes, notes, *at, condition)?;
            while_behind(alloc, around.in_loop(), scopes, notes, head, body)
        }
        RawStatement::Do(parts, body) => {
            let head = do_head(alloc, scopes, parts.until, &parts.condition)?;
            do_before(alloc, around.in_loop(), scopes, notes, head, body)
        }
        RawStatement::For(parts, body) => {
            let head = for_head(
                alloc,
                scopes,
                notes,
                parts.at,
                &parts.start,
                &parts.condition,
                &parts.step,
            )?;
            for_behind(alloc, around.in_loop(), scopes, notes, head, body)
        }
        RawStatement::ForDeclaration(parts, body) => {
            let number = scopes.take_number()?;
            let mark = scopes.enter()?;
            let parts = declared_head(
                alloc,
                scopes,
                notes,
                parts.at,
                &parts.start,
                &parts.condition,
                &parts.step,
            )?;
            let head = ForHead { number, parts };
            let part = for_behind(alloc, around.in_loop(), scopes, notes, head, body)?;
            scopes.leave(mark);
            Ok(part)
        }
        RawStatement::Break(at, _) => break_statement(alloc, scopes, around.breaks, *at),
        RawStatement::Continue(at, _) => continue_statement(alloc, scopes, around.continues, *at),
        RawStatement::Return(at, e, _) => {
            return_statement(alloc, scopes, notes, around.result, *at, e)
        }
    }
}

/// The statements of a body, one behind the other.
#[cycle(statement)]
pub(crate) fn statements(
    alloc: Global,
    around: Around,
    scopes: &mut Scopes,
    notes: &mut Notes,
    items: &[RawStatement],
) -> Result<Judged<Vec<Statement>>, NoMemory>
    ensures said { IfOk result (λ j. IsSaid AreStatements
        (typed_statements (around_of around) (stmts_of (map stmt_of items.now)) scopes.old) j
        notes.old notes.new) }
    ensures scope { OnOk result (scopes.new ≡ after_statements (stmts_of (map stmt_of items.now)) scopes.old) }
{
    let mut so_far = Judged::Fits(Vec::new(alloc));
    'each: for item in items {
        so_far = one_more(alloc, around, scopes, notes, so_far, item)?;
    }
    Ok(so_far)
}

/// One more statement behind others.
#[cycle(statement)]
fn one_more(
    alloc: Global,
    around: Around,
    scopes: &mut Scopes,
    notes: &mut Notes,
    so_far: Judged<Vec<Statement>>,
    st: &RawStatement,
) -> Result<Judged<Vec<Statement>>, NoMemory>
    ensures said { IfOk result (λ j. (front : Checked (List TypedStatement)) (before : List Note)
        → IsSaid AreListed front so_far before notes.old → IsSaid AreListed
        (joined front (typed_statement (around_of around) (stmt_of st.now) scopes.old)) j before notes.new) }
    ensures scope { OnOk result (scopes.new ≡ after_statement (stmt_of st.now) scopes.old) }
{
    match statement(alloc, around, scopes, notes, st) {
        Ok(part) => joined(so_far, part),
        Err(refusal) => {
            drop(so_far);
            Err(refusal)
        }
    }
}

/// The statements of a block, whose names are seen in it alone (C99 6.2.1p4).
#[cycle(statement)]
fn within(
    alloc: Global,
    around: Around,
    scopes: &mut Scopes,
    notes: &mut Notes,
    items: &[RawStatement],
) -> Result<Judged<Vec<Statement>>, NoMemory>
    ensures said { IfOk result (λ j. IsSaid AreStatements
        (typed_statements (around_of around) (stmts_of (map stmt_of items.now)) (entered scopes.old)) j
        notes.old notes.new) }
    ensures scope { OnOk result (scopes.new
        ≡ left scopes.old (after_statements (stmts_of (map stmt_of items.now)) (entered scopes.old))) }
{
    let mark = scopes.enter()?;
    let body = statements(alloc, around, scopes, notes, items)?;
    scopes.leave(mark);
    Ok(body)
}

/// The statement that an `if` without an `else` decides on.
#[cycle(statement)]
fn if_behind(
    alloc: Global,
    around: Around,
    scopes: &mut Scopes,
    notes: &mut Notes,
    head: TestHead,
    st: &RawStatement,
) -> Result<Judged<Vec<Statement>>, NoMemory>
    ensures said { IfOk result (λ j. (c : Checked Typed) (before : List Note)
        → IsSaid IsTree c head.test before notes.old → IsSaid AreListed
        (one (both c (alone (typed_statement (around_of around) (stmt_of st.now) scopes.old)) (λ x a.
        fits (tree.If head.number x a (tree.Block Done))))) j before notes.new) }
    ensures scope { OnOk result (scopes.new ≡ after_statement (stmt_of st.now) scopes.old) }
{
    match statement(alloc, around, scopes, notes, st) {
        Ok(part) => if_only(alloc, head, part),
        Err(refusal) => {
            drop(head);
            Err(refusal)
        }
    }
}

/// The first branch of an `if` with an `else`.
#[cycle(statement)]
fn branch_behind(
    alloc: Global,
    around: Around,
    scopes: &mut Scopes,
    notes: &mut Notes,
    head: TestHead,
    st: &RawStatement,
) -> Result<Branch, NoMemory>
    ensures number { IfOk result (λ b. b.number ≡ head.number) }
    ensures said { IfOk result (λ b. (c : Checked Typed) (before : List Note)
        → IsSaid IsTree c head.test before notes.old → IsSaid AreTested
        (pair c (alone (typed_statement (around_of around) (stmt_of st.now) scopes.old))) b.parts
        before notes.new) }
    ensures scope { OnOk result (scopes.new ≡ after_statement (stmt_of st.now) scopes.old) }
{
    match statement(alloc, around, scopes, notes, st) {
        Ok(part) => Ok(first_branch(head, part)),
        Err(refusal) => {
            drop(head);
            Err(refusal)
        }
    }
}

/// The second branch of an `if` with an `else`.
#[cycle(statement)]
fn else_behind(
    alloc: Global,
    around: Around,
    scopes: &mut Scopes,
    notes: &mut Notes,
    front: Branch,
    st: &RawStatement,
) -> Result<Judged<Vec<Statement>>, NoMemory>
    ensures said { IfOk result (λ j. (c : Checked Typed) (a : Checked TypedStatement) (before : List Note)
        → IsSaid AreTested (pair c a) front.parts before notes.old → IsSaid AreListed
        (one (three c a (alone (typed_statement (around_of around) (stmt_of st.now) scopes.old)) (λ x y z.
        fits (tree.If front.number x y z)))) j before notes.new) }
    ensures scope { OnOk result (scopes.new ≡ after_statement (stmt_of st.now) scopes.old) }
{
    match statement(alloc, around, scopes, notes, st) {
        Ok(other) => if_else(alloc, front, other),
        Err(refusal) => {
            drop(front);
            Err(refusal)
        }
    }
}

/// The statements of a switch.
#[cycle(statement)]
fn switch_behind(
    alloc: Global,
    around: Around,
    scopes: &mut Scopes,
    notes: &mut Notes,
    head: SwitchHead,
    items: &[RawStatement],
) -> Result<Judged<Vec<Statement>>, NoMemory>
    ensures said { IfOk result (λ j. (a : Checked Typed) (b : Checked (List TypedLabel)) (before : List Note)
        → IsSaid AreSelected (pair a b) head.parts before notes.old → IsSaid AreListed
        (one (three a b (typed_statements (around_of around) (stmts_of (map stmt_of items.now))
        (entered scopes.old)) (λ x l s. fits (tree.Switch head.number x l s)))) j before notes.new) }
    ensures scope { OnOk result (scopes.new
        ≡ left scopes.old (after_statements (stmts_of (map stmt_of items.now)) (entered scopes.old))) }
{
    match within(alloc, around, scopes, notes, items) {
        Ok(body) => switch(alloc, head, body),
        Err(refusal) => {
            drop(head);
            Err(refusal)
        }
    }
}

/// The body of a `while`.
#[cycle(statement)]
fn while_behind(
    alloc: Global,
    around: Around,
    scopes: &mut Scopes,
    notes: &mut Notes,
    head: TestHead,
    st: &RawStatement,
) -> Result<Judged<Vec<Statement>>, NoMemory>
    ensures said { IfOk result (λ j. (c : Checked Typed) (before : List Note)
        → IsSaid IsTree c head.test before notes.old → IsSaid AreListed
        (one (both c (alone (typed_statement (around_of around) (stmt_of st.now) scopes.old)) (λ x a.
        fits (tree.While head.number x a)))) j before notes.new) }
    ensures scope { OnOk result (scopes.new ≡ after_statement (stmt_of st.now) scopes.old) }
{
    match statement(alloc, around, scopes, notes, st) {
        Ok(part) => while_loop(alloc, head, part),
        Err(refusal) => {
            drop(head);
            Err(refusal)
        }
    }
}

/// The body of a `do`, whose condition was judged.
#[cycle(statement)]
fn do_before(
    alloc: Global,
    around: Around,
    scopes: &mut Scopes,
    notes: &mut Notes,
    head: DoHead,
    st: &RawStatement,
) -> Result<Judged<Vec<Statement>>, NoMemory>
    ensures said { IfOk result (λ j. (c : Checked Typed) → IsSaid IsTree c head.test [] head.notes
        → IsSaid AreListed
        (one (both (alone (typed_statement (around_of around) (stmt_of st.now) scopes.old)) c (λ a x.
        fits (tree.Do head.number a x)))) j notes.old notes.new) }
    ensures scope { OnOk result (scopes.new ≡ after_statement (stmt_of st.now) scopes.old) }
{
    match statement(alloc, around, scopes, notes, st) {
        Ok(part) => do_loop(alloc, notes, head, part),
        Err(refusal) => {
            drop(head);
            Err(refusal)
        }
    }
}

/// The body of a `for`.
#[cycle(statement)]
fn for_behind(
    alloc: Global,
    around: Around,
    scopes: &mut Scopes,
    notes: &mut Notes,
    head: ForHead,
    st: &RawStatement,
) -> Result<Judged<Vec<Statement>>, NoMemory>
    ensures said { IfOk result (λ j. (a : Checked TypedFirst) (b c : Checked (Option Typed)) (before : List Note)
        → IsSaid AreHead (pair (pair a b) c) head.parts before notes.old → IsSaid AreListed
        (for_loop head.number a b c (alone (typed_statement (around_of around) (stmt_of st.now) scopes.old))) j
        before notes.new) }
    ensures scope { OnOk result (scopes.new ≡ after_statement (stmt_of st.now) scopes.old) }
{
    match statement(alloc, around, scopes, notes, st) {
        Ok(part) => for_loop(alloc, head, part),
        Err(refusal) => {
            drop(head);
            Err(refusal)
        }
    }
}
