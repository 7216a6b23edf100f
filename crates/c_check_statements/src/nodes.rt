//! Statements with statements inside, whose parts were judged (C99 6.8.2, 6.8.4 and 6.8.5).

ghost use Rattle.std.specs.Prelude.{◌≡◌, [], ◌∷◌, List, Option, IfOk};
ghost use Rattle.c_tree.specs.Erased.{boxed_of, statement_of, statements_of};
ghost use Rattle.c_tree.specs.Program as tree;
ghost use Rattle.c_tree.specs.Program.{
  Done,
  Expression as Typed,
  First as TypedFirst,
  Statement as TypedStatement,
  Statements as TypedStatements,
};
ghost use Rattle.c_tree.specs.declared.statement.Label.{Label as TypedLabel};
ghost use Rattle.c_typing.specs.Checked.{Checked, Note, both, fits, if_fits, pair, three};
ghost use Rattle.c_typing.specs.Statements.{alone, for_loop, one};
ghost use Rattle.c_check_expressions.specs.Said.{IsSaid};
ghost use Rattle.c_check_declarations.specs.InitialValues.{IsTree};
ghost use Rattle.c_check_statements.specs.Answers.{
  AreBranches,
  AreCases,
  AreHead,
  AreListed,
  AreRepeated,
  AreSelected,
  AreStatements,
  AreTested,
  AreTurns,
  IsStatement,
};

use crate::heads::{DoHead, ForHead, SwitchHead, TestHead};
use crate::parts::{alone, block_of, one};
use c_check_expressions::{Judged, Notes, both};
use c_tree::{Expression as Tree, First, Label, Statement};
use pcc_base::NoMemory;
use std::alloc::Global;

/// A block (C99 6.8.2).
pub fn block(
    alloc: Global,
    body: Judged<Vec<Statement>>,
) -> Result<Judged<Vec<Statement>>, NoMemory>
    ensures { IfOk result (λ j. (c : Checked TypedStatements) (before after : List Note)
        → IsSaid AreStatements c body before after
        → IsSaid AreListed (one (if_fits c (λ b. fits (tree.Block b)))) j before after) }
{
    match body {
        Judged::Fails(fault) => Ok(Judged::Fails(fault)),
        Judged::Fits(statements) => one(alloc, block_of(statements)),
    }
}

// ---- a condition, and what it decides on

/// A condition and a statement behind it.
fn tested_parts(
    test: Judged<Box<Tree>>,
    part: Judged<Vec<Statement>>,
) -> Judged<(Box<Tree>, Statement)>
    ensures { (c : Checked Typed) (a : Checked (List TypedStatement)) (before between after : List Note)
        → IsSaid IsTree c test before between → IsSaid AreListed a part between after
        → IsSaid AreTested (pair c (alone a)) result before after }
{
    both(test, alone(part))
}

/// An `if` whose `else` isn't there: an empty block.
fn only_branch(
    alloc: Global,
    number: u32,
    test: Box<Tree>,
    part: Statement,
) -> Result<Statement, NoMemory>
    ensures { IfOk result (λ s. statement_of s
        ≡ tree.If number (boxed_of test) (statement_of part) (tree.Block Done)) }
{
    let nothing = block_of(Vec::new(alloc));
    Statement::if_else(alloc, number, test, part, nothing)
}

/// An `if` without an `else`, whose parts fit or not.
fn if_only_of(
    alloc: Global,
    number: u32,
    parts: Judged<(Box<Tree>, Statement)>,
) -> Result<Judged<Vec<Statement>>, NoMemory>
    ensures { IfOk result (λ j. (c : Checked (Typed × TypedStatement)) (before after : List Note)
        → IsSaid AreTested c parts before after
        → IsSaid AreListed (one (if_fits c (λ p. fits (tree.If number p.0 p.1 (tree.Block Done))))) j
        before after) }
{
    match parts {
        Judged::Fails(fault) => Ok(Judged::Fails(fault)),
        Judged::Fits((test, part)) => {
            let statement = only_branch(alloc, number, test, part)?;
            one(alloc, statement)
        }
    }
}

/// An `if` without an `else` (C99 6.8.4.1).
pub(crate) fn if_only(
    alloc: Global,
    head: TestHead,
    part: Judged<Vec<Statement>>,
) -> Result<Judged<Vec<Statement>>, NoMemory>
    ensures { IfOk result (λ j. (c : Checked Typed) (a : Checked (List TypedStatement))
        (before between after : List Note)
        → IsSaid IsTree c head.test before between → IsSaid AreListed a part between after
        → IsSaid AreListed (one (both c (alone a) (λ x y. fits (tree.If head.number x y (tree.Block Done))))) j
        before after) }
{
    if_only_of(alloc, head.number, tested_parts(head.test, part))
}

/// A `while`, whose parts fit or not.
fn while_of(
    alloc: Global,
    number: u32,
    parts: Judged<(Box<Tree>, Statement)>,
) -> Result<Judged<Vec<Statement>>, NoMemory>
    ensures { IfOk result (λ j. (c : Checked (Typed × TypedStatement)) (before after : List Note)
        → IsSaid AreTested c parts before after
        → IsSaid AreListed (one (if_fits c (λ p. fits (tree.While number p.0 p.1)))) j before after) }
{
    match parts {
        Judged::Fails(fault) => Ok(Judged::Fails(fault)),
        Judged::Fits((test, part)) => {
            let statement = Statement::while_loop(alloc, number, test, part)?;
            one(alloc, statement)
        }
    }
}

/// A `while` (C99 6.8.5.1).
pub fn while_loop(
    alloc: Global,
    head: TestHead,
    part: Judged<Vec<Statement>>,
) -> Result<Judged<Vec<Statement>>, NoMemory>
    ensures { IfOk result (λ j. (c : Checked Typed) (a : Checked (List TypedStatement))
        (before between after : List Note)
        → IsSaid IsTree c head.test before between → IsSaid AreListed a part between after
        → IsSaid AreListed (one (both c (alone a) (λ x y. fits (tree.While head.number x y)))) j before after) }
{
    while_of(alloc, head.number, tested_parts(head.test, part))
}

// ---- two branches

/// A condition and the first branch, with the number of the statement.
#[derive(Drop)]
pub struct Branch {
    pub number: u32,
    pub parts: Judged<(Box<Tree>, Statement)>,
}

/// The first branch behind a condition.
pub(crate) fn first_branch(head: TestHead, part: Judged<Vec<Statement>>) -> Branch
    ensures number { result.number ≡ head.number }
    ensures said { (c : Checked Typed) (a : Checked (List TypedStatement)) (before between after : List Note)
        → IsSaid IsTree c head.test before between → IsSaid AreListed a part between after
        → IsSaid AreTested (pair c (alone a)) result.parts before after }
{
    Branch {
        number: head.number,
        parts: tested_parts(head.test, part),
    }
}

/// Three parts in turn.
fn in_turn(
    parts: Judged<((Box<Tree>, Statement), Statement)>,
) -> Judged<(Box<Tree>, (Statement, Statement))>
    ensures { (a : Checked Typed) (b c : Checked TypedStatement) (before after : List Note)
        → IsSaid (λ p q. AreTested p.0 q.0 × IsStatement p.1 q.1) (pair (pair a b) c) parts before after
        → IsSaid AreBranches (pair a (pair b c)) result before after }
{
    match parts {
        Judged::Fails(fault) => Judged::Fails(fault),
        Judged::Fits((front, third)) => {
            let (first, second) = front;
            Judged::Fits((first, (second, third)))
        }
    }
}

/// The second branch behind a condition and the first one.
fn branches(
    front: Judged<(Box<Tree>, Statement)>,
    other: Judged<Vec<Statement>>,
) -> Judged<(Box<Tree>, (Statement, Statement))>
    ensures { (c : Checked Typed) (a : Checked TypedStatement) (b : Checked (List TypedStatement))
        (before between after : List Note)
        → IsSaid AreTested (pair c a) front before between → IsSaid AreListed b other between after
        → IsSaid AreBranches (pair c (pair a (alone b))) result before after }
{
    in_turn(both(front, alone(other)))
}

/// An `if` with an `else`, whose parts fit or not.
fn if_else_of(
    alloc: Global,
    number: u32,
    parts: Judged<(Box<Tree>, (Statement, Statement))>,
) -> Result<Judged<Vec<Statement>>, NoMemory>
    ensures { IfOk result (λ j. (c : Checked (Typed × (TypedStatement × TypedStatement))) (before after : List Note)
        → IsSaid AreBranches c parts before after
        → IsSaid AreListed (one (if_fits c (λ p. fits (tree.If number p.0 p.1.0 p.1.1)))) j before after) }
{
    match parts {
        Judged::Fails(fault) => Ok(Judged::Fails(fault)),
        Judged::Fits((test, (first, second))) => {
            let statement = Statement::if_else(alloc, number, test, first, second)?;
            one(alloc, statement)
        }
    }
}

/// An `if` with an `else` (C99 6.8.4.1).
pub fn if_else(
    alloc: Global,
    front: Branch,
    other: Judged<Vec<Statement>>,
) -> Result<Judged<Vec<Statement>>, NoMemory>
    ensures { IfOk result (λ j. (c : Checked Typed) (a : Checked TypedStatement) (b : Checked (List TypedStatement))
        (before between after : List Note)
        → IsSaid AreTested (pair c a) front.parts before between → IsSaid AreListed b other between after
        → IsSaid AreListed (one (three c a (alone b) (λ x y z. fits (tree.If front.number x y z)))) j
        before after) }
{
    if_else_of(alloc, front.number, branches(front.parts, other))
}

// ---- a `do`

/// What is said behind what was said before.
fn said_behind(
    notes: &mut Notes,
    behind: Notes,
    test: Judged<Box<Tree>>,
) -> Result<Judged<Box<Tree>>, NoMemory>
    ensures { IfOk result (λ j. (c : Checked Typed) → IsSaid IsTree c test [] behind
        → IsSaid IsTree c j notes.old notes.new) }
{
    match notes.append(behind) {
        Ok(()) => Ok(test),
        Err(refusal) => {
            drop(test);
            Err(refusal)
        }
    }
}

/// A statement and the condition behind it.
fn repeated_parts(
    part: Judged<Vec<Statement>>,
    test: Judged<Box<Tree>>,
) -> Judged<(Statement, Box<Tree>)>
    ensures { (a : Checked (List TypedStatement)) (c : Checked Typed) (before between after : List Note)
        → IsSaid AreListed a part before between → IsSaid IsTree c test between after
        → IsSaid AreRepeated (pair (alone a) c) result before after }
{
    both(alone(part), test)
}

/// A `do`, whose parts fit or not.
fn do_of(
    alloc: Global,
    number: u32,
    parts: Judged<(Statement, Box<Tree>)>,
) -> Result<Judged<Vec<Statement>>, NoMemory>
    ensures { IfOk result (λ j. (c : Checked (TypedStatement × Typed)) (before after : List Note)
        → IsSaid AreRepeated c parts before after
        → IsSaid AreListed (one (if_fits c (λ p. fits (tree.Do number p.0 p.1)))) j before after) }
{
    match parts {
        Judged::Fails(fault) => Ok(Judged::Fails(fault)),
        Judged::Fits((part, test)) => {
            let statement = Statement::do_loop(alloc, number, part, test)?;
            one(alloc, statement)
        }
    }
}

/// A `do`, whose condition was judged before its body; what the condition says stands behind (C99 6.8.5.2).
pub fn do_loop(
    alloc: Global,
    notes: &mut Notes,
    head: DoHead,
    part: Judged<Vec<Statement>>,
) -> Result<Judged<Vec<Statement>>, NoMemory>
    ensures { IfOk result (λ j. (a : Checked (List TypedStatement)) (c : Checked Typed) (before : List Note)
        → IsSaid AreListed a part before notes.old → IsSaid IsTree c head.test [] head.notes
        → IsSaid AreListed (one (both (alone a) c (λ x y. fits (tree.Do head.number x y)))) j before notes.new) }
{
    match said_behind(notes, head.notes, head.test) {
        Ok(test) => do_of(alloc, head.number, repeated_parts(part, test)),
        Err(refusal) => {
            drop(part);
            Err(refusal)
        }
    }
}

// ---- a `switch`

/// Three parts in turn.
fn cases_in_turn(
    parts: Judged<((Box<Tree>, Vec<Label>), Vec<Statement>)>,
) -> Judged<(Box<Tree>, (Vec<Label>, Vec<Statement>))>
    ensures { (a : Checked Typed) (b : Checked (List TypedLabel)) (c : Checked TypedStatements)
        (before after : List Note)
        → IsSaid (λ p q. AreSelected p.0 q.0 × AreStatements p.1 q.1) (pair (pair a b) c) parts before after
        → IsSaid AreCases (pair a (pair b c)) result before after }
{
    match parts {
        Judged::Fails(fault) => Judged::Fails(fault),
        Judged::Fits((front, third)) => {
            let (first, second) = front;
            Judged::Fits((first, (second, third)))
        }
    }
}

/// The statements of a switch behind its value and labels.
fn cases(
    front: Judged<(Box<Tree>, Vec<Label>)>,
    body: Judged<Vec<Statement>>,
) -> Judged<(Box<Tree>, (Vec<Label>, Vec<Statement>))>
    ensures { (a : Checked Typed) (b : Checked (List TypedLabel)) (c : Checked TypedStatements)
        (before between after : List Note)
        → IsSaid AreSelected (pair a b) front before between → IsSaid AreStatements c body between after
        → IsSaid AreCases (pair a (pair b c)) result before after }
{
    cases_in_turn(both(front, body))
}

/// The tree of a switch.
fn switch_tree(number: u32, value: Box<Tree>, labels: Vec<Label>, body: Vec<Statement>) -> Statement
    ensures { statement_of result
        ≡ tree.Switch number (boxed_of value) labels.items (statements_of body.items) }
{
    Statement::Switch(number, value, labels, body)
}

/// A switch, whose parts fit or not.
fn switch_of(
    alloc: Global,
    number: u32,
    parts: Judged<(Box<Tree>, (Vec<Label>, Vec<Statement>))>,
) -> Result<Judged<Vec<Statement>>, NoMemory>
    ensures { IfOk result (λ j. (c : Checked (Typed × (List TypedLabel × TypedStatements))) (before after : List Note)
        → IsSaid AreCases c parts before after
        → IsSaid AreListed (one (if_fits c (λ p. fits (tree.Switch number p.0 p.1.0 p.1.1)))) j before after) }
{
    match parts {
        Judged::Fails(fault) => Ok(Judged::Fails(fault)),
        Judged::Fits((value, (labels, body))) => {
            one(alloc, switch_tree(number, value, labels, body))
        }
    }
}

/// A switch (C99 6.8.4.2).
pub fn switch(
    alloc: Global,
    head: SwitchHead,
    body: Judged<Vec<Statement>>,
) -> Result<Judged<Vec<Statement>>, NoMemory>
    ensures { IfOk result (λ j. (a : Checked Typed) (b : Checked (List TypedLabel)) (c : Checked TypedStatements)
        (before between after : List Note)
        → IsSaid AreSelected (pair a b) head.parts before between → IsSaid AreStatements c body between after
        → IsSaid AreListed (one (three a b c (λ x l s. fits (tree.Switch head.number x l s)))) j before after) }
{
    switch_of(alloc, head.number, cases(head.parts, body))
}

// ---- a `for`

/// Four parts in turn.
fn turns_in_turn(
    parts: Judged<(((First, Option<Box<Tree>>), Option<Box<Tree>>), Statement)>,
) -> Judged<((First, Option<Box<Tree>>), (Option<Box<Tree>>, Statement))>
    ensures { (a : Checked (TypedFirst × Option Typed)) (b : Checked (Option Typed)) (c : Checked TypedStatement)
        (before after : List Note)
        → IsSaid (λ p q. AreHead p.0 q.0 × IsStatement p.1 q.1) (pair (pair a b) c) parts before after
        → IsSaid AreTurns (pair a (pair b c)) result before after }
{
    match parts {
        Judged::Fails(fault) => Judged::Fails(fault),
        Judged::Fits((front, third)) => {
            let (first, second) = front;
            Judged::Fits((first, (second, third)))
        }
    }
}

/// The body of a `for` behind its other parts.
fn turns(
    front: Judged<((First, Option<Box<Tree>>), Option<Box<Tree>>)>,
    part: Judged<Vec<Statement>>,
) -> Judged<((First, Option<Box<Tree>>), (Option<Box<Tree>>, Statement))>
    ensures { (a : Checked (TypedFirst × Option Typed)) (b : Checked (Option Typed))
        (c : Checked (List TypedStatement)) (before between after : List Note)
        → IsSaid AreHead (pair a b) front before between → IsSaid AreListed c part between after
        → IsSaid AreTurns (pair a (pair b (alone c))) result before after }
{
    turns_in_turn(both(front, alone(part)))
}

/// A `for`, whose parts fit or not.
fn for_of(
    alloc: Global,
    number: u32,
    parts: Judged<((First, Option<Box<Tree>>), (Option<Box<Tree>>, Statement))>,
) -> Result<Judged<Vec<Statement>>, NoMemory>
    ensures { IfOk result (λ j. (c : Checked ((TypedFirst × Option Typed) × (Option Typed × TypedStatement)))
        (before after : List Note) → IsSaid AreTurns c parts before after
        → IsSaid AreListed (if_fits c (λ p. fits (tree.For number p.0.0 p.0.1 p.1.0 p.1.1 ∷ []))) j before after) }
{
    match parts {
        Judged::Fails(fault) => Ok(Judged::Fails(fault)),
        Judged::Fits(((first, test), (step, part))) => {
            let statement = Statement::for_loop(alloc, number, first, test, step, part)?;
            one(alloc, statement)
        }
    }
}

/// A `for` (C99 6.8.5.3).
pub fn for_loop(
    alloc: Global,
    head: ForHead,
    part: Judged<Vec<Statement>>,
) -> Result<Judged<Vec<Statement>>, NoMemory>
    ensures { IfOk result (λ j. (a : Checked TypedFirst) (b c : Checked (Option Typed))
        (d : Checked (List TypedStatement)) (before between after : List Note)
        → IsSaid AreHead (pair (pair a b) c) head.parts before between → IsSaid AreListed d part between after
        → IsSaid AreListed (for_loop head.number a b c (alone d)) j before after) }
{
    for_of(alloc, head.number, turns(head.parts, part))
}
