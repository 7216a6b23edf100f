//! Statements of judged parts: one, several, or several as one.

ghost use Rattle.std.specs.Prelude.{◌≡◌, ◌++◌, List, map, IfOk};
ghost use Rattle.c_tree.specs.Erased.{item_of, statement_of, statements_of};
ghost use Rattle.c_tree.specs.Program as tree;
ghost use Rattle.c_tree.specs.Program.{Item as TypedItem, Statement as Typed};
ghost use Rattle.c_typing.specs.Checked.{Checked, Note, fits, if_fits};
ghost use Rattle.c_typing.specs.Statements.{alone, as_one, one};
ghost use Rattle.c_check_expressions.specs.Said.{IsSaid};
ghost use Rattle.c_check_declarations.specs.ItemAnswers.{AreItems};
ghost use Rattle.c_check_statements.specs.Answers.{AreListed, IsStatement};
ghost use Rattle.c_check_statements.specs.Together.{joined};

use c_check_expressions::{Judged, both};
use c_tree::{Item, Statement};
use pcc_base::NoMemory;
use std::alloc::Global;

/// One statement, in a list of its own.
pub(crate) fn one(alloc: Global, statement: Statement) -> Result<Judged<Vec<Statement>>, NoMemory>
    ensures { IfOk result (λ j. (notes : List Note)
        → IsSaid AreListed (one (fits (statement_of statement))) j notes notes) }
{
    let mut statements = Vec::new(alloc);
    statements.push(statement)?;
    Ok(Judged::Fits(statements))
}

/// A block of statements.
pub(crate) fn block_of(statements: Vec<Statement>) -> Statement
    ensures { statement_of result ≡ tree.Block (statements_of statements.items) }
{
    Statement::Block(statements)
}

/// Several statements as one. By the grammar several stand in a block alone.
fn as_one(mut statements: Vec<Statement>) -> Statement
    ensures { statement_of result ≡ as_one (map statement_of statements.items) }
{
    if statements.len() != 1 {
        return block_of(statements);
    }
    match statements.pop() {
        Some(statement) => statement,
        None => block_of(statements),
    }
}

/// What a statement is as a part of another one.
pub(crate) fn alone(part: Judged<Vec<Statement>>) -> Judged<Statement>
    ensures { (c : Checked (List Typed)) (before after : List Note) → IsSaid AreListed c part before after
        → IsSaid IsStatement (alone c) result before after }
{
    match part {
        Judged::Fails(fault) => Judged::Fails(fault),
        Judged::Fits(statements) => Judged::Fits(as_one(statements)),
    }
}

/// Items as statements.
fn declarations(alloc: Global, items: Vec<Item>) -> Result<Vec<Statement>, NoMemory>
    ensures { IfOk result (λ v. map statement_of v.items ≡ map tree.Declare (map item_of items.items)) }
{
    let mut statements = Vec::new(alloc);
    for item in items {
        statements.push(Statement::Declare(item))?;
    }
    Ok(statements)
}

/// Declared items of a block, each of which is a statement (C99 6.8.2).
pub fn declared(alloc: Global, part: Judged<Vec<Item>>) -> Result<Judged<Vec<Statement>>, NoMemory>
    ensures { IfOk result (λ j. (c : Checked (List TypedItem)) (before after : List Note)
        → IsSaid AreItems c part before after
        → IsSaid AreListed (if_fits c (λ items. fits (map tree.Declare items))) j before after) }
{
    match part {
        Judged::Fails(fault) => Ok(Judged::Fails(fault)),
        Judged::Fits(items) => Ok(Judged::Fits(declarations(alloc, items)?)),
    }
}

/// More statements behind others.
fn appended(
    mut front: Vec<Statement>,
    mut others: Vec<Statement>,
) -> Result<Vec<Statement>, NoMemory>
    ensures { IfOk result (λ v. v.items ≡ front.items ++ others.items) }
{
    front.append(&mut others)?;
    Ok(front)
}

/// More statements behind others, where all fit.
pub fn joined(
    so_far: Judged<Vec<Statement>>,
    part: Judged<Vec<Statement>>,
) -> Result<Judged<Vec<Statement>>, NoMemory>
    ensures { IfOk result (λ j. (front c : Checked (List Typed)) (before between after : List Note)
        → IsSaid AreListed front so_far before between → IsSaid AreListed c part between after
        → IsSaid AreListed (joined front c) j before after) }
{
    match both(so_far, part) {
        Judged::Fails(fault) => Ok(Judged::Fails(fault)),
        Judged::Fits((front, others)) => Ok(Judged::Fits(appended(front, others)?)),
    }
}
