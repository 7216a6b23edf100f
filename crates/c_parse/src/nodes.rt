//! Nodes of statements: each puts parts that were read into one tree, in a box.
//!
//! None is inlined: a statement is as large as its largest node, and the functions that read a nest keep room for
//! none.

ghost use Rattle.std.specs.Prelude.{◌≡◌, ◌∷◌, ◌++◌, [], IfOk, OnOk};
ghost use Rattle.c_syntax.specs.Expressions.{expr_of};
ghost use Rattle.c_syntax.specs.Declarations.{declaration_of, maybe_expr_of};
ghost use Rattle.c_syntax.specs.Statements as trees;
ghost use Rattle.c_syntax.specs.Statements.{stmt_of, stmts_of};
ghost use Rattle.c_parse.specs.StatementParts.{for_of, labels_of, start_of, statements_of, tests_of};

use crate::statement_parts::{
    Clause, Condition, DoTail, ForHead, ForStart, ForTests, LabelList, StatementList, SwitchHead,
};
use c_parse_expressions::push;
use c_syntax::{
    Declaration, DoParts, ForDeclarationParts, ForParts, IfElseParts, Statement, SwitchParts,
};
use pcc_base::{NoMemory, Span, boxed as boxed_beside};
use std::alloc::Global;

/// A value in a box.
#[inline(always)]
pub(crate) fn boxed<T: Drop>(alloc: Global, value: T) -> Result<Box<T>, NoMemory>
    ensures { IfOk result (λ b. b.value ≡ value) }
{
    Ok(Box::new(alloc, value)?)
}

/// Appends a statement that was read in a box.
#[inline(never)]
pub(crate) fn push_item(
    statements: &mut Vec<Statement>,
    item: Box<Statement>,
) -> Result<(), NoMemory>
    ensures { OnOk result (statements.new.items ≡ statements.old.items ++ item.value ∷ []) }
{
    push(statements, Box::into_inner(item))
}

#[inline(never)]
pub(crate) fn declared_node(
    alloc: Global,
    declaration: Declaration,
) -> Result<Box<Statement>, NoMemory>
    ensures { IfOk result (λ b. stmt_of b.value ≡ trees.Declared (declaration_of declaration)) }
{
    let statement = Statement::Declaration(declaration);
    boxed(alloc, statement)
}

#[inline(never)]
pub(crate) fn labelled_node(
    alloc: Global,
    list: LabelList,
    statement: Box<Statement>,
) -> Result<Box<Statement>, NoMemory>
    ensures { IfOk result (λ b. stmt_of b.value ≡ trees.Labelled (labels_of list) (stmt_of statement.value)) }
{
    let statement = Statement::Labelled(list.labels, statement);
    boxed(alloc, statement)
}

#[inline(never)]
pub(crate) fn block_node(
    alloc: Global,
    opening: Span,
    items: StatementList,
) -> Result<Box<Statement>, NoMemory>
    ensures { IfOk result (λ b. stmt_of b.value ≡ trees.Block opening (stmts_of (statements_of items)) items.close) }
{
    let statement = Statement::Block(opening, items.statements, items.close);
    boxed(alloc, statement)
}

#[inline(never)]
pub(crate) fn if_node(
    alloc: Global,
    at: Span,
    condition: Condition,
    then: Box<Statement>,
) -> Result<Box<Statement>, NoMemory>
    ensures { IfOk result (λ b. stmt_of b.value
        ≡ trees.If at condition.opening (expr_of condition.value.value) condition.close (stmt_of then.value)) }
{
    let statement = Statement::If {
        at,
        opening: condition.opening,
        condition: condition.value,
        close: condition.close,
        then,
    };
    boxed(alloc, statement)
}

#[inline(never)]
pub(crate) fn if_else_node(
    alloc: Global,
    at: Span,
    condition: Condition,
    then: Box<Statement>,
    otherwise: Span,
    other: Box<Statement>,
) -> Result<Box<Statement>, NoMemory>
    ensures { IfOk result (λ b. stmt_of b.value
        ≡ trees.IfElse at condition.opening (expr_of condition.value.value) condition.close (stmt_of then.value)
        otherwise (stmt_of other.value)) }
{
    let parts = IfElseParts {
        at,
        opening: condition.opening,
        condition: condition.value,
        close: condition.close,
        otherwise,
    };
    let (parts, (then, other)) = boxed_beside(alloc, parts, (then, other))?;
    boxed(alloc, Statement::IfElse(parts, then, other))
}

#[inline(never)]
pub(crate) fn while_node(
    alloc: Global,
    at: Span,
    condition: Condition,
    body: Box<Statement>,
) -> Result<Box<Statement>, NoMemory>
    ensures { IfOk result (λ b. stmt_of b.value
        ≡ trees.While at condition.opening (expr_of condition.value.value) condition.close (stmt_of body.value)) }
{
    let statement = Statement::While {
        at,
        opening: condition.opening,
        condition: condition.value,
        close: condition.close,
        body,
    };
    boxed(alloc, statement)
}

#[inline(never)]
pub(crate) fn do_node(
    alloc: Global,
    at: Span,
    body: Box<Statement>,
    tail: DoTail,
) -> Result<Box<Statement>, NoMemory>
    ensures { IfOk result (λ b. stmt_of b.value ≡ trees.Do at (stmt_of body.value) tail.until tail.condition.opening
        (expr_of tail.condition.value.value) tail.condition.close tail.semicolon) }
{
    let parts = DoParts {
        at,
        until: tail.until,
        opening: tail.condition.opening,
        condition: tail.condition.value,
        close: tail.condition.close,
        semicolon: tail.semicolon,
    };
    let (parts, body) = boxed_beside(alloc, parts, body)?;
    boxed(alloc, Statement::Do(parts, body))
}

#[inline(never)]
pub(crate) fn for_node(
    alloc: Global,
    at: Span,
    head: ForHead,
    body: Box<Statement>,
) -> Result<Box<Statement>, NoMemory>
    ensures { IfOk result (λ b. stmt_of b.value
        ≡ for_of at head.opening (start_of head.start) (tests_of head.tests) (stmt_of body.value)) }
{
    let ForHead {
        opening,
        start,
        tests,
    } = head;
    let ForTests { condition, step } = tests;
    match start {
        ForStart::Expressed(start) => {
            let parts = ForParts {
                at,
                opening,
                start: start.value,
                first: start.mark,
                condition: condition.value,
                second: condition.mark,
                step: step.value,
                close: step.mark,
            };
            let (parts, body) = boxed_beside(alloc, parts, body)?;
            boxed(alloc, Statement::For(parts, body))
        }
        ForStart::Declared(start) => {
            let parts = ForDeclarationParts {
                at,
                opening,
                start,
                condition: condition.value,
                second: condition.mark,
                step: step.value,
                close: step.mark,
            };
            let (parts, body) = boxed_beside(alloc, parts, body)?;
            boxed(alloc, Statement::ForDeclaration(parts, body))
        }
    }
}

#[inline(never)]
pub(crate) fn switch_node(
    alloc: Global,
    at: Span,
    head: SwitchHead,
    items: StatementList,
) -> Result<Box<Statement>, NoMemory>
    ensures { IfOk result (λ b. stmt_of b.value
        ≡ trees.Switch at head.value.opening (expr_of head.value.value.value) head.value.close head.begin
        (stmts_of (statements_of items)) items.close) }
{
    let parts = SwitchParts {
        at,
        opening: head.value.opening,
        value: head.value.value,
        close: head.value.close,
        begin: head.begin,
        end: items.close,
    };
    let (parts, items) = boxed_beside(alloc, parts, items.statements)?;
    boxed(alloc, Statement::Switch(parts, items))
}

pub(crate) fn return_node(at: Span, clause: Clause) -> Statement
    ensures { stmt_of result ≡ trees.Return at (maybe_expr_of clause.value) clause.mark }
{
    Statement::Return(at, clause.value, clause.mark)
}

pub(crate) fn simple_node(clause: Clause) -> Statement
    ensures { stmt_of result ≡ trees.Simple (maybe_expr_of clause.value) clause.mark }
{
    Statement::Simple(clause.value, clause.mark)
}
