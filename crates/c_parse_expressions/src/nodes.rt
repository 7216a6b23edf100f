//! Nodes of expressions: each puts parts that were read into one tree, and adds one to the greatest of
//! their heights. Those of two operands and of parentheses are in `build`.
//!
//! None is inlined: a tree is as large as its largest node, and the functions that read a nest keep room for none.

ghost use Rattle.std.specs.Prelude.{◌≡◌, ◌≤◌, max, map, suc, IfOk};
ghost use Rattle.c_syntax.specs.Expressions as trees;
ghost use Rattle.c_syntax.specs.Expressions.{expr_of, exprs_of, star_of};

use crate::build::found_of;
use crate::found::{Found, Values};
use c_syntax::{
    AssignOp, CallParts, Expression, Identifier, Pointer, Specifier, StepOp, TextPiece, TypeName,
    UnaryOp,
};
use pcc_base::{NoMemory, Span, boxed};
use std::alloc::Global;

/// A name (C99 6.5.1).
#[inline(never)]
pub(crate) fn identifier_node(alloc: Global, name: Identifier) -> Result<Found, NoMemory>
    ensures tree { IfOk result (λ f. expr_of f.tree.value ≡ trees.Identifier name) }
    ensures height { IfOk result (λ f. f.height ≡ 1) }
{
    found_of(alloc, Expression::Identifier(name), 1)
}

/// A number (C99 6.4.4).
#[inline(never)]
pub(crate) fn number_node(alloc: Global, value: i32, at: Span) -> Result<Found, NoMemory>
    ensures tree { IfOk result (λ f. expr_of f.tree.value ≡ trees.Number value at) }
    ensures height { IfOk result (λ f. f.height ≡ 1) }
{
    found_of(alloc, Expression::Number(value, at), 1)
}

/// String literals, one behind another (C99 6.4.5).
#[inline(never)]
pub(crate) fn text_node(alloc: Global, pieces: Vec<TextPiece>) -> Result<Found, NoMemory>
    ensures tree { IfOk result (λ f. expr_of f.tree.value ≡ trees.Text pieces.items) }
    ensures height { IfOk result (λ f. f.height ≡ 1) }
{
    found_of(alloc, Expression::Text(pieces), 1)
}

/// `a[i]` (C99 6.5.2.1).
#[inline(never)]
pub(crate) fn index_node(
    alloc: Global,
    base: Found,
    opening: Span,
    index: Found,
    close: Span,
) -> Result<Found, NoMemory>
    requires base { base.height ≤ 256 }
    requires index { index.height ≤ 256 }
    ensures tree { IfOk result (λ f. expr_of f.tree.value
        ≡ trees.Index (expr_of base.tree.value) opening (expr_of index.tree.value) close) }
    ensures height { IfOk result (λ f. f.height ≡ suc (max base.height index.height)) }
{
    let height = base.height.max(index.height) + 1;
    found_of(
        alloc,
        Expression::Index(base.tree, opening, index.tree, close),
        height,
    )
}

/// `e++` or `e--` (C99 6.5.2.4).
#[inline(never)]
pub(crate) fn postfix_node(
    alloc: Global,
    base: Found,
    op: StepOp,
    at: Span,
) -> Result<Found, NoMemory>
    requires { base.height ≤ 256 }
    ensures tree { IfOk result (λ f. expr_of f.tree.value ≡ trees.Postfix (expr_of base.tree.value) op at) }
    ensures height { IfOk result (λ f. f.height ≡ suc base.height) }
{
    let height = base.height + 1;
    found_of(alloc, Expression::Postfix(base.tree, op, at), height)
}

/// `++e` or `--e` (C99 6.5.3.1).
#[inline(never)]
pub(crate) fn prefix_node(
    alloc: Global,
    op: StepOp,
    at: Span,
    operand: Found,
) -> Result<Found, NoMemory>
    requires { operand.height ≤ 256 }
    ensures tree { IfOk result (λ f. expr_of f.tree.value ≡ trees.Prefix op at (expr_of operand.tree.value)) }
    ensures height { IfOk result (λ f. f.height ≡ suc operand.height) }
{
    let height = operand.height + 1;
    found_of(alloc, Expression::Prefix(op, at, operand.tree), height)
}

/// An operator before its operand (C99 6.5.3.2 and 6.5.3.3).
#[inline(never)]
pub(crate) fn unary_node(
    alloc: Global,
    op: UnaryOp,
    at: Span,
    operand: Found,
) -> Result<Found, NoMemory>
    requires { operand.height ≤ 256 }
    ensures tree { IfOk result (λ f. expr_of f.tree.value ≡ trees.Unary op at (expr_of operand.tree.value)) }
    ensures height { IfOk result (λ f. f.height ≡ suc operand.height) }
{
    let height = operand.height + 1;
    found_of(alloc, Expression::Unary(op, at, operand.tree), height)
}

/// A cast (C99 6.5.4).
#[inline(never)]
pub(crate) fn cast_node(
    alloc: Global,
    opening: Span,
    specifiers: Vec<Specifier>,
    pointer: Option<Pointer>,
    close: Span,
    operand: Found,
) -> Result<Found, NoMemory>
    requires { operand.height ≤ 256 }
    ensures tree { IfOk result (λ f. expr_of f.tree.value
        ≡ trees.Cast opening specifiers.items (star_of pointer) close (expr_of operand.tree.value)) }
    ensures height { IfOk result (λ f. f.height ≡ suc operand.height) }
{
    let height = operand.height + 1;
    let of = TypeName {
        opening,
        specifiers,
        pointer,
        close,
    };
    let (of, operand) = boxed(alloc, of, operand.tree)?;
    found_of(alloc, Expression::Cast(of, operand), height)
}

/// An assignment, with an operator or without (C99 6.5.16).
#[inline(never)]
pub(crate) fn assignment_node(
    alloc: Global,
    op: AssignOp,
    left: Found,
    at: Span,
    right: Found,
) -> Result<Found, NoMemory>
    requires left { left.height ≤ 256 }
    requires right { right.height ≤ 256 }
    ensures tree { IfOk result (λ f. expr_of f.tree.value
        ≡ trees.Assignment op (expr_of left.tree.value) at (expr_of right.tree.value)) }
    ensures height { IfOk result (λ f. f.height ≡ suc (max left.height right.height)) }
{
    let height = left.height.max(right.height) + 1;
    found_of(
        alloc,
        Expression::Assignment(op, left.tree, at, right.tree),
        height,
    )
}

/// `?:` (C99 6.5.15).
#[inline(never)]
pub(crate) fn conditional_node(
    alloc: Global,
    condition: Found,
    question: Span,
    first: Found,
    colon: Span,
    second: Found,
) -> Result<Found, NoMemory>
    requires condition { condition.height ≤ 256 }
    requires first { first.height ≤ 256 }
    requires second { second.height ≤ 256 }
    ensures tree { IfOk result (λ f. expr_of f.tree.value
        ≡ trees.Conditional (expr_of condition.tree.value) question (expr_of first.tree.value) colon
        (expr_of second.tree.value)) }
    ensures height { IfOk result (λ f. f.height ≡ suc (max condition.height (max first.height second.height))) }
{
    let height = condition.height.max(first.height.max(second.height)) + 1;
    let tree = Expression::Conditional {
        condition: condition.tree,
        question,
        first: first.tree,
        colon,
        second: second.tree,
    };
    found_of(alloc, tree, height)
}

/// A call (C99 6.5.2.2).
#[inline(never)]
pub(crate) fn call_node(
    alloc: Global,
    function: Identifier,
    opening: Span,
    arguments: Values,
    close: Span,
) -> Result<Found, NoMemory>
    requires { arguments.height ≤ 256 }
    ensures tree { IfOk result (λ f. expr_of f.tree.value
        ≡ trees.Call function opening (exprs_of (map expr_of arguments.values.items)) arguments.commas.items close) }
    ensures height { IfOk result (λ f. f.height ≡ suc arguments.height) }
{
    let height = arguments.height + 1;
    let parts = CallParts {
        function,
        opening,
        commas: arguments.commas,
        close,
    };
    let (parts, values) = boxed(alloc, parts, arguments.values)?;
    found_of(alloc, Expression::Call(parts, values), height)
}
