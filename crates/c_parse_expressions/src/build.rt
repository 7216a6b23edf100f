//! Nodes of expressions: each puts parts that were read into one tree, and adds one to the greatest of
//! their heights.
//!
//! None is inlined: a tree is as large as its largest node, and the functions that read a nest keep room for none.

ghost use Rattle.std.specs.Prelude.{◌≡◌, ◌≤◌, ◌∷◌, ◌++◌, [], max, suc, IfOk};
ghost use Rattle.c_syntax.specs.Expressions as trees;
ghost use Rattle.c_syntax.specs.Expressions.{expr_of};
ghost use Rattle.c_syntax.specs.ExpressionTokens.{expr_height};
ghost use Rattle.c_parse_expressions.specs.Values.{values_of, height_of_values};

use crate::found::{Found, Values};
use crate::repeated_tokens::push;
use c_syntax::{BinaryOp, Expression};
use pcc_base::{NoMemory, Span};
use std::alloc::Global;

/// A tree in a box, with its height.
#[inline(always)]
pub fn found_of(alloc: Global, tree: Expression, height: u32) -> Result<Found, NoMemory>
    ensures tree { IfOk result (λ f. f.tree.value ≡ tree) }
    ensures height { IfOk result (λ f. f.height ≡ height) }
{
    let tree = Box::new(alloc, tree)?;
    Ok(Found { tree, height })
}

/// An expression in parentheses (C99 6.5.1).
#[inline(never)]
pub(crate) fn parenthesised_node(
    alloc: Global,
    opening: Span,
    inner: Found,
    close: Span,
) -> Result<Found, NoMemory>
    requires { inner.height ≤ 256 }
    ensures tree { IfOk result (λ f. expr_of f.tree.value
        ≡ trees.Parenthesised opening (expr_of inner.tree.value) close) }
    ensures height { IfOk result (λ f. f.height ≡ suc inner.height) }
{
    let height = inner.height + 1;
    found_of(
        alloc,
        Expression::Parenthesised(opening, inner.tree, close),
        height,
    )
}

/// An operator between two operands (C99 6.5.5 to 6.5.14, and the `,` of 6.5.17).
#[inline(never)]
pub(crate) fn binary_node(
    alloc: Global,
    op: BinaryOp,
    left: Found,
    at: Span,
    right: Found,
) -> Result<Found, NoMemory>
    requires left { left.height ≤ 256 }
    requires right { right.height ≤ 256 }
    ensures tree { IfOk result (λ f. expr_of f.tree.value
        ≡ trees.Binary op (expr_of left.tree.value) at (expr_of right.tree.value)) }
    ensures height { IfOk result (λ f. f.height ≡ suc (max left.height right.height)) }
{
    let height = left.height.max(right.height) + 1;
    found_of(
        alloc,
        Expression::Binary(op, left.tree, at, right.tree),
        height,
    )
}

/// One value.
#[inline(never)]
pub fn one_value(alloc: Global, first: Found) -> Result<Values, NoMemory>
    requires { first.height ≡ expr_height (expr_of first.tree.value) }
    ensures values { IfOk result (λ v. values_of v ≡ (expr_of first.tree.value ∷ [], [])) }
    ensures height { IfOk result (λ v. v.height ≡ height_of_values v) }
    ensures same { IfOk result (λ v. v.height ≡ first.height) }
{
    let mut values = Vec::new(alloc);
    push(&mut values, Box::into_inner(first.tree))?;
    Ok(Values {
        values,
        commas: Vec::new(alloc),
        height: first.height,
    })
}

/// Values with one more behind a comma.
#[inline(never)]
pub fn one_more(before: Values, comma: Span, next: Found) -> Result<Values, NoMemory>
    requires before { before.height ≡ height_of_values before }
    requires next { next.height ≡ expr_height (expr_of next.tree.value) }
    ensures values { IfOk result (λ v. values_of v
        ≡ ((values_of before).0 ++ expr_of next.tree.value ∷ [], (values_of before).1 ++ comma ∷ [])) }
    ensures height { IfOk result (λ v. v.height ≡ height_of_values v) }
    ensures same { IfOk result (λ v. v.height ≡ max before.height next.height) }
{
    let mut values = before.values;
    let mut commas = before.commas;
    let height = before.height.max(next.height);
    push(&mut values, Box::into_inner(next.tree))?;
    push(&mut commas, comma)?;
    Ok(Values {
        values,
        commas,
        height,
    })
}
