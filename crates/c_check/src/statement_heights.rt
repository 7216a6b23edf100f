//! The greatest height of an expression that a statement evaluates.

ghost use Rattle.std.specs.Prelude.{◌≡◌, map, option_map, IfOk};
ghost use Rattle.c_tree.specs.Erased.{boxed_of, first_of, item_of, statement_of, statements_of};
ghost use Rattle.c_tree.specs.Sizes.{first_height, items_height, option_height};
ghost use Rattle.c_tree.specs.Sizes.{statement_height, statements_height};

use crate::expression_heights::{Height, expression, higher, on_one};
use crate::item_heights::item;
use c_tree::{Expression, First, Item, Statement};

/// The height of an expression that may be absent.
fn if_any(value: &Option<Box<Expression>>) -> Height
    ensures { IfOk result (λ n. n ≡ option_height (option_map boxed_of value.now)) }
{
    match value {
        None => Ok(0),
        Some(value) => expression(value),
    }
}

/// The greatest height of several items.
fn items(of: &[Item]) -> Height
    ensures { IfOk result (λ n. n ≡ items_height (map item_of of.now)) }
{
    let mut height = 0u64;
    let mut left = of.len();
    'items: while left > 0 {
        left -= 1;
        height = item(&of[left])?.max(height);
    }
    Ok(height)
}

/// The height of the first part of a `for`.
fn first(of: &First) -> Height
    ensures { IfOk result (λ n. n ≡ first_height (first_of of.now)) }
{
    match of {
        First::Nothing => Ok(0),
        First::Expression(e) => expression(e),
        First::Items(of) => items(of.as_slice()),
    }
}

/// The height of a statement; the value of a switch counts one more.
#[cycle(statement)]
fn statement(s: &Statement) -> Height
    ensures { IfOk result (λ n. n ≡ statement_height (statement_of s.now)) }
{
    match s {
        Statement::Declare(of) => item(of),
        Statement::Empty(_) | Statement::Break(_) | Statement::Continue(_) => Ok(0),
        Statement::Expression(_, e) => expression(e),
        Statement::Block(body) => statements(body.as_slice()),
        Statement::If(_, test, one, other) => {
            let branches = higher(statement(one), statement(other));
            higher(expression(test), branches)
        }
        Statement::While(_, test, body) => higher(expression(test), statement(body)),
        Statement::Do(_, body, test) => higher(statement(body), expression(test)),
        Statement::For(_, start, test, after, body) => {
            let once = higher(first(start), statement(body));
            higher(once, higher(if_any(test), if_any(after)))
        }
        Statement::Switch(_, value, _, body) => {
            higher(on_one(expression(value)), statements(body.as_slice()))
        }
        Statement::Return(_, value) => if_any(value),
    }
}

/// The greatest height of several statements.
#[cycle(statement)]
pub(crate) fn statements(body: &[Statement]) -> Height
    ensures { IfOk result (λ n. n ≡ statements_height (statements_of body.now)) }
{
    let mut height = 0u64;
    let mut left = body.len();
    'body: while left > 0 {
        left -= 1;
        height = statement(&body[left])?.max(height);
    }
    Ok(height)
}
