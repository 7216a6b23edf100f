//! Expressions that are found, or begun, without a task for each of their parts.

ghost use Rattle.std.specs.Prelude.{◌≡◌, IfOk};
ghost use Rattle.c_eval_state.specs.Left.{left_of};
ghost use Rattle.c_eval.specs.AtOnce.{IsApplied, IsLocalNumber, IsNumber, Shortened};
ghost use Rattle.c_eval_laws.specs.Tasks.{Ahead};
ghost use Rattle.c_tree.specs.Erased.{expression_of};

use crate::operators::operator_on;
use c_eval_state::{Evaluation, Place as Found, Store, Task, Value};
use c_operators::{Operator, binary_number, convert};
use c_tree::{Expression, Place};
use pcc_base::NoMemory;

/// How many operators deep a number is looked for. It bounds the stack that this takes, and how often an expression is
/// looked at whose number isn't found.
const DEPTH: u32 = 6;

/// The number that a local holds; none where it holds a pointer.
#[inline(always)]
fn local_number(store: &Store, local: u32) -> Option<i32>
    ensures { IsLocalNumber local store.now result }
{
    match store.local(local) {
        Value::Number(n) => Some(n),
        Value::Pointer { .. } => None,
    }
}

/// What an operator gives of two numbers; none where it traps.
#[inline(always)]
fn applied(operator: Operator, a: i32, b: i32) -> Option<i32>
    ensures { IsApplied operator.within operator.op a b result }
{
    match binary_number(operator, a, b) {
        Ok(n) => Some(n),
        Err(_) => None,
    }
}

/// The number of an expression of constants, locals and operators, so many of them deep; none where it is any other, or
/// traps.
fn number(store: &Store, e: &Expression, depth: u32) -> Option<i32>
    ensures { IsNumber (expression_of e.now) store.now result }
{
    match e {
        Expression::Constant(of, n) => Some(convert(*of, *n)),
        Expression::Read(_, Place::Local(local)) => local_number(store, *local),
        Expression::Binary(_, op, a, b) => {
            if depth == 0 {
                return None;
            }
            match number(store, a, depth - 1) {
                Some(first) => match number(store, b, depth - 1) {
                    Some(second) => applied(operator_on(*op, a, b), first, second),
                    None => None,
                },
                None => None,
            }
        }
        _ => None,
    }
}

/// An expression, as far as it goes at once: the task that is left to do of it before all others, or none where its
/// value is there.
pub(crate) fn shorten<'a>(
    left: &mut Evaluation<'a>,
    store: &Store,
    e: &'a Expression,
) -> Result<Option<Task<'a>>, NoMemory>
    requires { (left_of left.old).way ≡ Ahead }
    ensures { IfOk result (λ task. Shortened (expression_of e.now) store.now (left_of left.old) (left_of left.new)
        task) }
{
    match e {
        Expression::Assign(of, Place::Local(local), value) => match number(store, value, DEPTH) {
            Some(n) => {
                left.find(Found::Local(*local))?;
                left.hold(Value::Number(n))?;
                Ok(Some(Task::Stores(*of)))
            }
            None => Ok(Some(Task::Evaluates(e))),
        },
        Expression::Step(of, op, Place::Local(local)) => {
            left.find(Found::Local(*local))?;
            left.hold(store.local(*local))?;
            Ok(Some(Task::Steps(*of, *op)))
        }
        _ => match number(store, e, DEPTH) {
            Some(n) => {
                left.hold(Value::Number(n))?;
                Ok(None)
            }
            None => Ok(Some(Task::Evaluates(e))),
        },
    }
}
