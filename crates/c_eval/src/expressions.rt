//! Expressions and places are taken apart (C99 6.5).

ghost use Rattle.std.specs.Prelude.{◌≡◌, IfOk};
ghost use Rattle.c_eval_state.specs.Left.{left_of};
ghost use Rattle.c_eval_state.specs.Changes.{IsAccess, IsOnOperands, TakenApart, expression_done, place_done};
ghost use Rattle.c_eval_state.specs.Kept.{over};
ghost use Rattle.c_eval_laws.specs.Tasks.{Ahead};
ghost use Rattle.c_tree.specs.Erased.{expression_of, place_of};
ghost use Rattle.c_tree.specs.Store.{State, Gives};

use crate::operators::begin_binary;
use c_eval_state::{Evaluation, Place as Found, Store, Task, Value};
use c_operators::{Operator, working_type};
use c_tree::{BinaryOp, Expression, IntegerType, Place, ValueType};
use pcc_base::NoMemory;

/// The operand of an expression, or the first of several, is to be evaluated.
fn begin_operands<'a>(left: &mut Evaluation<'a>, e: &'a Expression) -> Result<(), NoMemory>
    requires way { (left_of left.old).way ≡ Ahead }
    requires operands { IsOnOperands (expression_of e.now) }
    ensures { IfOk result (λ _. (s : State)
        → expression_done (expression_of e.now) (left_of left.old) s ≡ Gives (left_of left.new) s) }
{
    match e {
        Expression::Unary(of, op, e) => {
            left.next_both(Task::Evaluates(e), Task::AppliesUnary(*of, *op))
        }
        Expression::Binary(_, op, a, b) => begin_binary(left, *op, a, b),
        Expression::And(a, b) => left.next_both(Task::Evaluates(a), Task::AndThen(b)),
        Expression::Or(a, b) => left.next_both(Task::Evaluates(a), Task::OrElse(b)),
        Expression::Conditional(of, test, a, b) => {
            left.next_both(Task::Evaluates(test), Task::Chooses(*of, a, b))
        }
        Expression::Cast(to, e) => left.next_both(Task::Evaluates(e), Task::Converts(*to)),
        Expression::Comma(a, b) => {
            left.next_three(Task::Evaluates(a), Task::Drops, Task::Evaluates(b))
        }
        Expression::Putchar(e) => left.next_both(Task::Evaluates(e), Task::Puts),
        Expression::Exit(e) => left.next_both(Task::Evaluates(e), Task::Exits),
        Expression::Constant(_, _)
        | Expression::Start(_, _)
        | Expression::Read(_, _)
        | Expression::Address(_, _)
        | Expression::Assign(_, _, _)
        | Expression::Update(_, _, _, _)
        | Expression::Step(_, _, _)
        | Expression::Call(_, _, _)
        | Expression::Getchar => Ok(()),
    }
}

/// The place that an expression reads, stores to or takes the address of is to be found.
fn begin_access<'a>(left: &mut Evaluation<'a>, e: &'a Expression) -> Result<(), NoMemory>
    requires way { (left_of left.old).way ≡ Ahead }
    requires access { IsAccess (expression_of e.now) }
    ensures { IfOk result (λ _. (s : State)
        → expression_done (expression_of e.now) (left_of left.old) s ≡ Gives (left_of left.new) s) }
{
    match e {
        Expression::Read(_, place) => left.next_both(Task::Locates(place), Task::Loads),
        Expression::Address(_, place) => left.next_both(Task::Locates(place), Task::Addresses),
        Expression::Assign(of, place, e) => {
            left.next_three(Task::Locates(place), Task::Evaluates(e), Task::Stores(*of))
        }
        Expression::Update(of, op, place, e) => left.next_four(
            Task::Locates(place),
            Task::LoadsOld,
            Task::Evaluates(e),
            Task::Updates(
                *of,
                Operator {
                    op: *op,
                    within: working_type(*op, *of, e.value_type()),
                },
            ),
        ),
        Expression::Step(of, op, place) => {
            left.next_three(Task::Locates(place), Task::LoadsOld, Task::Steps(*of, *op))
        }
        _ => Ok(()),
    }
}

/// An expression is taken apart, or its value is known; `false` and nothing done for `getchar`.
#[tactic(auto, using(crate::proofs::Rows::row_is))]
pub(crate) fn take_apart<'a>(
    left: &mut Evaluation<'a>,
    store: &Store,
    e: &'a Expression,
) -> Result<bool, NoMemory>
    requires { (left_of left.old).way ≡ Ahead }
    ensures { IfOk result (λ done. (s : State)
        → TakenApart done (expression_of e.now) (left_of left.old) (left_of left.new) (over s store.now)) }
{
    match e {
        Expression::Constant(of, n) => {
            left.hold(Value::Number(*n).in_type(ValueType::Integer(*of)))?
        }
        Expression::Start(_, array) => left.hold(Value::Pointer {
            array: store.array_of(*array),
            index: 0,
        })?,
        Expression::Read(_, _)
        | Expression::Address(_, _)
        | Expression::Assign(_, _, _)
        | Expression::Update(_, _, _, _)
        | Expression::Step(_, _, _) => begin_access(left, e)?,
        Expression::Unary(_, _, _)
        | Expression::Binary(_, _, _, _)
        | Expression::And(_, _)
        | Expression::Or(_, _)
        | Expression::Conditional(_, _, _, _)
        | Expression::Cast(_, _)
        | Expression::Comma(_, _)
        | Expression::Putchar(_)
        | Expression::Exit(_) => begin_operands(left, e)?,
        Expression::Call(_, function, arguments) => {
            left.next(Task::Passes(*function, arguments.as_slice(), 0))?
        }
        Expression::Getchar => return Ok(false),
    }
    Ok(true)
}

/// A place is found, or its pointer is to be evaluated.
pub fn locate<'a>(left: &mut Evaluation<'a>, place: &'a Place) -> Result<(), NoMemory>
    requires { (left_of left.old).way ≡ Ahead }
    ensures { IfOk result (λ _. (s : State)
        → place_done (place_of place.now) (left_of left.old) s ≡ Gives (left_of left.new) s) }
{
    match place {
        Place::Local(local) => left.find(Found::Local(*local)),
        Place::Static(object) => left.find(Found::Object(*object)),
        Place::Target(_, e) => left.next_both(Task::Evaluates(e), Task::Points),
        Place::Element(_, array, index) => left.next_four(
            Task::Evaluates(array),
            Task::Evaluates(index),
            Task::AppliesBinary(Operator {
                op: BinaryOp::Add,
                within: IntegerType::Int,
            }),
            Task::Points,
        ),
    }
}
