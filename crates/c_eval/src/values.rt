//! Tasks that take values and places from the stacks and leave others there (C99 6.5).

ghost use Rattle.std.specs.Prelude.{◌≡◌, IfOk};
ghost use Rattle.c_eval_state.specs.Changes.{Comes, done};
ghost use Rattle.c_eval_state.specs.Left.{left_of};
ghost use Rattle.c_eval_laws.specs.Tasks as tasks;
ghost use Rattle.c_eval_laws.specs.Tasks.{Ahead};
ghost use Rattle.c_tree.specs.Erased.{expression_of};
ghost use Rattle.c_tree.specs.Program.{Program};
ghost use Rattle.c_tree.specs.Store.{State, Gives, Ends};
ghost use Rattle.pcc_base.specs.Outcome.{Listing, Ended};

use c_eval_state::{EvalEnd, Evaluation, Task, Value};
use c_operators::Operator;
use c_tree::{Expression, IntegerType, UnaryOp, ValueType};
use pcc_base::NoMemory;

/// A pointer gives the place that it goes to (C99 6.5.3.2).
pub fn point(left: &mut Evaluation<'_>) -> Result<(), NoMemory>
    requires { (left_of left.old).way ≡ Ahead }
    ensures { IfOk result (λ _. (p : Program) (l : Listing) (s : State)
        → done p l tasks.Points (left_of left.old) s ≡ Gives (left_of left.new) s) }
{
    let pointer = left.take_value();
    left.find(pointer.target())
}

/// A place gives its address (C99 6.5.3.2).
pub(crate) fn take_address(left: &mut Evaluation<'_>) -> Result<(), NoMemory>
    requires { (left_of left.old).way ≡ Ahead }
    ensures { IfOk result (λ _. (p : Program) (l : Listing) (s : State)
        → done p l tasks.Addresses (left_of left.old) s ≡ Gives (left_of left.new) s) }
{
    let place = left.take_place();
    left.hold(place.address())
}

/// An operator on one value (C99 6.5.3.3).
pub(crate) fn apply_unary(
    left: &mut Evaluation<'_>,
    of: IntegerType,
    op: UnaryOp,
) -> Result<(), NoMemory>
    requires { (left_of left.old).way ≡ Ahead }
    ensures { IfOk result (λ _. (p : Program) (l : Listing) (s : State)
        → done p l (tasks.AppliesUnary of op) (left_of left.old) s ≡ Gives (left_of left.new) s) }
{
    let value = left.take_value();
    left.hold(value.unary(of, op))
}

/// An operator on two values, or its trap (C99 6.5.5 to 6.5.12).
pub(crate) fn apply_binary(left: &mut Evaluation<'_>, operator: Operator) -> Result<(), EvalEnd>
    requires { (left_of left.old).way ≡ Ahead }
    ensures { (p : Program) (l : Listing) (s : State)
        → Comes result (done p l (tasks.AppliesBinary operator.within operator.op) (left_of left.old) s)
        (left_of left.new) s }
{
    let second = left.take_value();
    let first = left.take_value();
    match first.binary(operator, second) {
        Ok(value) => {
            left.hold(value)?;
            Ok(())
        }
        Err(trap) => Err(EvalEnd::Trapped(trap)),
    }
}

/// Whether a value counts as true.
pub(crate) fn find_truth(left: &mut Evaluation<'_>) -> Result<(), NoMemory>
    requires { (left_of left.old).way ≡ Ahead }
    ensures { IfOk result (λ _. (p : Program) (l : Listing) (s : State)
        → done p l tasks.Truth (left_of left.old) s ≡ Gives (left_of left.new) s) }
{
    let holds = left.take_value().is_true();
    left.hold(Value::truth(holds))
}

/// One side of `?:` is to be evaluated (C99 6.5.15).
pub fn choose<'a>(
    left: &mut Evaluation<'a>,
    of: ValueType,
    first: &'a Expression,
    second: &'a Expression,
) -> Result<(), NoMemory>
    requires { (left_of left.old).way ≡ Ahead }
    ensures { IfOk result (λ _. (p : Program) (l : Listing) (s : State)
        → done p l (tasks.Chooses of (expression_of first.now) (expression_of second.now)) (left_of left.old) s
        ≡ Gives (left_of left.new) s) }
{
    if left.take_value().is_true() {
        left.next_both(Task::Evaluates(first), Task::Converts(of))
    } else {
        left.next_both(Task::Evaluates(second), Task::Converts(of))
    }
}

/// A value is converted to a type (C99 6.3).
pub fn convert(left: &mut Evaluation<'_>, to: ValueType) -> Result<(), NoMemory>
    requires { (left_of left.old).way ≡ Ahead }
    ensures { IfOk result (λ _. (p : Program) (l : Listing) (s : State)
        → done p l (tasks.Converts to) (left_of left.old) s ≡ Gives (left_of left.new) s) }
{
    let value = left.take_value();
    left.hold(value.in_type(to))
}

/// A value isn't used (C99 6.5.17 and 6.8.3).
pub(crate) fn drop_value(left: &mut Evaluation<'_>)
    requires { (left_of left.old).way ≡ Ahead }
    ensures { (p : Program) (l : Listing) (s : State)
        → done p l tasks.Drops (left_of left.old) s ≡ Gives (left_of left.new) s }
{
    left.take_value();
}

/// The status that `exit` ends with (C99 7.20.4.3).
pub(crate) fn exit_status(left: &mut Evaluation<'_>) -> u8
    ensures { (p : Program) (l : Listing) (s : State)
        → done p l tasks.Exits (left_of left.old) s ≡ Ends (Ended result) s }
{
    left.take_value().low_byte()
}
