//! Tasks that load and store (C99 6.3.2.1 and 6.5.16).

ghost use Rattle.std.specs.Prelude.{◌≡◌};
ghost use Rattle.c_eval_state.specs.Changes.{Comes, done};
ghost use Rattle.c_eval_state.specs.Left.{left_of};
ghost use Rattle.c_eval_state.specs.Kept.{over};
ghost use Rattle.c_eval_laws.specs.Tasks as tasks;
ghost use Rattle.c_eval_laws.specs.Tasks.{Ahead};
ghost use Rattle.c_tree.specs.Operators.{step_op, step_result, step_type};
ghost use Rattle.c_eval_state.specs.Values.{held_of};
ghost use Rattle.c_tree.specs.Program.{Program};
ghost use Rattle.c_tree.specs.Store.{State, Gives};
ghost use Rattle.pcc_base.specs.Outcome.{Listing};

use c_eval_state::{EvalEnd, Evaluation, Store, Value};
use c_operators::{Operator, working_type};
use c_tree::{BinaryOp, IntegerType, StepOp, ValueType};
use pcc_base::Trap;

/// A place gives what is there.
pub fn load(left: &mut Evaluation<'_>, store: &Store) -> Result<(), EvalEnd>
    requires { (left_of left.old).way ≡ Ahead }
    ensures { (p : Program) (l : Listing) (s : State)
        → Comes result (done p l tasks.Loads (left_of left.old) (over s store.now)) (left_of left.new)
        (over s store.now) }
{
    let place = left.take_place();
    match store.load(place) {
        Some(value) => {
            left.hold(value)?;
            Ok(())
        }
        None => Err(EvalEnd::Trapped(Trap::Check)),
    }
}

/// A place gives what is there, and stays.
pub fn load_old(left: &mut Evaluation<'_>, store: &Store) -> Result<(), EvalEnd>
    requires { (left_of left.old).way ≡ Ahead }
    ensures { (p : Program) (l : Listing) (s : State)
        → Comes result (done p l tasks.LoadsOld (left_of left.old) (over s store.now)) (left_of left.new)
        (over s store.now) }
{
    match store.load(left.last_place()) {
        Some(value) => {
            left.hold(value)?;
            Ok(())
        }
        None => Err(EvalEnd::Trapped(Trap::Check)),
    }
}

/// A value is stored to a place, in its type (C99 6.5.16.1).
pub fn assign(left: &mut Evaluation<'_>, store: &mut Store, of: ValueType) -> Result<(), EvalEnd>
    requires { (left_of left.old).way ≡ Ahead }
    ensures { (p : Program) (l : Listing) (s : State)
        → Comes result (done p l (tasks.Stores of) (left_of left.old) (over s store.old)) (left_of left.new)
        (over s store.new) }
{
    let value = left.take_value().in_type(of);
    let place = left.take_place();
    if store.store(place, value) {
        left.hold(value)?;
        return Ok(());
    }
    Err(EvalEnd::Trapped(Trap::Check))
}

/// The operator of `++` and `--` (C99 6.5.2.4 and 6.5.3.1).
fn step_op(op: StepOp) -> BinaryOp
    ensures { result ≡ step_op op }
{
    match op {
        StepOp::PreIncrement | StepOp::PostIncrement => BinaryOp::Add,
        StepOp::PreDecrement | StepOp::PostDecrement => BinaryOp::Subtract,
    }
}

/// The operator of `++` and `--` on a place of the type, with the type that it works in.
fn step_operator(op: StepOp, of: ValueType) -> Operator
    ensures op { result.op ≡ step_op op }
    ensures within { result.within ≡ step_type op of }
{
    let op = step_op(op);
    Operator {
        op,
        within: working_type(op, of, ValueType::Integer(IntegerType::Int)),
    }
}

/// The value of `++` and `--`: the new one before the operand, and the old one behind it.
fn step_result(op: StepOp, old: Value, new: Value) -> Value
    ensures { held_of result ≡ step_result op (held_of old) (held_of new) }
{
    match op {
        StepOp::PreIncrement | StepOp::PreDecrement => new,
        StepOp::PostIncrement | StepOp::PostDecrement => old,
    }
}

/// `++` and `--` (C99 6.5.2.4 and 6.5.3.1).
pub fn step(
    left: &mut Evaluation<'_>,
    store: &mut Store,
    of: ValueType,
    op: StepOp,
) -> Result<(), EvalEnd>
    requires { (left_of left.old).way ≡ Ahead }
    ensures { (p : Program) (l : Listing) (s : State)
        → Comes result (done p l (tasks.Steps of op) (left_of left.old) (over s store.old)) (left_of left.new)
        (over s store.new) }
{
    let old = left.take_value();
    let place = left.take_place();
    match old.binary(step_operator(op, of), Value::Number(1)) {
        Ok(new) => {
            let new = new.in_type(of);
            if store.store(place, new) {
                left.hold(step_result(op, old, new))?;
                return Ok(());
            }
            Err(EvalEnd::Trapped(Trap::Check))
        }
        Err(trap) => Err(EvalEnd::Trapped(trap)),
    }
}

/// A local gets its first value (C99 6.7.8).
pub fn initialise(left: &mut Evaluation<'_>, store: &mut Store, local: u32, of: ValueType)
    requires { (left_of left.old).way ≡ Ahead }
    ensures { (p : Program) (l : Listing) (s : State)
        → done p l (tasks.Initialises local of) (left_of left.old) (over s store.old)
        ≡ Gives (left_of left.new) (over s store.new) }
{
    let value = left.take_value().in_type(of);
    store.set_local(local, value);
}
