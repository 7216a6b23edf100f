//! Operators on two operands, of which the left one comes first, and on what was at a place (C99 6.5).

ghost use Rattle.std.specs.Prelude.{◌≡◌, IfOk};
ghost use Rattle.c_eval_state.specs.Changes.{Comes, doing_three, done};
ghost use Rattle.c_eval_state.specs.Left.{left_of};
ghost use Rattle.c_eval_state.specs.Kept.{over};
ghost use Rattle.c_eval_laws.specs.Tasks as tasks;
ghost use Rattle.c_eval_laws.specs.Tasks.{Ahead, AppliesBinary, Evaluates};
ghost use Rattle.c_tree.specs.Erased.{expression_of};
ghost use Rattle.c_tree.specs.Operators.{working_type};
ghost use Rattle.c_tree.specs.Program.{Program, value_type};
ghost use Rattle.c_tree.specs.Store.{State};
ghost use Rattle.pcc_base.specs.Outcome.{Listing};

use c_eval_state::{EvalEnd, Evaluation, Store, Task};
use c_operators::{Operator, working_type};
use c_tree::{BinaryOp, Expression, ValueType};
use pcc_base::{NoMemory, Trap};

/// An operator on two expressions, with the type that it works in.
#[inline(always)]
pub(crate) fn operator_on(op: BinaryOp, first: &Expression, second: &Expression) -> Operator
    ensures op { result.op ≡ op }
    ensures within { result.within
        ≡ working_type op (value_type (expression_of first.now)) (value_type (expression_of second.now)) }
{
    Operator {
        op,
        within: working_type(op, first.value_type(), second.value_type()),
    }
}

/// Both operands of an operator are to be evaluated, the left one first, and then the operator (C99 6.5.5 to 6.5.12).
pub(crate) fn begin_binary<'a>(
    left: &mut Evaluation<'a>,
    op: BinaryOp,
    first: &'a Expression,
    second: &'a Expression,
) -> Result<(), NoMemory>
    ensures { IfOk result (λ _. left_of left.new
        ≡ doing_three (Evaluates (expression_of first.now)) (Evaluates (expression_of second.now))
        (AppliesBinary (working_type op (value_type (expression_of first.now)) (value_type (expression_of second.now)))
        op) (left_of left.old)) }
{
    left.next_three(
        Task::Evaluates(first),
        Task::Evaluates(second),
        Task::AppliesBinary(operator_on(op, first, second)),
    )
}

/// An operator on what was at a place and a value, whose result is stored there (C99 6.5.16.2).
pub fn update(
    left: &mut Evaluation<'_>,
    store: &mut Store,
    of: ValueType,
    operator: Operator,
) -> Result<(), EvalEnd>
    requires { (left_of left.old).way ≡ Ahead }
    ensures { (p : Program) (l : Listing) (s : State)
        → Comes result
        (done p l (tasks.Updates of operator.within operator.op) (left_of left.old) (over s store.old))
        (left_of left.new) (over s store.new) }
{
    let value = left.take_value();
    let old = left.take_value();
    let place = left.take_place();
    match old.binary(operator, value) {
        Ok(new) => {
            let new = new.in_type(of);
            if store.store(place, new) {
                left.hold(new)?;
                return Ok(());
            }
            Err(EvalEnd::Trapped(Trap::Check))
        }
        Err(trap) => Err(EvalEnd::Trapped(trap)),
    }
}
