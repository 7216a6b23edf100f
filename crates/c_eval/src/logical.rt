//! `&&` and `||`, whose left side may give the whole (C99 6.5.13 and 6.5.14).

ghost use Rattle.std.specs.Prelude.{◌≡◌, IfOk};
ghost use Rattle.c_eval_state.specs.Changes.{done};
ghost use Rattle.c_eval_state.specs.Left.{left_of};
ghost use Rattle.c_eval_laws.specs.Tasks as tasks;
ghost use Rattle.c_eval_laws.specs.Tasks.{Ahead};
ghost use Rattle.c_tree.specs.Erased.{expression_of};
ghost use Rattle.c_tree.specs.Program.{Program};
ghost use Rattle.c_tree.specs.Store.{State, Gives};
ghost use Rattle.pcc_base.specs.Outcome.{Listing};

use c_eval_state::{Evaluation, Task, Value};
use c_tree::Expression;
use pcc_base::NoMemory;

/// The left side of `&&` gives the whole, or the right side is to be evaluated (C99 6.5.13).
pub fn and_then<'a>(left: &mut Evaluation<'a>, right: &'a Expression) -> Result<(), NoMemory>
    requires { (left_of left.old).way ≡ Ahead }
    ensures { IfOk result (λ _. (p : Program) (l : Listing) (s : State)
        → done p l (tasks.AndThen (expression_of right.now)) (left_of left.old) s ≡ Gives (left_of left.new) s) }
{
    if left.take_value().is_true() {
        left.next_both(Task::Evaluates(right), Task::Truth)
    } else {
        left.hold(Value::truth(false))
    }
}

/// The left side of `||` gives the whole, or the right side is to be evaluated (C99 6.5.14).
pub fn or_else<'a>(left: &mut Evaluation<'a>, right: &'a Expression) -> Result<(), NoMemory>
    requires { (left_of left.old).way ≡ Ahead }
    ensures { IfOk result (λ _. (p : Program) (l : Listing) (s : State)
        → done p l (tasks.OrElse (expression_of right.now)) (left_of left.old) s ≡ Gives (left_of left.new) s) }
{
    if left.take_value().is_true() {
        left.hold(Value::truth(true))
    } else {
        left.next_both(Task::Evaluates(right), Task::Truth)
    }
}
