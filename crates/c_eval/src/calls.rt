//! Arguments and calls (C99 6.5.2.2).

ghost use Rattle.std.specs.Prelude.{◌≡◌, ◌≤◌, ◌<◌, IfOk, [], length, pos};
ghost use Rattle.c_eval_state.specs.Changes.{calling, done, holding, without_values};
ghost use Rattle.c_eval_state.specs.Left.{left_of};
ghost use Rattle.c_eval_state.specs.Views.{arguments_from};
ghost use Rattle.c_eval_state.specs.Kept.{entered, over};
ghost use Rattle.c_eval_laws.specs.Tasks as tasks;
ghost use Rattle.c_eval_laws.specs.Tasks.{Ahead, put_before};
ghost use Rattle.c_tree.specs.Erased.{function_of};
ghost use Rattle.c_tree.specs.Evaluation.{most_active};
ghost use Rattle.c_tree.specs.Program.{Program};
ghost use Rattle.c_tree.specs.Store.{State, Gives, HoldsNumber};
ghost use Rattle.pcc_base.specs.Outcome.{Listing};

use c_eval_state::{Evaluation, Store, Task, Value};
use c_tree::{Expression, Function};
use pcc_base::NoMemory;

/// The next argument of a call is to be evaluated.
#[tactic(auto, using(c_eval_state::proofs::Stacking::arguments_here))]
pub(crate) fn pass_argument<'a>(
    left: &mut Evaluation<'a>,
    function: u32,
    arguments: &'a [Expression],
    count: usize,
) -> Result<(), NoMemory>
    requires way { (left_of left.old).way ≡ Ahead }
    requires count { count < length arguments.now }
    ensures { IfOk result (λ _. (p : Program) (l : Listing) (s : State)
        → done p l (tasks.Passes function (arguments_from count arguments.now) count) (left_of left.old) s
        ≡ Gives (left_of left.new) s) }
{
    left.next_both(
        Task::Evaluates(&arguments[count]),
        Task::Passes(function, arguments, count + 1),
    )
}

/// A call of a function that isn't there, which no typed program has, gives 0.
pub fn call_none(left: &mut Evaluation<'_>, count: usize) -> Result<(), NoMemory>
    requires { count ≤ length (left_of left.old).values }
    ensures { IfOk result (λ _. left_of left.new
        ≡ holding (HoldsNumber (pos 0)) (without_values count (left_of left.old))) }
{
    left.drop_values(count);
    left.hold(Value::Number(0))
}

/// The body of a function begins, in a call of its own with the last so many values as its arguments, and the tasks of
/// the function that calls stand behind it.
pub fn call<'a>(
    left: &mut Evaluation<'a>,
    store: &mut Store,
    function: &'a Function,
    count: usize,
) -> Result<(), NoMemory>
    requires count { count ≤ length (left_of left.old).values }
    requires depth { length store.old.active < most_active }
    ensures left { IfOk result (λ _. left_of left.new ≡ calling (function_of function.now) count (left_of left.old)) }
    ensures store { IfOk result (λ _. (s : State) → over s store.new
        ≡ entered (function_of function.now) (put_before count (left_of left.old).values []) (over s store.old)) }
{
    enter_with(left, store, function, count)?;
    left.drop_values(count);
    let caller = left.function();
    left.next_both(
        Task::Follows(function.body.as_slice()),
        Task::ReturnsTo(caller),
    )?;
    left.return_to(function);
    Ok(())
}

/// A call begins, with the last so many values as its arguments.
fn enter_with(
    left: &Evaluation<'_>,
    store: &mut Store,
    function: &Function,
    count: usize,
) -> Result<(), NoMemory>
    requires count { count ≤ length (left_of left.now).values }
    requires depth { length store.old.active < most_active }
    ensures { IfOk result (λ _. (s : State) → over s store.new
        ≡ entered (function_of function.now) (put_before count (left_of left.now).values []) (over s store.old)) }
{
    let arguments = left.last_values(count);
    store.enter(function, arguments)?;
    Ok(())
}
