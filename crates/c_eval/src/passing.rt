//! Tasks are passed over by `break`, `continue` and `return` (C99 6.8.6).

ghost use Rattle.std.specs.Prelude.{◌≡◌, ◌≢◌, IfOk};
ghost use Rattle.c_eval_state.specs.Left.{left_of};
ghost use Rattle.c_eval.specs.Passing.{IsOther, giving_returned, passed};
ghost use Rattle.c_eval_state.specs.Views.{part_task, task_of};
ghost use Rattle.c_eval_state.specs.declared.task.StatementPart.TheVariants as parts;
ghost use Rattle.c_eval_state.specs.Kept.{over};
ghost use Rattle.c_eval_laws.specs.Tasks as tasks;
ghost use Rattle.c_eval_laws.specs.Tasks.{Continuing};
ghost use Rattle.c_tree.specs.Erased.{function_of, statement_of};
ghost use Rattle.c_tree.specs.Store.{State, Gives};

use crate::statements::go_again;
use c_eval_state::{Evaluation, StatementPart, Store, Task, Value, Way};
use c_tree::{Function, Statement};
use pcc_base::NoMemory;

/// A loop goes on behind its body, to which `continue` goes; a `switch` is passed over.
fn continue_behind<'a>(left: &mut Evaluation<'a>, x: &'a Statement) -> Result<(), NoMemory>
    requires { (left_of left.old).way ≡ Continuing }
    ensures { IfOk result (λ _. (s : State) → passed (part_task parts.Body (statement_of x.now)) (left_of left.old) s
        ≡ Gives (left_of left.new) s) }
{
    match x {
        Statement::While(_, _, _) => {
            left.pass_over(Way::Ahead);
            left.next(Task::Goes(StatementPart::Turn, x))
        }
        Statement::For(_, _, _, after, _) => {
            left.pass_over(Way::Ahead);
            go_again(left, after, x)
        }
        Statement::Do(_, _, e) => {
            left.pass_over(Way::Ahead);
            left.next_both(Task::Evaluates(e), Task::Goes(StatementPart::Test, x))
        }
        _ => Ok(()),
    }
}

/// What `break`, `continue` and `return` do behind the body of a loop or `switch`.
#[tactic(auto, using(crate::proofs::Passed::break_leaves, crate::proofs::Passed::return_passes))]
fn pass_body<'a>(left: &mut Evaluation<'a>, x: &'a Statement) -> Result<(), NoMemory>
    requires { (left_of left.old).way ≢ tasks.Ahead }
    ensures { IfOk result (λ _. (s : State) → passed (part_task parts.Body (statement_of x.now)) (left_of left.old) s
        ≡ Gives (left_of left.new) s) }
{
    match left.way() {
        Way::Breaking => {
            left.pass_over(Way::Ahead);
            Ok(())
        }
        Way::Continuing => continue_behind(left, x),
        Way::Returning | Way::Ahead => Ok(()),
    }
}

/// A function that ends without returning a value gives 0 (C99 6.9.1p12).
fn give_returned(left: &mut Evaluation<'_>) -> Result<(), NoMemory>
    ensures { IfOk result (λ _. left_of left.new ≡ giving_returned (left_of left.old)) }
{
    match left.way() {
        Way::Returning => Ok(()),
        Way::Ahead | Way::Breaking | Way::Continuing => left.hold(Value::Number(0)),
    }
}

/// The end of a function.
#[tactic(auto, using(crate::proofs::Passed::return_passed))]
pub(crate) fn pass_return<'a>(
    left: &mut Evaluation<'a>,
    store: &mut Store,
    caller: &'a Function,
) -> Result<(), NoMemory>
    ensures { IfOk result (λ _. (s : State) → passed (tasks.ReturnsTo (function_of caller.now)) (left_of left.old)
        (over s store.old) ≡ Gives (left_of left.new) (over s store.new)) }
{
    give_returned(left)?;
    left.return_to(caller);
    store.leave();
    Ok(())
}

/// Any other task is passed over.
#[tactic(auto, using(crate::proofs::Passed::plain_passed, crate::proofs::Passed::other_plain))]
fn pass_other(left: &Evaluation<'_>, task: Task<'_>)
    requires { IsOther task }
    ensures { (s : State) → passed (task_of task.entry) (left_of left.now) s ≡ Gives (left_of left.now) s }
{}

/// A task is passed over.
pub fn pass<'a>(
    left: &mut Evaluation<'a>,
    store: &mut Store,
    task: Task<'a>,
) -> Result<(), NoMemory>
    requires { (left_of left.old).way ≢ tasks.Ahead }
    ensures { IfOk result (λ _. (s : State) → passed (task_of task.entry) (left_of left.old) (over s store.old)
        ≡ Gives (left_of left.new) (over s store.new)) }
{
    match task {
        Task::Goes(StatementPart::Body, x) => pass_body(left, x),
        Task::ReturnsTo(caller) => pass_return(left, store, caller),
        other => {
            pass_other(left, other);
            Ok(())
        }
    }
}
