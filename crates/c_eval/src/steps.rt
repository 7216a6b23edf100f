//! The step of the task that is to be done before all others, up to what moves bytes or takes a turn.

ghost use Rattle.std.specs.Prelude.{◌≡◌, ◌≤◌, IfOk, length};
ghost use Rattle.c_eval_state.specs.Changes.{Comes, done};
ghost use Rattle.c_eval_state.specs.Left.{left_of};
ghost use Rattle.c_eval_state.specs.Views.{arguments_from, part_task, task_of};
ghost use Rattle.c_eval_state.specs.Changes.{doing};
ghost use Rattle.c_eval_state.specs.declared.task.StatementPart.TheVariants as parts;
ghost use Rattle.c_eval.specs.Performs.{Fits, IsOnStacks, IsPlain, Performed, is_loop};
ghost use Rattle.c_eval_state.specs.Kept.{over};
ghost use Rattle.c_eval_laws.specs.Tasks as tasks;
ghost use Rattle.c_eval_laws.specs.Tasks.{Ahead};
ghost use Rattle.c_tree.specs.Erased.{program_of, statement_of};
ghost use Rattle.c_tree.specs.Program as typed;
ghost use Rattle.c_tree.specs.Store.{State, Gives};
ghost use Rattle.pcc_base.specs.Outcome.{Listing};

use crate::logical::{and_then, or_else};
use crate::next::{Next, Turn};
use crate::operators::update;
use crate::{calls, expressions, items, passing, statements, stores, values};
use c_eval_state::{EvalEnd, Evaluation, StatementPart, Store, Task};
use c_tree::{Expression, Program, Statement};
use pcc_base::NoMemory;

/// A task that needs the stacks alone, and after which the program goes on.
fn perform_on_stacks<'a>(left: &mut Evaluation<'a>, task: Task<'a>) -> Result<(), NoMemory>
    requires way { (left_of left.old).way ≡ Ahead }
    requires task { IsOnStacks task }
    ensures { IfOk result (λ _. (p : typed.Program) (l : Listing) (s : State)
        → done p l (task_of task.entry) (left_of left.old) s ≡ Gives (left_of left.new) s) }
{
    match task {
        Task::Locates(place) => expressions::locate(left, place),
        Task::Points => values::point(left),
        Task::Addresses => values::take_address(left),
        Task::AppliesUnary(of, op) => values::apply_unary(left, of, op),
        Task::AndThen(right) => and_then(left, right),
        Task::OrElse(right) => or_else(left, right),
        Task::Truth => values::find_truth(left),
        Task::Chooses(of, first, second) => values::choose(left, of, first, second),
        Task::Converts(to) => values::convert(left, to),
        Task::Drops => {
            values::drop_value(left);
            Ok(())
        }
        Task::DeclaresAll(items) => items::declare_next(left, items),
        Task::Fills(array, element, elements, place) => {
            items::fill(left, array, element, elements, place)
        }
        Task::Follows(row) => statements::follow(left, row),
        Task::ReturnsValue(result) => statements::return_value(left, result),
        Task::Evaluates(_)
        | Task::AppliesBinary(_)
        | Task::Exits
        | Task::Puts
        | Task::Passes(_, _, _)
        | Task::Goes(_, _)
        | Task::Declares(_)
        | Task::Loads
        | Task::LoadsOld
        | Task::Stores(_)
        | Task::Updates(_, _)
        | Task::Steps(_, _)
        | Task::Initialises(_, _)
        | Task::FillsElement(_, _, _, _)
        | Task::ReturnsTo(_) => Ok(()),
    }
}

/// A task that waits for nothing and visits nothing.
fn perform_plain<'a>(
    left: &mut Evaluation<'a>,
    store: &mut Store,
    task: Task<'a>,
) -> Result<(), EvalEnd>
    requires way { (left_of left.old).way ≡ Ahead }
    requires task { IsPlain task }
    ensures { (p : typed.Program) (l : Listing) (s : State)
        → Comes result (done p l (task_of task.entry) (left_of left.old) (over s store.old)) (left_of left.new)
        (over s store.new) }
{
    match task {
        Task::Loads => stores::load(left, store),
        Task::LoadsOld => stores::load_old(left, store),
        Task::Stores(of) => stores::assign(left, store, of),
        Task::Updates(of, operator) => update(left, store, of, operator),
        Task::Steps(of, op) => stores::step(left, store, of, op),
        Task::Initialises(local, of) => {
            stores::initialise(left, store, local, of);
            Ok(())
        }
        Task::FillsElement(array, element, elements, place) => {
            items::fill_element(left, store, array, element, elements, place)
        }
        Task::ReturnsTo(caller) => Ok(passing::pass_return(left, store, caller)?),
        Task::AppliesBinary(operator) => values::apply_binary(left, operator),
        Task::Exits => Err(EvalEnd::Ended(values::exit_status(left))),
        other => Ok(perform_on_stacks(left, other)?),
    }
}

/// The next argument of a call, or its turn.
fn perform_call<'a>(
    left: &mut Evaluation<'a>,
    store: &Store,
    program: &'a Program,
    function: u32,
    arguments: &'a [Expression],
    count: usize,
) -> Result<Next<'a>, EvalEnd>
    requires way { (left_of left.old).way ≡ Ahead }
    requires count { count ≤ length (left_of left.old).values }
    ensures { Performed (program_of program.now)
        (tasks.Passes function (arguments_from count arguments.now) count) (left_of left.old) store.now
        (left_of left.new) store.now result }
{
    if count < arguments.len() {
        calls::pass_argument(left, function, arguments, count)?;
        return Ok(Next::Nothing);
    }
    match program.functions.get(function as usize) {
        Some(called) => Ok(Next::Begins(Turn::Call(called, count))),
        None => {
            calls::call_none(left, count)?;
            Ok(Next::Nothing)
        }
    }
}

/// A statement that takes turns (C99 6.8.5).
fn is_loop(x: &Statement) -> bool
    ensures { result ≡ is_loop (statement_of x.now) }
{
    match x {
        Statement::While(_, _, _) | Statement::Do(_, _, _) | Statement::For(_, _, _, _, _) => true,
        _ => false,
    }
}

/// A loop before a turn, which waits for it.
fn perform_turn<'a>(
    left: &mut Evaluation<'a>,
    store: &Store,
    program: &Program,
    x: &'a Statement,
) -> Result<Next<'a>, EvalEnd>
    requires { (left_of left.old).way ≡ Ahead }
    ensures { Performed (program_of program.now) (part_task parts.Turn (statement_of x.now)) (left_of left.old)
        store.now (left_of left.new) store.now result }
{
    if is_loop(x) {
        return Ok(Next::Begins(Turn::Loop(x)));
    }
    values::drop_value(left);
    Ok(Next::Nothing)
}

/// A part of a statement.
fn perform_part<'a>(
    left: &mut Evaluation<'a>,
    store: &Store,
    program: &Program,
    part: StatementPart,
    x: &'a Statement,
) -> Result<Next<'a>, EvalEnd>
    requires { (left_of left.old).way ≡ Ahead }
    ensures { Performed (program_of program.now) (part_task part (statement_of x.now)) (left_of left.old)
        store.now (left_of left.new) store.now result }
{
    match part {
        StatementPart::Start => {
            statements::start(left, x)?;
            Ok(Next::Nothing)
        }
        StatementPart::Turn => perform_turn(left, store, program, x),
        StatementPart::Test => {
            statements::go_behind_test(left, x)?;
            Ok(Next::Nothing)
        }
        StatementPart::Body => {
            statements::go_behind_body(left, x)?;
            Ok(Next::Nothing)
        }
    }
}

/// A task that was taken is done, or it waits.
pub fn perform<'a>(
    left: &mut Evaluation<'a>,
    store: &mut Store,
    program: &'a Program,
    task: Task<'a>,
) -> Result<Next<'a>, EvalEnd>
    requires way { (left_of left.old).way ≡ Ahead }
    requires fits { Fits (doing (task_of task) (left_of left.old)) }
    ensures { Performed (program_of program.now) (task_of task.entry) (left_of left.old) store.old (left_of left.new)
        store.new result }
{
    match task {
        Task::Evaluates(e) => {
            if expressions::take_apart(left, store, e)? {
                Ok(Next::Nothing)
            } else {
                Ok(Next::Byte)
            }
        }
        Task::Puts => Ok(Next::Room),
        Task::Passes(function, arguments, count) => {
            perform_call(left, store, program, function, arguments, count)
        }
        Task::Goes(part, x) => perform_part(left, store, program, part, x),
        Task::Declares(item) => {
            items::declare(left, store, item)?;
            Ok(Next::Nothing)
        }
        other => {
            perform_plain(left, store, other)?;
            Ok(Next::Nothing)
        }
    }
}
