//! Statements are taken apart (C99 6.8).

ghost use Rattle.std.specs.Prelude.{◌≡◌, IfOk, option_map};
ghost use Rattle.c_eval_state.specs.Changes.{after_start, done, going_again, going_to_label, starting_for};
ghost use Rattle.c_eval_state.specs.Changes.{IsJump, IsLoop, starting_return, statement_done};
ghost use Rattle.c_eval_state.specs.Left.{left_of};
ghost use Rattle.c_eval_state.specs.Views.{has_label, part_task};
ghost use Rattle.c_eval_state.specs.declared.task.StatementPart.TheVariants as parts;
ghost use Rattle.c_eval_state.specs.Values.{held_of};
ghost use Rattle.c_eval_laws.specs.Steps.{statements_from};
ghost use Rattle.c_eval_laws.specs.Tasks as tasks;
ghost use Rattle.c_eval_laws.specs.Tasks.{Ahead, top};
ghost use Rattle.c_tree.specs.Erased.{boxed_of, first_of, statement_of, statements_of};
ghost use Rattle.c_tree.specs.Evaluation.{first_label, switched};
ghost use Rattle.c_tree.specs.Program.{Program};
ghost use Rattle.c_tree.specs.Store.{State, Gives, take_turn};
ghost use Rattle.pcc_base.specs.Outcome.{Listing};

use c_eval_state::{Evaluation, StatementPart, Task, Value, Way};
use c_tree::{Expression, First, Label, Statement, ValueType};
use pcc_base::NoMemory;

/// The first part of a `for`, and then the loop (C99 6.8.5.3).
fn start_for<'a>(
    left: &mut Evaluation<'a>,
    first: &'a First,
    whole: &'a Statement,
) -> Result<(), NoMemory>
    ensures { IfOk result (λ _. left_of left.new
        ≡ starting_for (first_of first.now) (part_task parts.Turn (statement_of whole.now)) (left_of left.old)) }
{
    left.next(Task::Goes(StatementPart::Turn, whole))?;
    match first {
        First::Nothing => Ok(()),
        First::Expression(e) => left.next_both(Task::Evaluates(e), Task::Drops),
        First::Items(items) => left.next(Task::DeclaresAll(items.as_slice())),
    }
}

/// The value of a `return` is to be evaluated, or the function ends without one (C99 6.8.6.4).
fn start_return<'a>(
    left: &mut Evaluation<'a>,
    value: &'a Option<Box<Expression>>,
) -> Result<(), NoMemory>
    requires { (left_of left.old).way ≡ Ahead }
    ensures { IfOk result (λ _. left_of left.new ≡ starting_return (option_map boxed_of value.now)
        (left_of left.old)) }
{
    match value {
        Some(e) => {
            let result = left.result();
            left.next_both(Task::Evaluates(e), Task::ReturnsValue(result))
        }
        None => {
            left.pass_over(Way::Returning);
            left.hold(Value::Number(0))
        }
    }
}

/// A jump: what follows is passed over, for a `return` once its value is there (C99 6.8.6).
fn start_jump<'a>(left: &mut Evaluation<'a>, x: &'a Statement) -> Result<(), NoMemory>
    requires way { (left_of left.old).way ≡ Ahead }
    requires jumps { IsJump (statement_of x.now) }
    ensures { IfOk result (λ _. (l : Listing) (s : State)
        → statement_done l (statement_of x.now) (left_of left.old) s
        ≡ Gives (left_of left.new) (after_start l (statement_of x.now) s)) }
{
    match x {
        Statement::Break(_) => {
            left.pass_over(Way::Breaking);
            Ok(())
        }
        Statement::Continue(_) => {
            left.pass_over(Way::Continuing);
            Ok(())
        }
        Statement::Return(_, value) => start_return(left, value),
        _ => Ok(()),
    }
}

/// A statement is taken apart.
#[tactic(auto, using(c_eval_state::proofs::Stacking::statements_are))]
pub fn start<'a>(left: &mut Evaluation<'a>, x: &'a Statement) -> Result<(), NoMemory>
    requires { (left_of left.old).way ≡ Ahead }
    ensures { IfOk result (λ _. (l : Listing) (s : State)
        → statement_done l (statement_of x.now) (left_of left.old) s
        ≡ Gives (left_of left.new) (after_start l (statement_of x.now) s)) }
{
    match x {
        Statement::Declare(item) => left.next(Task::Declares(item)),
        Statement::Empty(_) => Ok(()),
        Statement::Expression(_, e) => left.next_both(Task::Evaluates(e), Task::Drops),
        Statement::Block(body) => left.next(Task::Follows(body.as_slice())),
        Statement::If(_, e, _, _) | Statement::Switch(_, e, _, _) => {
            left.next_both(Task::Evaluates(e), Task::Goes(StatementPart::Test, x))
        }
        Statement::While(_, _, _) | Statement::Do(_, _, _) => {
            left.next(Task::Goes(StatementPart::Turn, x))
        }
        Statement::For(_, first, _, _, _) => start_for(left, first, x),
        Statement::Break(_) | Statement::Continue(_) | Statement::Return(_, _) => {
            start_jump(left, x)
        }
    }
}

/// The next statement of a row, and those behind it (C99 6.8.2).
pub fn follow<'a>(left: &mut Evaluation<'a>, statements: &'a [Statement]) -> Result<(), NoMemory>
    requires { (left_of left.old).way ≡ Ahead }
    ensures { IfOk result (λ _. (p : Program) (l : Listing) (s : State)
        → done p l (tasks.Follows (statements_of statements.now)) (left_of left.old) s ≡ Gives (left_of left.new) s) }
{
    match statements.split_first() {
        Some((first, others)) => {
            left.next_both(
                Task::Goes(StatementPart::Start, first),
                Task::Follows(others),
            )
        }
        None => Ok(()),
    }
}

/// A turn of a loop begins with its test, or with the body where it has none before that (C99 6.8.5).
pub(crate) fn begin_turn<'a>(left: &mut Evaluation<'a>, x: &'a Statement) -> Result<(), NoMemory>
    requires way { (left_of left.old).way ≡ Ahead }
    requires turns { IsLoop (statement_of x.now) }
    ensures { IfOk result (λ _. (p : Program) (l : Listing) (s : State)
        → done p l (part_task parts.Turn (statement_of x.now)) (left_of left.old) s
        ≡ take_turn s (λ t. Gives (left_of left.new) t)) }
{
    match x {
        Statement::For(_, _, None, _, body) => left.next_both(
            Task::Goes(StatementPart::Start, body),
            Task::Goes(StatementPart::Body, x),
        ),
        Statement::While(_, test, _) | Statement::For(_, _, Some(test), _, _) => {
            left.next_both(Task::Evaluates(test), Task::Goes(StatementPart::Test, x))
        }
        Statement::Do(_, body, _) => left.next_both(
            Task::Goes(StatementPart::Start, body),
            Task::Goes(StatementPart::Body, x),
        ),
        _ => Ok(()),
    }
}

/// The value of a `return`, in the type that the function returns (C99 6.8.6.4): what is left of the function is
/// passed over.
pub fn return_value(left: &mut Evaluation<'_>, to: ValueType) -> Result<(), NoMemory>
    requires { (left_of left.old).way ≡ Ahead }
    ensures { IfOk result (λ _. (p : Program) (l : Listing) (s : State)
        → done p l (tasks.ReturnsValue to) (left_of left.old) s ≡ Gives (left_of left.new) s) }
{
    let value = left.take_value();
    left.pass_over(Way::Returning);
    left.hold(value.in_type(to))
}

/// Behind the body of a loop, or of a `switch`.
pub(crate) fn go_behind_body<'a>(
    left: &mut Evaluation<'a>,
    x: &'a Statement,
) -> Result<(), NoMemory>
    requires { (left_of left.old).way ≡ Ahead }
    ensures { IfOk result (λ _. (p : Program) (l : Listing) (s : State)
        → done p l (part_task parts.Body (statement_of x.now)) (left_of left.old) s ≡ Gives (left_of left.new) s) }
{
    match x {
        Statement::While(_, _, _) => left.next(Task::Goes(StatementPart::Turn, x)),
        Statement::For(_, _, _, after, _) => go_again(left, after, x),
        Statement::Do(_, _, e) => {
            left.next_both(Task::Evaluates(e), Task::Goes(StatementPart::Test, x))
        }
        _ => Ok(()),
    }
}

/// What follows each turn of a `for`, and then its next turn (C99 6.8.5.3).
pub(crate) fn go_again<'a>(
    left: &mut Evaluation<'a>,
    after: &'a Option<Box<Expression>>,
    whole: &'a Statement,
) -> Result<(), NoMemory>
    ensures { IfOk result (λ _. left_of left.new
        ≡ going_again (option_map boxed_of after.now) (part_task parts.Turn (statement_of whole.now))
        (left_of left.old)) }
{
    match after {
        Some(e) => left.next_three(
            Task::Evaluates(e),
            Task::Drops,
            Task::Goes(StatementPart::Turn, whole),
        ),
        None => left.next(Task::Goes(StatementPart::Turn, whole)),
    }
}

/// The place of the first label that has this value, or none where the value is none (C99 6.8.4.2).
fn first_label(labels: &Vec<Label>, value: Option<i32>) -> Option<u32>
    ensures { result ≡ first_label (has_label value) labels.now.items }
{
    let mut rest = labels.as_slice();
    'labels: while let Some((first, others)) = rest.split_first() {
        if first.value == value {
            return Some(first.before);
        }
        rest = others;
    }
    None
}

/// Where a switch goes to: the `case` with the value, or else the `default` (C99 6.8.4.2).
fn label_of(labels: &Vec<Label>, value: Value) -> Option<u32>
    ensures { result ≡ switched labels.now.items (held_of value) }
{
    match first_label(labels, Some(value.number())) {
        Some(before) => Some(before),
        None => first_label(labels, None),
    }
}

/// The statements from a place on.
#[tactic(auto, using(c_eval_state::proofs::Stacking::from_slice, c_eval_state::proofs::Stacking::from_end))]
fn statements_from(body: &[Statement], before: u32) -> &[Statement]
    ensures { statements_of result.now ≡ statements_from (statements_of body.now) before }
{
    let before = before as usize;
    if before < body.len() {
        &body[before..]
    } else {
        &[]
    }
}

/// The body of a switch from the label of its value on, where there is one (C99 6.8.4.2).
fn go_to_label<'a>(
    left: &mut Evaluation<'a>,
    labels: &Vec<Label>,
    body: &'a [Statement],
    whole: &'a Statement,
) -> Result<(), NoMemory>
    requires { part_task parts.Body (statement_of whole.now) ≡ tasks.SwitchBody }
    ensures { IfOk result (λ _. left_of left.new
        ≡ going_to_label (switched labels.now.items (top (left_of left.old).values)) (statements_of body.now)
        (left_of left.old)) }
{
    let value = left.take_value();
    match label_of(labels, value) {
        Some(before) => left.next_both(
            Task::Follows(statements_from(body, before)),
            Task::Goes(StatementPart::Body, whole),
        ),
        None => Ok(()),
    }
}

/// Behind a test, or the value of a `switch`.
pub(crate) fn go_behind_test<'a>(
    left: &mut Evaluation<'a>,
    x: &'a Statement,
) -> Result<(), NoMemory>
    requires { (left_of left.old).way ≡ Ahead }
    ensures { IfOk result (λ _. (p : Program) (l : Listing) (s : State)
        → done p l (part_task parts.Test (statement_of x.now)) (left_of left.old) s ≡ Gives (left_of left.new) s) }
{
    match x {
        Statement::If(_, _, first, second) => {
            if left.take_value().is_true() {
                left.next(Task::Goes(StatementPart::Start, first))
            } else {
                left.next(Task::Goes(StatementPart::Start, second))
            }
        }
        Statement::While(_, _, body) | Statement::For(_, _, _, _, body) => {
            if left.take_value().is_true() {
                left.next_both(
                    Task::Goes(StatementPart::Start, body),
                    Task::Goes(StatementPart::Body, x),
                )
            } else {
                Ok(())
            }
        }
        Statement::Do(_, _, _) => {
            if left.take_value().is_true() {
                left.next(Task::Goes(StatementPart::Turn, x))
            } else {
                Ok(())
            }
        }
        Statement::Switch(_, _, labels, body) => go_to_label(left, labels, body.as_slice(), x),
        _ => {
            left.take_value();
            Ok(())
        }
    }
}
