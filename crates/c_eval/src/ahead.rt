//! The step of a task that was taken, with what moves bytes.

ghost use Rattle.std.specs.Prelude.{◌≡◌};
ghost use Rattle.c_eval_state.specs.Changes.{doing};
ghost use Rattle.c_eval_state.specs.Left.{left_of};
ghost use Rattle.c_eval_state.specs.Views.{task_of};
ghost use Rattle.c_eval.specs.Performs.{Fits};
ghost use Rattle.c_eval.specs.Standing.{Advanced, before_task, standing};
ghost use Rattle.c_eval_laws.specs.Tasks.{Ahead, Evaluates};
ghost use Rattle.c_tree.specs.Erased.{expression_of, program_of};

use crate::at_once::shorten;
use crate::next::{Next, Turn};
use crate::steps::perform;
use c_eval_state::{EvalEnd, Evaluation, Store, Task, streams};
use c_tree::{Expression, Program};
use pcc_outside::{Sink, Source};

/// The step of a task that was taken and is to be done, or none where a turn comes next.
#[inline(always)]
fn advance_by_step<'a, I: Source, O: Sink>(
    left: &mut Evaluation<'a>,
    store: &mut Store,
    program: &'a Program,
    input: &mut I,
    out: &mut O,
    task: Task<'a>,
) -> Result<Option<Turn<'a>>, EvalEnd>
    requires way { (left_of left.old).way ≡ Ahead }
    requires fits { Fits (doing (task_of task) (left_of left.old)) }
    ensures { Advanced (program_of program.now)
        (before_task (task_of task.entry)
        (standing I.Source O.Sink (left_of left.old) store.old input.old out.old))
        (standing I.Source O.Sink (left_of left.new) store.new input.new out.new) result }
{
    match perform(left, store, program, task)? {
        Next::Nothing => Ok(None),
        Next::Byte => {
            streams::get(left, input)?;
            Ok(None)
        }
        Next::Room => {
            streams::put(left, out)?;
            Ok(None)
        }
        Next::Begins(turn) => Ok(Some(turn)),
    }
}

/// The steps of an expression as far as it goes at once, or the first one where it doesn't.
fn advance_expression<'a, I: Source, O: Sink>(
    left: &mut Evaluation<'a>,
    store: &mut Store,
    program: &'a Program,
    input: &mut I,
    out: &mut O,
    e: &'a Expression,
) -> Result<Option<Turn<'a>>, EvalEnd>
    requires way { (left_of left.old).way ≡ Ahead }
    requires fits { Fits (doing (Evaluates (expression_of e.now)) (left_of left.old)) }
    ensures { Advanced (program_of program.now)
        (before_task (Evaluates (expression_of e.now))
        (standing I.Source O.Sink (left_of left.old) store.old input.old out.old))
        (standing I.Source O.Sink (left_of left.new) store.new input.new out.new) result }
{
    match shorten(left, store, e)? {
        Some(task) => advance_by_step(left, store, program, input, out, task),
        None => Ok(None),
    }
}

/// A task that was taken and is to be done, or none where a turn comes next.
pub(crate) fn advance_ahead<'a, I: Source, O: Sink>(
    left: &mut Evaluation<'a>,
    store: &mut Store,
    program: &'a Program,
    input: &mut I,
    out: &mut O,
    task: Task<'a>,
) -> Result<Option<Turn<'a>>, EvalEnd>
    requires way { (left_of left.old).way ≡ Ahead }
    requires fits { Fits (doing (task_of task) (left_of left.old)) }
    ensures { Advanced (program_of program.now)
        (before_task (task_of task.entry)
        (standing I.Source O.Sink (left_of left.old) store.old input.old out.old))
        (standing I.Source O.Sink (left_of left.new) store.new input.new out.new) result }
{
    match task {
        Task::Evaluates(e) => advance_expression(left, store, program, input, out, e),
        other => advance_by_step(left, store, program, input, out, other),
    }
}
