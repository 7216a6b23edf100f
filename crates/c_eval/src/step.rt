//! One step of an evaluation.

ghost use Rattle.c_eval_state.specs.Left.{left_of};
ghost use Rattle.c_eval.specs.Performs.{Fits};
ghost use Rattle.c_eval.specs.Standing.{Advanced, standing};
ghost use Rattle.c_tree.specs.Erased.{program_of};

use crate::ahead::advance_ahead;
use crate::next::Turn;
use crate::passing;
use c_eval_state::{EvalEnd, Evaluation, Store, Way};
use c_tree::Program;
use pcc_outside::{Sink, Source};

/// One step, or none where a turn comes next.
pub fn advance<'a, I: Source, O: Sink>(
    left: &mut Evaluation<'a>,
    store: &mut Store,
    program: &'a Program,
    input: &mut I,
    out: &mut O,
) -> Result<Option<Turn<'a>>, EvalEnd>
    requires { Fits (left_of left.old) }
    ensures { Advanced (program_of program.now)
        (standing I.Source O.Sink (left_of left.old) store.old input.old out.old)
        (standing I.Source O.Sink (left_of left.new) store.new input.new out.new) result }
{
    match left.take_task() {
        None => Err(EvalEnd::Ended(left.take_value().low_byte())),
        Some(task) => match left.way() {
            Way::Ahead => advance_ahead(left, store, program, input, out, task),
            Way::Breaking | Way::Continuing | Way::Returning => {
                passing::pass(left, store, task)?;
                Ok(None)
            }
        },
    }
}
