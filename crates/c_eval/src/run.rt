//! The loops over steps and over turns.

ghost use Rattle.c_eval_state.specs.Left.{left_of};
ghost use Rattle.c_eval.specs.Performs.{Fits};
ghost use Rattle.c_eval.specs.Standing.{standing};
ghost use Rattle.c_eval.specs.Whole.{EndsAt, Turned, UpToTurn};
ghost use Rattle.c_tree.specs.Erased.{program_of};

use crate::next::Turn;
use crate::step::advance;
use crate::turns::begin;
use c_eval_state::{EvalEnd, Evaluation, Store};
use c_tree::Program;
use pcc_outside::{Sink, Source};

/// The steps up to the next turn, or up to an end.
fn next_turn<'a, I: Source, O: Sink>(
    left: &mut Evaluation<'a>,
    store: &mut Store,
    program: &'a Program,
    input: &mut I,
    out: &mut O,
) -> Result<Turn<'a>, EvalEnd>
    requires { Fits (left_of left.old) }
    ensures { UpToTurn (program_of program.now)
        (standing I.Source O.Sink (left_of left.old) store.old input.old out.old)
        (standing I.Source O.Sink (left_of left.new) store.new input.new out.new) result }
{
    'steps: loop {
        match advance(left, store, program, input, out) {
            Ok(None) => {}
            Ok(Some(turn)) => return Ok(turn),
            Err(end) => return Err(end),
        }
    }
}

/// The steps up to the next turn, and the turn's first one, where so many turns are left.
fn run_turn<'a, I: Source, O: Sink>(
    left: &mut Evaluation<'a>,
    store: &mut Store,
    program: &'a Program,
    input: &mut I,
    out: &mut O,
    rest: u64,
) -> Result<(), EvalEnd>
    requires { Fits (left_of left.old) }
    ensures { Turned (program_of program.now) rest
        (standing I.Source O.Sink (left_of left.old) store.old input.old out.old)
        (standing I.Source O.Sink (left_of left.new) store.new input.new out.new) result }
{
    let turn = next_turn(left, store, program, input, out)?;
    begin(left, store, turn, rest)
}

/// All turns up to an end, of which so many may be taken.
pub fn run<'a, I: Source, O: Sink>(
    left: &mut Evaluation<'a>,
    store: &mut Store,
    program: &'a Program,
    input: &mut I,
    out: &mut O,
    turns: u64,
) -> EvalEnd
    requires { Fits (left_of left.old) }
    ensures { EndsAt (program_of program.now) turns result
        (standing I.Source O.Sink (left_of left.old) store.old input.old out.old)
        (standing I.Source O.Sink (left_of left.new) store.new input.new out.new) }
{
    let mut rest = turns;
    'turns: loop {
        match run_turn(left, store, program, input, out, rest) {
            Ok(()) => rest -= 1,
            Err(end) => return end,
        }
    }
}
