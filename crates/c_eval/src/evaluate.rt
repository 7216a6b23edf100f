//! The evaluation of a program (C99 5.1.2.3).

ghost use Rattle.c_eval.specs.Runs.{EvalCounts, EvalTold};
ghost use Rattle.std.specs.Prelude.{IfOk, option_map};
ghost use Rattle.c_eval_state.specs.Left.{left_of};
ghost use Rattle.c_eval.specs.Whole.{Started};
ghost use Rattle.c_tree.specs.Erased.{program_of};

use crate::run::run;
use c_eval_state::{EvalEnd, Evaluation, Store, Task};
use c_tree::Program;
use pcc_base::NoMemory;
use pcc_outside::{Sink, Source};
use std::alloc::Global;

/// Evaluates a typed program, with the input and the output that are lent, until it ends or needs more than so many
/// turns. A turn is each start of a loop's test or of a `do` body, and each call of a defined function, that of `main`
/// included. `ReadFault` and `WriteFault` come only from the lent objects, `NoMemory` also where the evaluation itself
/// finds no memory. Active calls stand in a vector, so no deep stack is needed.
pub fn eval<I: Source, O: Sink>(
    alloc: Global,
    program: &Program,
    input: &mut I,
    out: &mut O,
    turns: u64,
) -> EvalEnd
    // The outcome of so many turns, or where a lent object refused, or no memory was found, of a part of them.
    ensures told { I.tells input.old → O.tells out.old →
        EvalTold (program_of program.now) turns (I.left input.old) (I.left input.new)
        (O.taken out.old) (O.taken out.new) result }
    ensures counted { EvalCounts (I.faults input.old) (I.faults input.new)
        (O.counts out.old) (O.counts out.new) result }
    ensures input_tells { I.tells input.old → I.tells input.new }
    ensures out_tells { O.tells out.old → O.tells out.new }
{
    let mut store = match Store::new(alloc, program) {
        Ok(store) => store,
        Err(NoMemory) => return EvalEnd::NoMemory,
    };
    match start(alloc, program) {
        Ok(Some(mut left)) => run(&mut left, &mut store, program, input, out, turns),
        Ok(None) => EvalEnd::Ended(0),
        Err(_) => EvalEnd::NoMemory,
    }
}

/// The call of `main` is left to do. A program without it, which none that is typed is, has nothing to do.
fn start(alloc: Global, program: &Program) -> Result<Option<Evaluation<'_>>, NoMemory>
    ensures { IfOk result (λ made. Started (program_of program.now) (option_map left_of made)) }
{
    match program.functions.get(program.main as usize) {
        Some(main) => {
            let mut left = Evaluation::new(alloc, main);
            left.next(Task::Passes(program.main, &[], 0))?;
            Ok(Some(left))
        }
        None => Ok(None),
    }
}
