//! `gen`: the generated program of a number is put on the output.

ghost use Rattle.std.specs.Prelude.{ℕ};
ghost use Rattle.pcc_gen.specs.Generated.{generated};
ghost use Rattle.pcc_outside.specs.Files.{StoreCounts};
ghost use Rattle.pcc_driver.specs.Answers.{AnswerPut};
ghost use Rattle.pcc_driver.specs.Causes.{FilesCause, StreamsCause};
ghost use Rattle.pcc_driver.specs.Outside.{output_of};

use crate::answered::put_answer;
use crate::report::Report;
use pcc_base::NoMemory;
use pcc_gen::gen_text;
use pcc_outside::Sink;
use std::alloc::Global;

/// Puts the generated program of the number on the output.
pub fn generate<O: Sink>(alloc: Global, number: u32, out: &mut O) -> Report
    // It speaks of no file and no input.
    ensures files { (counts : StoreCounts) → FilesCause result counts counts }
    ensures streams { (input : ℕ) → StreamsCause result input input (O.counts out.old) (O.counts out.new) }
    ensures telling { O.tells out.old → O.tells out.new }
    ensures put { AnswerPut (generated number) (output_of O.Sink out.old) (output_of O.Sink out.new) result }
{
    match gen_text(alloc, number) {
        Ok(text) => put_answer(text.as_slice(), out),
        Err(NoMemory) => Report::NoMemory,
    }
}
