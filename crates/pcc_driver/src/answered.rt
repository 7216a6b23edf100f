//! The answer of a command, put on the output.

ghost use Rattle.std.specs.Prelude.{ℕ};
ghost use Rattle.pcc_outside.specs.Files.{StoreCounts};
ghost use Rattle.pcc_driver.specs.Answers.{AnswerPut, HasNoTokens};
ghost use Rattle.pcc_driver.specs.Causes.{FilesCause, StreamsCause};
ghost use Rattle.pcc_driver.specs.Outside.{output_of};

use crate::report::Report;
use pcc_outside::{Sink, WriteRefusal};

/// Puts an answer on the output.
pub(crate) fn put_answer<O: Sink>(answer: &[u8], out: &mut O) -> Report
    ensures own { HasNoTokens result }
    ensures files { (counts : StoreCounts) → FilesCause result counts counts }
    ensures streams { (input : ℕ) → StreamsCause result input input (O.counts out.old) (O.counts out.new) }
    ensures telling { O.tells out.old → O.tells out.new }
    ensures put { AnswerPut answer.now (output_of O.Sink out.old) (output_of O.Sink out.new) result }
{
    match out.put_all(answer) {
        Ok(()) => Report::Answered,
        Err(WriteRefusal::Failed) => Report::OutputFault,
        Err(WriteRefusal::NoMemory) => Report::NoMemory,
    }
}
