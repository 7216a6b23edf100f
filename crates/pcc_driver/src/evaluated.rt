//! `eval`: the sources are typed, and their program is evaluated.

ghost use Rattle.std.specs.Prelude.{◌≡◌, ◌≤◌, length, map};
ghost use Rattle.pcc_driver.specs.Causes.{FilesCause, StreamsCause};
ghost use Rattle.pcc_driver.specs.Outside.{SameFiles, work_of};
ghost use Rattle.pcc_driver.specs.Evaluations.{EvalTold, SourcesTold, report_of_evaluation};

use crate::report::Report;
use crate::typed_sources::program_of_sources;
use c_eval_state::EvalEnd;
use pcc_outside::{FileStore, Sink, Source};
use std::alloc::Global;

/// The report of an evaluation of so many turns.
pub(crate) fn evaluation_report(turns: u64, end: EvalEnd) -> Report
    ensures { result ≡ report_of_evaluation turns end }
{
    match end {
        EvalEnd::Ended(status) => Report::Exited(status),
        EvalEnd::Trapped(trap) => Report::Trapped(trap),
        EvalEnd::TurnsSpent => Report::BudgetSpent(turns),
        EvalEnd::ReadFault => Report::InputFault,
        EvalEnd::WriteFault => Report::OutputFault,
        EvalEnd::NoMemory => Report::NoMemory,
    }
}

/// Evaluates the program of the sources, for so many turns at most. No file is changed.
pub fn eval<F: FileStore, I: Source, O: Sink>(
    alloc: Global,
    turns: u64,
    sources: &[&str],
    files: &mut F,
    input: &mut I,
    out: &mut O,
) -> Report
    requires few { length sources.now ≤ 16 }
    ensures files_cause { FilesCause result (F.counts files.old) (F.counts files.new) }
    ensures streams_cause { StreamsCause result (I.faults input.old) (I.faults input.new)
        (O.counts out.old) (O.counts out.new) }
    ensures files_tell { F.tells files.old → F.tells files.new }
    ensures input_tells { I.tells input.old → I.tells input.new }
    ensures out_tells { O.tells out.old → O.tells out.new }
    ensures same { F.tells files.old → SameFiles (F.content files.old) (F.content files.new) }
    ensures sources { F.tells files.old →
        SourcesTold (F.content files.old) (map (λ s. s.now) sources.now) result }
    ensures told { F.tells files.old → I.tells input.old → O.tells out.old →
        EvalTold turns (map (λ s. s.now) sources.now)
        (work_of F.FileStore I.Source O.Sink files.old input.old out.old)
        (work_of F.FileStore I.Source O.Sink files.new input.new out.new)
        result }
{
    match program_of_sources(alloc, sources, files) {
        Ok(program) => {
            let end = c_eval::eval(alloc, &program, input, out, turns);
            evaluation_report(turns, end)
        }
        Err(report) => report,
    }
}
