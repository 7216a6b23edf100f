//! The typed program of the sources that a command names.

ghost use Rattle.std.specs.Prelude.{◌≡◌, ◌≤◌, ℕ, length, map, IfErr, IfOk, MatchResult};
ghost use Rattle.c_tree.specs.Erased.{program_of};
ghost use Rattle.c_front.specs.Answers.{HaveTypedProgram};
ghost use Rattle.pcc_outside.specs.Streams.{SinkCounts};
ghost use Rattle.pcc_driver.specs.Causes.{FilesCause, StreamsCause};
ghost use Rattle.pcc_driver.specs.Outside.{SameFiles};
ghost use Rattle.pcc_driver.specs.Programs.{
  HaveNoProgram,
  IsTyped,
  report_of_read,
  report_of_refused,
  report_of_unread,
};
ghost use Rattle.pcc_driver.specs.Sources.{HoldAll};

use crate::reading::{Unread, read_sources};
use crate::report::{Named, Report};
use c_front::{Refused, typed_program};
use c_tree::Program;
use pcc_outside::{FileStore, ReadRefusal};
use std::alloc::Global;

/// The report of a refused read.
pub(crate) fn read_report(refusal: ReadRefusal, file: Named) -> Report
    ensures { result ≡ report_of_read refusal file }
{
    match refusal {
        ReadRefusal::Missing => Report::NoFile(file),
        ReadRefusal::TooLong => Report::TooLong(file),
        ReadRefusal::Failed => Report::ReadFault(file),
        ReadRefusal::NoMemory => Report::NoMemory,
    }
}

/// The report of the first source that isn't read.
pub(crate) fn unread_report(unread: Unread) -> Report
    ensures { result ≡ report_of_unread unread }
{
    read_report(unread.why, Named::Source(unread.position))
}

/// The report of texts that have no typed program within the limits.
pub(crate) fn refused_report(refused: Refused) -> Report
    ensures { result ≡ report_of_refused refused }
{
    match refused {
        Refused::Fault(fault) => Report::SourceFault(fault),
        Refused::Tokens(tokens) => Report::TooManyTokens(tokens),
        Refused::Arrays(bytes) => Report::LargeArrays(bytes),
        Refused::Frame { name, bytes } => Report::LargeFrame { name, bytes },
        Refused::NoMemory => Report::NoMemory,
    }
}

/// Reads the sources in their order, and types them. No file is changed.
pub(crate) fn program_of_sources<F: FileStore>(
    alloc: Global,
    sources: &[&str],
    files: &mut F,
) -> Result<Program, Report>
    requires few { length sources.now ≤ 16 }
    ensures typed { IfOk result (λ program. IsTyped (program_of program)) }
    ensures counts { MatchResult result (λ _. F.counts files.new ≡ F.counts files.old)
        (λ report. FilesCause report (F.counts files.old) (F.counts files.new)) }
    // It speaks of no input and no output.
    ensures streams { IfErr result (λ report. (input : ℕ) (out : SinkCounts)
        → StreamsCause report input input out out) }
    ensures telling { F.tells files.old → F.tells files.new }
    ensures kept { F.tells files.old → SameFiles (F.content files.old) (F.content files.new) }
    ensures told { F.tells files.old → MatchResult result
        (λ program. HoldAll (F.content files.old) (map (λ s. s.now) sources.now)
        (λ texts. HaveTypedProgram texts (program_of program)))
        (HaveNoProgram (F.content files.old) (map (λ s. s.now) sources.now)) }
{
    let texts = match read_sources(alloc, sources, files) {
        Ok(texts) => texts,
        Err(unread) => return Err(unread_report(unread)),
    };
    match typed_program(alloc, texts.as_slice()) {
        Ok(program) => Ok(program),
        Err(refused) => Err(refused_report(refused)),
    }
}
