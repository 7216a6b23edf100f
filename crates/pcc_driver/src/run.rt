ghost use Rattle.std.specs.Prelude.{◌≡◌, [], MatchResult};
ghost use Rattle.elf_image.specs.Segments.{Segments, IsLoadable, Loads, segments_of};
ghost use Rattle.ia32_machine.specs.First.{first_state};
ghost use Rattle.pcc_driver.specs.Causes.{FilesCause, StreamsCause};
ghost use Rattle.pcc_driver.specs.Outside.{SameFiles, work_of};
ghost use Rattle.pcc_driver.specs.Answers.{
  ImageTold,
  HasNoTokens,
  RunTold,
  GivesNoMachine,
  report_of_end,
};

use crate::reading::FILE_LIMIT;
use crate::report::{Named, Report};
use crate::typed_sources::read_report;
use elf_image::{ImageRefusal, Loaded, read_image};
use ia32_machine::{Machine, MachineEnd};
use pcc_outside::{FileStore, Sink, Source};
use std::alloc::Global;

/// The segments that the bytes of an image load.
fn loaded_of(alloc: Global, image: &[u8]) -> Result<Loaded, Report>
    ensures { MatchResult result
        (λ loaded. Loads image.now (segments_of loaded) × IsLoadable (segments_of loaded))
        (GivesNoMachine image.now) }
{
    match read_image(alloc, image) {
        Ok(loaded) => Ok(loaded),
        Err(ImageRefusal::NotImage) => Err(Report::NotImage),
        Err(ImageRefusal::NoMemory) => Err(Report::NoMemory),
    }
}

/// The machine that the bytes of an image load. They are let go before the machine takes its memory.
pub(crate) fn machine_of(alloc: Global, image: Vec<u8>) -> Result<Machine, Report>
    ensures { MatchResult result
        (λ machine. (segments : Segments) × Loads image.items segments × (machine ≡ first_state segments []))
        (GivesNoMachine image.items) }
{
    let loaded = loaded_of(alloc, image.as_slice())?;
    drop(image);
    match Machine::load(alloc, &loaded) {
        Ok(machine) => Ok(machine),
        Err(_) => Err(Report::NoMemory),
    }
}

/// The report of a run of the machine for so many steps.
pub(crate) fn end_report(steps: u64, end: MachineEnd) -> Report
    ensures { result ≡ report_of_end steps end }
{
    match end {
        MachineEnd::Ended(status) => Report::Exited(status),
        MachineEnd::Trapped(trap) => Report::Trapped(trap),
        MachineEnd::Stopped(cause, address) => Report::Stopped(cause, address),
        MachineEnd::BudgetSpent => Report::BudgetSpent(steps),
        MachineEnd::ReadFault => Report::InputFault,
        MachineEnd::WriteFault => Report::OutputFault,
        MachineEnd::NoMemory => Report::NoMemory,
    }
}

/// Reads the image and runs it in the machine, for so many steps at most. No file is changed.
pub fn run<F: FileStore, I: Source, O: Sink>(
    alloc: Global,
    steps: u64,
    image: &str,
    files: &mut F,
    input: &mut I,
    out: &mut O,
) -> Report
    ensures own { HasNoTokens result }
    ensures files_cause { FilesCause result (F.counts files.old) (F.counts files.new) }
    ensures streams_cause { StreamsCause result (I.faults input.old) (I.faults input.new)
        (O.counts out.old) (O.counts out.new) }
    ensures files_tell { F.tells files.old → F.tells files.new }
    ensures input_tells { I.tells input.old → I.tells input.new }
    ensures out_tells { O.tells out.old → O.tells out.new }
    ensures same { F.tells files.old → SameFiles (F.content files.old) (F.content files.new) }
    ensures file { F.tells files.old → ImageTold (F.content files.old image.now) result }
    ensures told { F.tells files.old → I.tells input.old →
        RunTold steps (F.content files.old image.now)
        (work_of F.FileStore I.Source O.Sink files.old input.old out.old)
        (work_of F.FileStore I.Source O.Sink files.new input.new out.new)
        result }
{
    let bytes = match files.read(alloc, image, FILE_LIMIT) {
        Ok(bytes) => bytes,
        Err(refusal) => return read_report(refusal, Named::Image),
    };
    match machine_of(alloc, bytes) {
        Ok(mut machine) => end_report(steps, machine.run(input, out, steps)),
        Err(report) => report,
    }
}
