//! `selftest` runs an image, and counts its steps.

ghost use Rattle.std.specs.Prelude.{◌≡◌, MatchResult};
ghost use Rattle.ia32_machine.specs.First.{lent};
ghost use Rattle.ia32_machine.specs.Lending.{Lends};
ghost use Rattle.ia32_machine.specs.Runs.{RunCounts, alone};
ghost use Rattle.pcc_driver.specs.Selftests.{CountedTold, GivesNoRun, IsRunLine};

use crate::report::Report;
use crate::run::machine_of;
use crate::selftest_lines::run_line;
use ia32_machine::{Machine, MachineEnd, StepEnd};
use pcc_base::NoMemory;
use pcc_outside::{MemSink, Sink, Source, SureSource};
use std::alloc::Global;

/// How the machine ended, and after how many steps, that of the end among them.
#[derive(Clone, Copy)]
struct Counted {
    end: MachineEnd,
    steps: u64,
}

/// Makes steps until an end, or until `most` steps were made, and counts them.
fn count_steps<I: Source, O: Sink>(
    machine: &mut Machine,
    input: &mut I,
    out: &mut O,
    most: u64,
) -> Counted
    requires bare { machine.old ≡ alone machine.old }
    ensures { Lends I.Source O.Sink (input.old, out.old) (input.new, out.new)
        (λ left left' IsPut. CountedTold most (lent machine.old left) IsPut result.end result.steps)
        (λ faults faults' counts counts'. RunCounts faults faults' counts counts' result.end) }
{
    'steps: for made in 0..most {
        match machine.step(input, out) {
            StepEnd::Going => {}
            StepEnd::End(end) => {
                return Counted {
                    end,
                    steps: made + 1,
                };
            }
        }
    }
    Counted {
        end: MachineEnd::BudgetSpent,
        steps: most,
    }
}

/// The line of the run of an image over no input, for so many steps at most, or why there is none. What it reads and
/// writes stands in memory, which refuses nothing but where it is wanting.
pub(crate) fn line_of_run(alloc: Global, image: Vec<u8>, most: u64) -> Result<Vec<u8>, Report>
    ensures { MatchResult result (λ line. IsRunLine most image.items line.items) (GivesNoRun most image.items) }
{
    let mut machine = machine_of(alloc, image)?;
    let mut out = MemSink::new(alloc, Vec::new(alloc));
    let counted = count_steps(
        &mut machine,
        &mut SureSource::new(Vec::new(alloc)),
        &mut out,
        most,
    );
    match counted.end {
        MachineEnd::Ended(status) => match run_line(alloc, out.taken(), status, counted.steps) {
            Ok(line) => Ok(line),
            Err(NoMemory) => Err(Report::NoMemory),
        },
        MachineEnd::Trapped(trap) => Err(Report::Trapped(trap)),
        MachineEnd::Stopped(cause, address) => Err(Report::Stopped(cause, address)),
        MachineEnd::BudgetSpent => Err(Report::BudgetSpent(most)),
        MachineEnd::ReadFault | MachineEnd::WriteFault | MachineEnd::NoMemory => {
            // No fault comes from `SureSource`, nor from a `MemSink` that is told no failing call: memory is wanting.
            Err(Report::NoMemory)
        }
    }
}
