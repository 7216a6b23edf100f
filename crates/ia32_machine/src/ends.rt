ghost use Rattle.std.specs.Prelude.{◌≡◌};
ghost use Rattle.ia32_machine.specs.Performs as performs;

use crate::halt::Halt;
use pcc_base::{Stop, Trap};

/// How a run of the machine ends.
#[derive(Clone, Copy, Debug)]
pub enum MachineEnd {
    /// The program ended with this exit status.
    Ended(u8),
    /// The program trapped.
    Trapped(Trap),
    /// The machine has no step, for this cause, at the instruction at this address.
    Stopped(Stop, u32),
    /// The machine still runs after all steps that it may make.
    BudgetSpent,
    /// The input failed.
    ReadFault,
    /// The output failed.
    WriteFault,
    /// The output found no memory.
    NoMemory,
}

/// What a step leads to.
#[derive(Clone, Copy, Debug)]
pub enum StepEnd {
    Going,
    End(MachineEnd),
}

/// How the run ends where the processor halts at the instruction at this address.
pub(crate) fn end_at(address: u32, halt: Halt) -> MachineEnd
    ensures { result ≡ performs.end_at address halt }
{
    match halt {
        Halt::Trapped(trap) => MachineEnd::Trapped(trap),
        Halt::Stopped(cause) => MachineEnd::Stopped(cause, address),
    }
}
