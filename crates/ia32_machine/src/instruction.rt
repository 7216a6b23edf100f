ghost use Rattle.std.specs.Prelude.{◌≡◌, ◌≤◌, ◌↔◌, IfOk, IsTrue};
ghost use Rattle.ia32_machine.specs.Code.{KeepsCode};
ghost use Rattle.ia32_machine.specs.First.{lent};
ghost use Rattle.ia32_machine.specs.Lending.{Lends};
ghost use Rattle.ia32_machine.specs.Performs.{FetchTold, PartTold, PartCounts, insn_moved};
ghost use Rattle.ia32_machine.specs.Runs.{alone};

use crate::ends::{MachineEnd, end_at};
use crate::processor::Processor;
use crate::system_calls::system_call;
use ia32_decode::decode;
use ia32_insn::Insn;
use pcc_base::Stop;
use pcc_outside::{Sink, Source};

/// The instruction at EIP and the length of its spelling, or why there is none.
pub(crate) fn fetch(processor: &Processor) -> Result<(Insn, usize), Stop>
    ensures told { FetchTold processor.now result }
    ensures short { IfOk result (λ found. found.1 ≤ 15) }
{
    match processor.code() {
        None => Err(Stop::Access(processor.eip())),
        Some(code) => match decode(code) {
            None => Err(Stop::Instruction),
            Some(found) => Ok(found),
        },
    }
}

/// The instruction is `int 0x80`.
fn is_system_call(insn: &Insn) -> bool
    ensures { IsTrue result ↔ insn.now ≡ Insn.Int 0x80 }
{
    matches!(*insn, Insn::Int(0x80))
}

/// Performs an instruction, where the next one in memory is at the address `after`.
#[tactic(none)]
pub(crate) fn perform<I: Source, O: Sink>(
    processor: &mut Processor,
    insn: &Insn,
    after: u32,
    input: &mut I,
    out: &mut O,
) -> Result<(), MachineEnd>
    requires { processor.old ≡ alone processor.old }
    ensures code { KeepsCode processor.old.memory processor.new.memory }
    ensures lends { Lends I.Source O.Sink (input.old, out.old) (input.new, out.new)
        (λ left left' IsPut. let s = lent processor.old left in
        PartTold (insn_moved insn.now after s) s processor.new left' IsPut result)
        (λ faults faults' counts counts'. PartCounts faults faults' counts counts' result) }
{
    if is_system_call(insn) {
        system_call(processor, input, out)?;
        processor.set_eip(after);
        return Ok(());
    }
    let address = processor.eip();
    match crate::effects::perform(processor, insn, after) {
        Ok(()) => Ok(()),
        Err(halt) => Err(end_at(address, halt)),
    }
}
