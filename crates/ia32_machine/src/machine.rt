ghost use Rattle.std.specs.Prelude.{◌≡◌, [], IfOk};
ghost use Rattle.elf_image.specs.Segments.{IsLoadable, segments_of};
ghost use Rattle.ia32_machine.specs.First.{first_state, lent};
ghost use Rattle.ia32_machine.specs.Lending.{Lends};
ghost use Rattle.ia32_machine.specs.Performs.{PartCounts, AdvanceTold};
ghost use Rattle.ia32_machine.specs.Runs.{StepTold, StepCounts, RunTold, RunCounts, alone};

use crate::decoded::{Decoded, DecodedTable};
use crate::ends::{MachineEnd, StepEnd};
use crate::instruction::{fetch, perform};
use crate::processor::Processor;
use elf_image::Loaded;
use ia32_memory::Memory;
use pcc_base::NoMemory;
use pcc_outside::{Sink, Source};
use std::alloc::Global;
use std::marker::Model;

/// A machine: a processor with its memory, which `step` and `run` lend an input and an output. Contracts
/// see it as a state with no input and no output. It keeps the instructions that it decoded where they may not be
/// written, so that none of these is decoded at each step.
#[derive(Drop)]
pub struct Machine {
    processor: Processor,
    decoded: DecodedTable,
}

impl Model for Machine {
    ghost use Rattle.ia32_insn.specs.State.{State};

    ghost Value = { State };

    ghost use Rattle.ia32_machine.specs.Table.{AreDecoded};

    ghost view = { λ m. m.processor };

    ghost invariant = { λ m. AreDecoded m.processor.memory m.decoded.entries.items };
}

impl Machine {
    /// The machine in the first state of an image with these segments. It takes all memory that the
    /// machine will use. The only refusal is want of memory.
    pub fn load(alloc: Global, loaded: &Loaded) -> Result<Machine, NoMemory>
        requires { IsLoadable (segments_of loaded.now) }
        ensures { IfOk result (λ machine. machine ≡ first_state (segments_of loaded.now) []) }
    {
        let decoded = DecodedTable::new(alloc)?;
        let memory = Memory::load(alloc, &loaded.segments)?;
        Ok(Machine {
            processor: Processor::new(loaded.entry, memory),
            decoded,
        })
    }

    /// The address of the next instruction. A machine has no input and no output of its own.
    fn eip(&self) -> u32
        ensures value { result ≡ self.now.eip }
        ensures bare { self.now ≡ alone self.now }
    {
        self.processor.eip()
    }

    /// Fetches the instruction at EIP, keeps it in the table where it may not be written, and performs it.
    #[cold]
    #[inline(never)]
    #[tactic(none)]
    fn decode_and_perform<I: Source, O: Sink>(
        &mut self,
        input: &mut I,
        out: &mut O,
    ) -> Result<(), MachineEnd>
        ensures { Lends I.Source O.Sink (input.old, out.old) (input.new, out.new)
            (λ left left' IsPut. AdvanceTold (lent self.old left) self.new left' IsPut result)
            (λ faults faults' counts counts'. PartCounts faults faults' counts counts' result) }
    {
        let address = self.processor.eip();
        match fetch(&self.processor) {
            Ok((insn, length)) => {
                let after = address.wrapping_add(length as u32);
                let entry = Decoded {
                    address,
                    after,
                    insn,
                };
                self.decoded.keep(entry, &self.processor);
                perform(&mut self.processor, &insn, after, input, out)
            }
            Err(cause) => Err(MachineEnd::Stopped(cause, address)),
        }
    }

    /// Performs the instruction at EIP.
    #[tactic(none)]
    fn advance<I: Source, O: Sink>(&mut self, input: &mut I, out: &mut O) -> Result<(), MachineEnd>
        ensures { Lends I.Source O.Sink (input.old, out.old) (input.new, out.new)
            (λ left left' IsPut. AdvanceTold (lent self.old left) self.new left' IsPut result)
            (λ faults faults' counts counts'. PartCounts faults faults' counts counts' result) }
    {
        let address = self.processor.eip();
        match self.decoded.get(address) {
            Some(entry) => perform(&mut self.processor, &entry.insn, entry.after, input, out),
            None => self.decode_and_perform(input, out),
        }
    }

    /// One step. An instruction that traps or stops changes nothing. The answers `ReadFault`,
    /// `WriteFault` and `NoMemory` come only from the lent objects, and `BudgetSpent` never.
    #[tactic(none)]
    pub fn step<I: Source, O: Sink>(&mut self, input: &mut I, out: &mut O) -> StepEnd
        ensures { Lends I.Source O.Sink (input.old, out.old) (input.new, out.new)
            (λ left left' IsPut. StepTold (lent self.old left) self.new left' IsPut result)
            (λ faults faults' counts counts'. StepCounts faults faults' counts counts' result) }
    {
        match self.advance(input, out) {
            Ok(()) => StepEnd::Going,
            Err(end) => StepEnd::End(end),
        }
    }

    /// Makes steps until an end, or until `budget` steps were made. `BudgetSpent` comes exactly where
    /// the machine still runs after exactly `budget` steps.
    pub fn run<I: Source, O: Sink>(&mut self, input: &mut I, out: &mut O, budget: u64) -> MachineEnd
        // The outcome of `budget` steps, or where a lent object refused of the steps so far, and the state that the
        // machine is left in.
        ensures { Lends I.Source O.Sink (input.old, out.old) (input.new, out.new)
            (λ left left' IsPut. RunTold budget (lent self.old left) self.new left left' IsPut result)
            (λ faults faults' counts counts'. RunCounts faults faults' counts counts' result) }
    {
        // A machine has no input and no output of its own.
        let _ = self.eip();
        'steps: for _ in 0..budget {
            match self.step(input, out) {
                StepEnd::Going => {}
                StepEnd::End(end) => return end,
            }
        }
        MachineEnd::BudgetSpent
    }
}
