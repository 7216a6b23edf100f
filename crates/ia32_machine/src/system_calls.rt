ghost use Rattle.std.specs.Prelude.{◌≡◌, ◌∷◌, [], ℕ, true, List, Ok};
ghost use Rattle.pcc_outside.specs.Streams.{SinkCounts};
ghost use Rattle.ia32_insn.specs.State as state;
ghost use Rattle.ia32_insn.specs.Meaning.{and_then, store_bytes, with_word};
ghost use Rattle.ia32_machine.specs.Code.{KeepsCode};
ghost use Rattle.ia32_machine.specs.First.{lent};
ghost use Rattle.ia32_machine.specs.Lending.{IsPutOn, PutsNothing, Lends};
ghost use Rattle.ia32_machine.specs.Runs.{alone};
ghost use Rattle.ia32_machine.specs.Performs.{PartTold, PartCounts, read_moved, write_moved, call_moved};

use crate::ends::MachineEnd;
use crate::processor::Processor;
use ia32_insn::Reg32;
use pcc_base::Stop;
use pcc_outside::{Failed, Sink, Source, WriteRefusal};

/// A byte of the input to an address where it may be stored, and 1 to EAX.
fn take_byte(processor: &mut Processor, address: u32, byte: u8)
    requires { state.may_store 1 address processor.old.memory ≡ true }
    ensures { and_then (store_bytes address (byte ∷ []) processor.old) (λ t. Ok (with_word Reg32.Eax 1 t))
        ≡ Ok processor.new }
{
    let _ = processor.store8(address, byte);
    processor.set_word(Reg32::Eax, 1);
}

/// `read` of EDX bytes to the address in ECX: one byte of the input where there is one, and how many to
/// EAX. All EDX bytes are checked before one is taken.
fn read_call<I: Source>(processor: &mut Processor, input: &mut I) -> Result<(), MachineEnd>
    requires { processor.old ≡ alone processor.old }
    ensures code { KeepsCode processor.old.memory processor.new.memory }
    ensures told { I.tells input.old → let s = lent processor.old (I.left input.old) in
        PartTold (read_moved s) s processor.new (I.left input.new) PutsNothing result }
    ensures counted { (out : SinkCounts) → PartCounts (I.faults input.old) (I.faults input.new) out out result }
    ensures input_tells { I.tells input.old → I.tells input.new }
{
    let count = processor.word(Reg32::Edx);
    if count == 0 {
        processor.set_word(Reg32::Eax, count);
        return Ok(());
    }
    let address = processor.word(Reg32::Ecx);
    if !processor.may_store(address, count) {
        return Err(MachineEnd::Stopped(Stop::Access(address), processor.eip()));
    }
    match input.next_byte() {
        Ok(Some(byte)) => {
            take_byte(processor, address, byte);
            Ok(())
        }
        Ok(None) => {
            processor.set_word(Reg32::Eax, 0);
            Ok(())
        }
        Err(Failed) => Err(MachineEnd::ReadFault),
    }
}

/// `write` of EDX bytes from the address in ECX, and how many to EAX. All of them are checked before one
/// is written.
#[tactic(none)]
fn write_call<O: Sink>(processor: &mut Processor, out: &mut O) -> Result<(), MachineEnd>
    requires { processor.old ≡ alone processor.old }
    ensures code { KeepsCode processor.old.memory processor.new.memory }
    ensures told { (left : List ℕ) → let s = lent processor.old left in
        PartTold (write_moved s) s processor.new left (IsPutOn O.Sink out.old out.new) result }
    ensures counted { (input : ℕ) → PartCounts input input (O.counts out.old) (O.counts out.new) result }
    ensures out_tells { O.tells out.old → O.tells out.new }
{
    let count = processor.word(Reg32::Edx);
    if count == 0 {
        processor.set_word(Reg32::Eax, count);
        return Ok(());
    }
    let address = processor.word(Reg32::Ecx);
    let Some(bytes) = processor.bytes_at(address, count) else {
        return Err(MachineEnd::Stopped(Stop::Access(address), processor.eip()));
    };
    match out.put_all(bytes) {
        Ok(()) => {
            processor.set_word(Reg32::Eax, count);
            Ok(())
        }
        Err(WriteRefusal::Failed) => Err(MachineEnd::WriteFault),
        Err(WriteRefusal::NoMemory) => Err(MachineEnd::NoMemory),
    }
}

/// `int 0x80`: the system calls `exit`, `read` and `write` of Linux on i386.
#[tactic(none)]
pub fn system_call<I: Source, O: Sink>(
    processor: &mut Processor,
    input: &mut I,
    out: &mut O,
) -> Result<(), MachineEnd>
    requires { processor.old ≡ alone processor.old }
    ensures code { KeepsCode processor.old.memory processor.new.memory }
    ensures lends { Lends I.Source O.Sink (input.old, out.old) (input.new, out.new)
        (λ left left' IsPut. let s = lent processor.old left in
        PartTold (call_moved s) s processor.new left' IsPut result)
        (λ faults faults' counts counts'. PartCounts faults faults' counts counts' result) }
{
    let call = processor.word(Reg32::Eax);
    let first = processor.word(Reg32::Ebx);
    if call == 1 {
        return Err(MachineEnd::Ended((first % 256) as u8));
    }
    if call == 3 && first == 0 {
        return read_call(processor, input);
    }
    if call == 4 && first == 1 {
        return write_call(processor, out);
    }
    Err(MachineEnd::Stopped(Stop::Call, processor.eip()))
}
