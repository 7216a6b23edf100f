ghost use Rattle.std.specs.Prelude.{◌≡◌, IfOk, IfSome, List, length};
ghost use Rattle.ia32_insn.specs.State.{Area};
ghost use Rattle.ia32_machine.specs.Table.{AreDecoded, IsFoundAt, IsSpelled};

use crate::processor::Processor;
use ia32_insn::Insn;
use pcc_base::NoMemory;
use std::alloc::Global;

/// How many entries the table has.
const ROOM: usize = 4096;

/// An instruction that was decoded: its address, and that behind its spelling, which wraps. An entry with both the same
/// is empty.
#[derive(Clone, Copy)]
pub struct Decoded {
    pub address: u32,
    pub after: u32,
    pub insn: Insn,
}

/// Instructions that were decoded, each where the low bits of its address say. One that comes takes the place of the
/// one that was there.
#[derive(Drop)]
pub struct DecodedTable {
    entries: Vec<Decoded>,
    ghost full: { length entries.items ≡ 4096 },
}

impl DecodedTable {
    /// A table with no instruction. It takes all memory that it will use. The only refusal is want of memory.
    pub fn new(alloc: Global) -> Result<DecodedTable, NoMemory>
        ensures { IfOk result (λ table. (memory : List Area) → AreDecoded memory table.entries.items) }
    {
        let empty = Decoded {
            address: 0,
            after: 0,
            insn: Insn::Nop,
        };
        let mut entries = Vec::with_capacity(alloc, ROOM)?;
        'fill: for _ in 0..ROOM {
            entries.push(empty)?;
        }
        Ok(DecodedTable { entries })
    }

    /// The instruction at an address, where the table has it.
    #[inline]
    pub fn get(&self, address: u32) -> Option<&Decoded>
        ensures { (memory : List Area) → AreDecoded memory self.now.entries.items
            → IfSome result (λ entry. IsFoundAt memory address entry.now) }
    {
        let entry = &self.entries[address as usize % ROOM];
        if entry.address == address && entry.after != address {
            Some(entry)
        } else {
            None
        }
    }

    /// Keeps an instruction where it may not be written.
    pub fn keep(&mut self, entry: Decoded, processor: &Processor)
        ensures { let memory = processor.now.memory in AreDecoded memory self.old.entries.items
            → IsSpelled memory entry → AreDecoded memory self.new.entries.items }
    {
        if !processor.may_store(entry.address, 1) {
            self.entries[entry.address as usize % ROOM] = entry;
        }
    }
}
