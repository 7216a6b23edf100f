ghost use Rattle.std.specs.Prelude.{◌≡◌, ◌↔◌, [], IsErrOf, OnErr};
ghost use Rattle.pcc_outside.specs.Calls.{FailsNext, PutRaises, no_calls, one_more};
ghost use Rattle.pcc_outside.specs.Memory.{no_puts};
ghost use Rattle.pcc_outside.specs.Streams.{CountsPut, PutTold};

use crate::calls::{CallLog, raise};
use crate::sink::{Sink, WriteRefusal};
use std::alloc::Global;
use std::marker::Model;

/// A sink that keeps its bytes in memory, and of which chosen calls fail.
#[derive(Drop)]
pub struct MemSink {
    bytes: Vec<u8>,
    log: CallLog,
    faults: u64,
    wants: u64,
}

impl Model for MemSink {
    ghost use Rattle.pcc_outside.specs.Memory.{SinkView};

    ghost Value = { SinkView };

    ghost view = { λ s. record {
      taken = s.bytes.items;
      calls = s.log;
      counts = record { faults = s.faults; wants = s.wants };
    } };
}

impl MemSink {
    /// A sink that has taken nothing, whose calls with these numbers fail. Calls count from 1.
    pub fn new(alloc: Global, failing: Vec<u64>) -> MemSink
        ensures { result ≡ record { taken = []; calls = no_calls failing.items; counts = no_puts } }
    {
        MemSink {
            bytes: Vec::new(alloc),
            log: CallLog::new(failing),
            faults: 0,
            wants: 0,
        }
    }

    /// The bytes taken. This is not counted as a call.
    pub fn taken(&self) -> &[u8]
        ensures { result.now ≡ self.now.taken }
    {
        self.bytes.as_slice()
    }
}

impl Sink for MemSink {
    ghost use Rattle.std.specs.Prelude.{⊤};

    ghost counts = { λ s. s.counts };

    ghost tells = { λ _. ⊤ };

    ghost taken = { λ s. s.taken };

    /// Takes all bytes, or none: `Failed` exactly where the call's number is one of those that fail.
    fn put_all(&mut self, bytes: &[u8]) -> Result<(), WriteRefusal>
        ensures counted { CountsPut self.old.counts self.new.counts result }
        ensures told { PutTold self.old.taken self.new.taken bytes.now result }
        ensures none { OnErr result (self.new.taken ≡ self.old.taken) }
        ensures fails { IsErrOf result WriteRefusal.Failed ↔ FailsNext self.old.calls }
        ensures calls { self.new.calls ≡ one_more self.old.calls }
        ensures raises { PutRaises self.old.counts self.new.counts result }
    {
        if self.log.next_fails() {
            self.faults = raise(self.faults);
            return Err(WriteRefusal::Failed);
        }
        if self.bytes.extend_from_slice(bytes).is_err() {
            self.wants = raise(self.wants);
            return Err(WriteRefusal::NoMemory);
        }
        Ok(())
    }
}
