ghost use Rattle.std.specs.Prelude.{◌≡◌, ◌↔◌, IsErr};
ghost use Rattle.pcc_outside.specs.Calls.{FailsNext, faults_after, no_calls, one_more};
ghost use Rattle.pcc_outside.specs.Streams.{CountsNext, NextTold};

use crate::calls::{CallLog, raise};
use crate::source::{Failed, Source};
use std::marker::Model;

/// A list of bytes in memory, of which chosen calls fail.
#[derive(Drop)]
pub struct MemSource {
    bytes: Vec<u8>,
    next: usize,
    log: CallLog,
    faults: u64,
}

impl Model for MemSource {
    ghost use Rattle.std.specs.Prelude.{◌≤◌, drop, length};
    ghost use Rattle.pcc_outside.specs.Memory.{SourceView};

    ghost Value = { SourceView };

    ghost view = { λ s. record { left = drop s.next s.bytes.items; calls = s.log; faults = s.faults } };

    ghost invariant = { λ s. s.next ≤ length s.bytes.items };
}

impl MemSource {
    /// A source of these bytes, whose calls with these numbers fail. Calls count from 1.
    pub fn new(bytes: Vec<u8>, failing: Vec<u64>) -> MemSource
        ensures { result ≡ record { left = bytes.items; calls = no_calls failing.items; faults = 0 } }
    {
        MemSource {
            bytes,
            next: 0,
            log: CallLog::new(failing),
            faults: 0,
        }
    }
}

impl Source for MemSource {
    ghost use Rattle.std.specs.Prelude.{⊤};

    ghost faults = { λ s. s.faults };

    ghost tells = { λ _. ⊤ };

    ghost left = { λ s. s.left };

    /// The next byte, or `Failed` exactly where the call's number is one of those that fail.
    fn next_byte(&mut self) -> Result<Option<u8>, Failed>
        ensures counted { CountsNext self.old.faults self.new.faults result }
        ensures told { NextTold self.old.left self.new.left result }
        ensures fails { IsErr result ↔ FailsNext self.old.calls }
        ensures calls { self.new.calls ≡ one_more self.old.calls }
        ensures raises { self.new.faults ≡ faults_after self.old.faults result }
    {
        if self.log.next_fails() {
            self.faults = raise(self.faults);
            return Err(Failed);
        }
        if self.next < self.bytes.len() {
            let byte = self.bytes[self.next];
            self.next += 1;
            return Ok(Some(byte));
        }
        Ok(None)
    }
}
