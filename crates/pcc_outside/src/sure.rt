ghost use Rattle.std.specs.Prelude.{◌≡◌, IsOk};
ghost use Rattle.pcc_outside.specs.Memory.{no_puts};
ghost use Rattle.pcc_outside.specs.Streams.{NextTold};

use crate::sink::{Sink, WriteRefusal};
use crate::source::{Failed, Source};
use std::marker::Model;

/// A list of bytes in memory that never fails.
#[derive(Drop)]
pub struct SureSource {
    bytes: Vec<u8>,
    next: usize,
}

impl Model for SureSource {
    ghost use Rattle.std.specs.Prelude.{◌≤◌, ℕ, List, drop, length};

    ghost Value = { List ℕ };

    ghost view = { λ s. drop s.next s.bytes.items };

    ghost invariant = { λ s. s.next ≤ length s.bytes.items };
}

impl SureSource {
    /// A source of these bytes.
    pub fn new(bytes: Vec<u8>) -> SureSource
        ensures { result ≡ bytes.items }
    {
        SureSource { bytes, next: 0 }
    }
}

impl Source for SureSource {
    ghost use Rattle.std.specs.Prelude.{⊤};

    ghost faults = { λ _. 0 };

    ghost tells = { λ _. ⊤ };

    ghost left = { λ s. s };

    /// The next byte, or None at the end. This never fails.
    fn next_byte(&mut self) -> Result<Option<u8>, Failed>
        ensures sure { IsOk result }
        ensures told { NextTold self.old self.new result }
    {
        if self.next < self.bytes.len() {
            let byte = self.bytes[self.next];
            self.next += 1;
            return Ok(Some(byte));
        }
        Ok(None)
    }
}

/// Takes bytes without keeping them, and never fails.
#[derive(Clone, Copy)]
pub struct SureSink;

impl SureSink {
    /// A sink that keeps nothing.
    pub fn new() -> SureSink {
        SureSink
    }
}

impl Sink for SureSink {
    ghost use Rattle.std.specs.Prelude.{[]};

    ghost counts = { λ _. no_puts };

    ghost tells = { λ _. ⊥ };

    ghost taken = { λ _. [] };

    /// Takes all bytes and forgets them. This never fails.
    fn put_all(&mut self, _bytes: &[u8]) -> Result<(), WriteRefusal>
        ensures { IsOk result }
    {
        Ok(())
    }
}
