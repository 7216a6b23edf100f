ghost use Rattle.std.specs.Prelude.{ℕ, List};
ghost use Rattle.pcc_outside.specs.Streams.{SinkCounts, CountsPut, PutTold};

/// Why bytes weren't taken or stored.
#[derive(Clone, Copy, Debug, PartialEq, Eq)]
pub enum WriteRefusal {
    /// The outside refused.
    Failed,
    /// There was no memory for the bytes.
    NoMemory,
}

/// Where bytes go.
pub trait Sink {
    /// How often the sink has failed, and how often it found no memory.
    ghost counts: { Self → SinkCounts };

    /// The sink tells which bytes it took.
    ghost tells: { Self → Type 0 };

    /// The bytes taken, where the sink tells.
    ghost taken: { Self → List ℕ };

    /// Takes all bytes. After `Failed` the sink took a prefix of them, and after `NoMemory` none.
    fn put_all(&mut self, bytes: &[u8]) -> Result<(), WriteRefusal>
        ensures counted { CountsPut (counts self.old) (counts self.new) result }
        ensures telling { tells self.old → tells self.new }
        ensures told { tells self.old → PutTold (taken self.old) (taken self.new) bytes.now result };
}
