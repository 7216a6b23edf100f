ghost use Rattle.std.specs.Prelude.{ℕ, List};
ghost use Rattle.pcc_outside.specs.Streams.{CountsNext, NextTold};

/// The outside refused, and its count of faults rose.
#[derive(Clone, Copy, Debug, PartialEq, Eq)]
pub struct Failed;

/// Where bytes come from.
pub trait Source {
    /// How often the source has failed.
    ghost faults: { Self → ℕ };

    /// The source tells which bytes it has left.
    ghost tells: { Self → Type 0 };

    /// The bytes left, where the source tells.
    ghost left: { Self → List ℕ };

    /// The next byte, or None at the end. A byte that is answered is removed.
    fn next_byte(&mut self) -> Result<Option<u8>, Failed>
        ensures counted { CountsNext (faults self.old) (faults self.new) result }
        ensures telling { tells self.old → tells self.new }
        ensures told { tells self.old → NextTold (left self.old) (left self.new) result };
}
