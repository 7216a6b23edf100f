ghost use Rattle.std.specs.Prelude.{◌≡◌, ◌≢◌, ◌≤◌, ℕ, List, Option, IfOk, vec_len};
ghost use Rattle.pcc_outside.specs.Files.{StoreCounts, CountsRead, CountsWrite, ReadTold, WriteTold};

use crate::sink::WriteRefusal;
use std::alloc::Global;

/// Why a file wasn't read.
#[derive(Clone, Copy, Debug, PartialEq, Eq)]
pub enum ReadRefusal {
    /// There is no such file.
    Missing,
    /// The file has more bytes than were asked for at most.
    TooLong,
    /// The outside refused.
    Failed,
    /// There was no memory for the bytes.
    NoMemory,
}

/// Where files are kept under names.
pub trait FileStore {
    /// How often a read failed, a write failed, a name was missing, and a file was too long.
    ghost counts: { Self → StoreCounts };

    /// The store tells what it holds.
    ghost tells: { Self → Type 0 };

    /// The bytes under each name, where the store tells.
    ghost content: { Self → List ℕ → Option (List ℕ) };

    /// The bytes under the name, where they are at most `most`. Nothing that is held changes.
    fn read(&mut self, alloc: Global, name: &str, most: usize) -> Result<Vec<u8>, ReadRefusal>
        ensures counted { CountsRead (counts self.old) (counts self.new) result }
        ensures size { IfOk result (λ bytes. vec_len bytes ≤ most) }
        ensures telling { tells self.old → tells self.new }
        ensures kept { tells self.old → (other : List ℕ) → content self.new other ≡ content self.old other }
        ensures told { tells self.old → ReadTold (content self.old name.now) most result };

    /// Puts the bytes under the name. After `Failed` what stands under the name is unknown, and after
    /// `NoMemory` nothing changed.
    fn write(&mut self, name: &str, bytes: &[u8]) -> Result<(), WriteRefusal>
        ensures counted { CountsWrite (counts self.old) (counts self.new) result }
        ensures telling { tells self.old → tells self.new }
        ensures others { tells self.old → (other : List ℕ) → other ≢ name.now → content self.new other
            ≡ content self.old other }
        ensures told { tells self.old → WriteTold (content self.old name.now) (content self.new name.now) bytes.now
            result };
}
