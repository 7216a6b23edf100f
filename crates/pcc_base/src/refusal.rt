ghost use Rattle.std.specs.Prelude.{◌≡◌};
ghost use Rattle.pcc_base.specs.declared.refusal.Refusal.TheVariants.{NoMemory as Wanting};

use crate::fault::Fault;
use crate::memory::NoMemory;

/// A quantity that is above its limit.
#[derive(Clone, Copy, Debug)]
pub enum Limit {
    /// The number of tokens of all files.
    Tokens(u64),
    /// The bytes of all static objects.
    Arrays(u64),
    /// The number of a function, and the bytes of its frame.
    Frame(u32, u64),
    /// The number of source files.
    Files(u64),
    /// The position of a file among the files given, whose bytes are too many.
    FileBytes(u32),
}

/// Why a pass of the compiler gives no result.
#[derive(Clone, Copy, Debug)]
pub enum Refusal {
    Fault(Fault),
    Limit(Limit),
    NoMemory,
}

impl From<NoMemory> for Refusal {
    ghost from_gives = { λ _ refusal. refusal ≡ Wanting };

    fn from(_e: NoMemory) -> Refusal {
        Refusal::NoMemory
    }
}
