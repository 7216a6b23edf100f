//! How an evaluation ends.

ghost use Rattle.std.specs.Prelude.{◌≡◌};
ghost use Rattle.c_eval_state.specs.declared.end.EvalEnd.TheVariants.{NoMemory as Wanting};

use pcc_base::{NoMemory, Trap};

/// How an evaluation ends.
#[derive(Clone, Copy)]
pub enum EvalEnd {
    /// The program ended, with this exit status (C99 5.1.2.2.3 and 7.20.4.3).
    Ended(u8),
    /// The program trapped.
    Trapped(Trap),
    /// The program goes on, and no turn is left.
    TurnsSpent,
    /// The input failed.
    ReadFault,
    /// The output failed.
    WriteFault,
    /// There was no memory.
    NoMemory,
}

impl From<NoMemory> for EvalEnd {
    ghost from_gives = { λ _ made. made ≡ Wanting };

    fn from(_e: NoMemory) -> EvalEnd {
        EvalEnd::NoMemory
    }
}
