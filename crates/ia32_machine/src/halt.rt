ghost use Rattle.std.specs.Prelude.{◌≡◌};

use pcc_base::{Stop, Trap};

/// How an instruction ends the run.
#[derive(Clone, Copy)]
pub enum Halt {
    /// The program trapped.
    Trapped(Trap),
    /// The processor has no step, for this cause, at the instruction at EIP.
    Stopped(Stop),
}

/// No area allows the access whose first byte is at this address.
pub(crate) fn denied(address: u32) -> Halt
    ensures { result ≡ Halt.Stopped (Stop.Access address) }
{
    Halt::Stopped(Stop::Access(address))
}
