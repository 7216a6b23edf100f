//! The registers by their numbers in an instruction.

ghost use Rattle.std.specs.Prelude.{◌≡◌};
ghost use Rattle.ia32_insn.specs.Reading.{register_at};

use ia32_insn::Reg32;

/// The register of 32 bits with this number (Intel manual, volume 2, table 3-1).
#[tactic(auto, unfolding(ia32_insn::specs::Reading::register_at))]
pub fn register_of(number: u8) -> Reg32
    ensures { result ≡ register_at number }
{
    match number {
        0 => Reg32::Eax,
        1 => Reg32::Ecx,
        2 => Reg32::Edx,
        3 => Reg32::Ebx,
        4 => Reg32::Esp,
        5 => Reg32::Ebp,
        6 => Reg32::Esi,
        _ => Reg32::Edi,
    }
}
