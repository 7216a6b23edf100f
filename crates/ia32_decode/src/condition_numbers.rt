//! The registers of 8 bits, conditions and operations by their numbers in an instruction.

ghost use Rattle.std.specs.Prelude.{◌≡◌};
ghost use Rattle.ia32_insn.specs.Reading.{byte_register_at, condition_at, operation_at, shift_at};

use ia32_insn::{AluOp, Cond, Reg8, ShiftOp};

/// The register of 8 bits with this number (Intel manual, volume 2, table 3-1).
#[tactic(auto, unfolding(ia32_insn::specs::Reading::byte_register_at))]
pub(crate) fn byte_register_of(number: u8) -> Reg8
    ensures { result ≡ byte_register_at number }
{
    match number {
        0 => Reg8::Al,
        1 => Reg8::Cl,
        2 => Reg8::Dl,
        3 => Reg8::Bl,
        4 => Reg8::Ah,
        5 => Reg8::Ch,
        6 => Reg8::Dh,
        _ => Reg8::Bh,
    }
}

/// The condition with this number (Intel manual, volume 1, appendix B).
#[tactic(auto, unfolding(ia32_insn::specs::Reading::condition_at))]
pub fn condition_of(number: u8) -> Cond
    ensures { result ≡ condition_at number }
{
    match number {
        0 => Cond::O,
        1 => Cond::No,
        2 => Cond::B,
        3 => Cond::Ae,
        4 => Cond::E,
        5 => Cond::Ne,
        6 => Cond::Be,
        7 => Cond::A,
        8 => Cond::S,
        9 => Cond::Ns,
        10 => Cond::P,
        11 => Cond::Np,
        12 => Cond::L,
        13 => Cond::Ge,
        14 => Cond::Le,
        _ => Cond::G,
    }
}

/// The operation of two operands with this number. ADC and SBB, numbers 2 and 3, are none.
#[tactic(auto, unfolding(ia32_insn::specs::Reading::operation_at))]
pub(crate) fn operation_of(number: u8) -> Option<AluOp>
    ensures { result ≡ operation_at number }
{
    match number {
        0 => Some(AluOp::Add),
        1 => Some(AluOp::Or),
        4 => Some(AluOp::And),
        5 => Some(AluOp::Sub),
        6 => Some(AluOp::Xor),
        7 => Some(AluOp::Cmp),
        _ => None,
    }
}

/// The shift with this number. The rotations are none.
#[tactic(auto, unfolding(ia32_insn::specs::Reading::shift_at))]
pub(crate) fn shift_of(number: u8) -> Option<ShiftOp>
    ensures { result ≡ shift_at number }
{
    match number {
        4 => Some(ShiftOp::Shl),
        5 => Some(ShiftOp::Shr),
        7 => Some(ShiftOp::Sar),
        _ => None,
    }
}
