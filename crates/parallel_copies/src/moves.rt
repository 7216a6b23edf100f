//! Moves from a place to another.

ghost use Rattle.std.specs.Prelude.{⊤};

use ia32_emit::Location;
use ia32_insn::Reg32;
use pcc_base::Width;

/// What stands in the place `from` is to come to the place `to`: a word where the width is Two, a byte where it is
/// One, which is the lowest byte of a slot.
#[derive(Clone, Copy)]
pub struct Move {
    pub from: Location,
    pub to: Location,
    pub width: Width,
}

/// A move that changes nothing.
impl Default for Move {
    ghost is_default = { λ m. ⊤ };

    fn default() -> Move {
        Move {
            from: Location::Word(Reg32::Eax),
            to: Location::Word(Reg32::Eax),
            width: Width::Two,
        }
    }
}
