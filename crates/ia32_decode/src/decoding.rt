//! The instruction that begins some bytes.

ghost use Rattle.std.specs.Prelude.{◌≡◌, ◌≤◌, IfSome, IfNone};
ghost use Rattle.ia32_insn.specs.Spelling.{Begins, NoneBegins};
ghost use Rattle.ia32_insn.specs.Reading.{read_insn};

use crate::one_byte;
use ia32_insn::Insn;

/// The instruction that begins the bytes, by its opcode.
#[tactic(auto, unfolding(ia32_insn::specs::Reading::read_insn))]
fn read(bytes: &[u8]) -> Option<(Insn, usize)>
    ensures { result ≡ read_insn bytes.now }
{
    if bytes.is_empty() {
        return None;
    }
    one_byte::read(bytes[0], &bytes[1..])
}

/// The instruction whose spelling begins the bytes, and the length of the spelling. None exactly where
/// no prefix of the bytes is a spelling (Intel manual, volume 2, appendix A).
pub fn decode(bytes: &[u8]) -> Option<(Insn, usize)>
    ensures found { IfSome result (λ found. Begins found.0 found.1 bytes.now) }
    ensures none { IfNone result (NoneBegins bytes.now) }
    ensures short { IfSome result (λ found. found.1 ≤ 15) }
{
    read(bytes)
}
