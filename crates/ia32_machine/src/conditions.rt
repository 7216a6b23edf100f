ghost use Rattle.std.specs.Prelude.{◌≡◌};
ghost use Rattle.ia32_insn.specs.Arithmetic as arithmetic;

use ia32_insn::{Cond, Flags};

/// Whether the condition holds (Intel manual, volume 1, appendix B). `None` where the flags are unknown,
/// and for P and NP, since PF isn't kept.
#[inline]
pub fn holds(cond: Cond, flags: Option<Flags>) -> Option<bool>
    ensures { result ≡ arithmetic.holds cond flags }
{
    let Flags { cf, zf, sf, of } = flags?;
    match cond {
        Cond::O => Some(of),
        Cond::No => Some(!of),
        Cond::B => Some(cf),
        Cond::Ae => Some(!cf),
        Cond::E => Some(zf),
        Cond::Ne => Some(!zf),
        Cond::Be => Some(cf || zf),
        Cond::A => Some(!cf && !zf),
        Cond::S => Some(sf),
        Cond::Ns => Some(!sf),
        Cond::P | Cond::Np => None,
        Cond::L => Some(sf != of),
        Cond::Ge => Some(sf == of),
        Cond::Le => Some(zf || sf != of),
        Cond::G => Some(!zf && sf == of),
    }
}
