//! Heights that trees may have.

ghost use Rattle.std.specs.Prelude.{◌≡◌, ◌<◌, ◌≤◌, Some, true};
ghost use Rattle.c_parse_expressions.specs.declared.parse_error.ParseError.TheVariants.{Fault as TooDeep};

use crate::parse_error::ParseError;
use pcc_base::Span;

/// How high a tree may be: so many nodes may stand one below the other, from 1 to 256.
#[derive(Clone, Copy)]
pub struct Height {
    pub levels: u32,
    ghost low: { 0 < levels },
    ghost high: { levels ≤ 256 },
}

impl Height {
    ghost use Rattle.std.specs.Prelude.{◌≡◌, ◌-◌, ◌<◌, ◌≤◌, IfSome, IfNone, IfOk, IfErr, Some, true};
    ghost use Rattle.c_parse_expressions.specs.declared.parse_error.ParseError.TheVariants.{Fault};

    /// The height of a whole unit.
    pub fn whole() -> Height
        ensures { result.levels ≡ 256 }
    {
        Height { levels: 256 }
    }

    /// The height of what stands below a node of this height, where there is one.
    pub fn lower(self) -> Option<Height>
        ensures some { IfSome result (λ lower. (1 < self.levels) × (lower.levels ≡ self.levels - 1)) }
        ensures none { IfNone result (self.levels ≡ 1) }
    {
        if self.levels == 1 {
            return None;
        }
        Some(Height {
            levels: self.levels - 1,
        })
    }

    /// The height of what stands below a node of this height; where there is none, the node is too deep at this place.
    pub fn below(self, at: Span) -> Result<Height, ParseError>
        ensures ok { IfOk result (λ lower. (1 < self.levels) × (lower.levels ≡ self.levels - 1)) }
        ensures err { IfErr result (λ e. (self.levels ≡ 1) × (e ≡ Fault true (Some at))) }
    {
        match self.lower() {
            Some(lower) => Ok(lower),
            None => Err(too_deep(at)),
        }
    }

    /// The height of what else stands below a node of this height above a part that is so high; where the node would be
    /// higher, it is too deep at this place.
    pub fn above(self, part: u32, at: Span) -> Result<Height, ParseError>
        requires { 0 < part }
        ensures ok { IfOk result (λ lower. (part < self.levels) × (lower.levels ≡ self.levels - 1)) }
        ensures err { IfErr result (λ e. (self.levels ≤ part) × (e ≡ Fault true (Some at))) }
    {
        if part >= self.levels {
            return Err(too_deep(at));
        }
        Ok(Height {
            levels: self.levels - 1,
        })
    }
}

/// The fault of a node that is too deep, at the place of its token.
fn too_deep(at: Span) -> ParseError
    ensures { result ≡ TooDeep true (Some at) }
{
    ParseError::Fault {
        deep: true,
        at: Some(at),
    }
}
