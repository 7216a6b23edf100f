ghost use Rattle.std.specs.Prelude.{◌≡◌, ℕ, Bool, MatchOption, pos};
ghost use Rattle.c_lex.specs.Literals.{StartsNumber, IsConstant};
ghost use Rattle.c_lex.specs.Scans.{IsFound};

use crate::number_texts::{number_length, value_in};
use crate::radix::Radix;
use crate::scanned::Scanned;
use crate::token::TokenKind;

/// The value of an integer constant (C99 6.4.4.1), and None where the text is no constant of the language.
fn constant_value(text: &[u8]) -> Option<i32>
    ensures { MatchOption result ((value : ℕ) → IsConstant text.now value → ⊥) (λ z. (value : ℕ)
        × IsConstant text.now value × (z ≡ pos value)) }
{
    if text.is_empty() {
        return None;
    }
    if text[0] != b'0' {
        return value_in(Radix::Decimal, text);
    }
    if text.len() > 2 && (text[1] == b'x' || text[1] == b'X') {
        return value_in(Radix::Hexadecimal, &text[2..]);
    }
    value_in(Radix::Octal, &text[1..])
}

/// The integer constant that begins the rest (C99 6.4.4.1, 6.4.8), and None where the longest
/// preprocessing number there is no constant of the language.
pub fn number_at(rest: &[u8]) -> Option<(usize, Scanned)>
    requires { StartsNumber rest.now }
    ensures { (fresh : Bool) → IsFound fresh rest.now result }
{
    let end = number_length(rest);
    let value = constant_value(&rest[..end])?;
    Some((
        end,
        Scanned::Token(TokenKind::Number {
            value,
            unsigned: false,
        }),
    ))
}
