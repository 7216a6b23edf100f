ghost use Rattle.std.specs.Prelude.{◌≡◌, ◌<◌, length};
ghost use Rattle.c_lex.specs.Literals.{is_closed};
ghost use Rattle.c_lex.specs.Pieces.{IsFaultOf};

use crate::classes::{is_quote, starts_number};
use pcc_base::FaultKind;

/// Which fault stands where no piece begins the rest of a text.
pub fn fault_of(rest: &[u8]) -> FaultKind
    requires { 0 < length rest.now }
    ensures { IsFaultOf rest.now result }
{
    let first = rest[0];
    if first == b'/' && rest.len() > 1 && rest[1] == b'*' {
        return FaultKind::Unclosed;
    }
    if is_quote(first) {
        if is_closed(first, &rest[1..]) {
            return FaultKind::BadEscape;
        }
        return FaultKind::Unclosed;
    }
    if starts_number(rest) {
        return FaultKind::BadNumber;
    }
    FaultKind::BadByte
}

/// Whether the literal in such quotes whose inside begins so is closed before the end of the line (C99
/// 6.4.4.4, 6.4.5): a backslash takes the next byte with it.
fn is_closed(quote: u8, inside: &[u8]) -> bool
    ensures { result ≡ is_closed quote inside.now }
{
    let mut at = 0;
    while at < inside.len() {
        let byte = inside[at];
        if byte == quote {
            return true;
        }
        if byte == b'\n' {
            return false;
        }
        if byte == b'\\' {
            at += 1;
            if at < inside.len() && inside[at] == b'\n' {
                return false;
            }
        }
        at += 1;
    }
    false
}
