ghost use Rattle.std.specs.Prelude.{◌≡◌, ◌<◌, ◌≤◌, ◌+◌, ◌^◌, length};
ghost use Rattle.c_lex.specs.Tokens.{place_after};

use pcc_base::Span;

/// The place behind these bytes, the first of which stands at the given place: a newline begins a line.
pub fn advance(at: Span, bytes: &[u8]) -> Span
    requires line { at.line + length bytes.now < 2 ^ 32 }
    requires col { at.col + length bytes.now < 2 ^ 32 }
    ensures place { result ≡ place_after at bytes.now }
    ensures line { result.line ≤ at.line + length bytes.now }
    ensures col { result.col ≤ at.col + length bytes.now }
{
    let mut place = at;
    for byte in bytes {
        if *byte == b'\n' {
            place.line += 1;
            place.col = 1;
        } else {
            place.col += 1;
        }
    }
    place
}
