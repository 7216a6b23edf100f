ghost use Rattle.std.specs.Prelude.{◌≡◌, ◌≤◌, ◌==◌, ◌↔◌, ◌∷◌, ℕ, List, Bool, IsTrue, length, not};
ghost use Rattle.std.specs.List.{prefix_len};
ghost use Rattle.pcc_base.specs.Ascii.{hash, newline};
ghost use Rattle.c_lex.specs.Bytes.{is_blank, is_space};
ghost use Rattle.c_lex.specs.Pieces.{IsMarker};
ghost use Rattle.c_lex.specs.Directives.{IsPragma, IsDirective};
ghost use Rattle.c_lex.specs.Scans.{IsFound};

use crate::scanned::Scanned;
use crate::words::is_word_byte;

/// The byte of white space that begins the rest.
pub(crate) fn space_at(rest: &[u8]) -> Option<(usize, Scanned)>
    requires { (b : ℕ) × (others : List ℕ) × (rest.now ≡ b ∷ others) × IsTrue (is_space b) }
    ensures { (fresh : Bool) → IsFound fresh rest.now result }
{
    let _ = rest;
    Some((1, Scanned::Space))
}

/// How many bytes there are before the newline, or before the end where there is none.
pub(crate) fn line_length(bytes: &[u8]) -> usize
    ensures count { result ≡ prefix_len (λ b. not (b == newline)) bytes.now }
    ensures within { result ≤ length bytes.now }
{
    bytes
        .iter()
        .position(|b| *b == b'\n')
        .unwrap_or(bytes.len())
}

/// How many spaces and tabs the bytes begin with.
fn blank_count(bytes: &[u8]) -> usize
    ensures count { result ≡ prefix_len is_blank bytes.now }
    ensures within { result ≤ length bytes.now }
{
    bytes
        .iter()
        .position(|b| *b != b' ' && *b != b'\t')
        .unwrap_or(bytes.len())
}

/// Whether the bytes begin with the word `pragma`.
fn is_pragma(bytes: &[u8]) -> bool
    ensures { IsTrue result ↔ IsPragma bytes.now }
{
    if !bytes.starts_with(b"pragma") {
        return false;
    }
    bytes.len() == 6 || !is_word_byte(bytes[6])
}

/// Whether the bytes begin with a digit or the word `pragma`.
fn is_directive(bytes: &[u8]) -> bool
    ensures { IsTrue result ↔ IsDirective bytes.now }
{
    if bytes.is_empty() {
        return false;
    }
    if bytes[0].is_ascii_digit() {
        return true;
    }
    is_pragma(bytes)
}

/// Whether a line that goes on so behind its `#` is one that the preprocessor left behind.
fn is_marker(behind: &[u8]) -> bool
    ensures { IsTrue result ↔ IsMarker (hash ∷ behind.now) }
{
    let blanks = blank_count(behind);
    is_directive(&behind[blanks..])
}

/// The line that is skipped, where one may be and `#` is followed by a digit or the word `pragma`, and
/// None elsewhere.
pub(crate) fn hash_at(fresh: bool, rest: &[u8]) -> Option<(usize, Scanned)>
    requires { (others : List ℕ) × (rest.now ≡ hash ∷ others) }
    ensures { IsFound fresh rest.now result }
{
    if !fresh {
        return None;
    }
    let end = line_length(rest);
    if is_marker(&rest[1..end]) {
        Some((end, Scanned::Skipped))
    } else {
        None
    }
}
