//! Which bytes begin a piece.

ghost use Rattle.std.specs.Prelude.{◌≡◌, ◌↔◌, ◌||◌, ◌==◌, IsTrue};
ghost use Rattle.pcc_base.specs.Ascii.{apostrophe, double_quote};
ghost use Rattle.c_lex.specs.Bytes.{is_digit, is_letter, is_space};
ghost use Rattle.c_lex.specs.Literals.{StartsNumber};

/// Whether a preprocessing number begins the rest of a text (C99 6.4.8).
pub(crate) fn starts_number(rest: &[u8]) -> bool
    ensures { IsTrue result ↔ StartsNumber rest.now }
{
    if rest.is_empty() {
        return false;
    }
    if is_digit(rest[0]) {
        return true;
    }
    rest[0] == b'.' && rest.len() > 1 && is_digit(rest[1])
}

/// Whether the byte begins a character constant or a string literal (C99 6.4.4.4, 6.4.5).
pub(crate) fn is_quote(byte: u8) -> bool
    ensures { result ≡ (byte == apostrophe || byte == double_quote) }
{
    byte == b'\'' || byte == b'"'
}

/// Whether the byte begins an identifier or a keyword (C99 6.4.2.1).
pub fn is_letter(byte: u8) -> bool
    ensures { result ≡ is_letter byte }
{
    byte.is_ascii_alphabetic() || byte == b'_'
}

/// Whether the byte is a digit (C99 6.4.2.1).
fn is_digit(byte: u8) -> bool
    ensures { result ≡ is_digit byte }
{
    byte.is_ascii_digit()
}

/// Whether the byte is white space (C99 6.4).
pub(crate) fn is_space(byte: u8) -> bool
    ensures { result ≡ is_space byte }
{
    byte == b' ' || (b'\t' <= byte && byte <= b'\r')
}
