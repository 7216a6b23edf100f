//! Which bytes are a name.

ghost use Rattle.std.specs.Prelude.{All};
ghost use Rattle.std.specs.Bool.{Decides};
ghost use Rattle.pcc_base.specs.Names.{IsDigit, IsName, IsNameByte};

/// Whether a byte is a digit.
fn is_digit(byte: u8) -> bool
    ensures { Decides result (IsDigit byte) }
{
    byte.is_ascii_digit()
}

/// Whether a byte may stand in a name: an ASCII letter, a digit or `_` (C99 6.4.2.1).
fn is_name_byte(byte: u8) -> bool
    ensures { Decides result (IsNameByte byte) }
{
    byte.is_ascii_alphanumeric() || byte == b'_'
}

/// Whether all bytes may stand in a name.
fn are_name_bytes(bytes: &[u8]) -> bool
    ensures { Decides result (All IsNameByte bytes.now) }
{
    bytes.iter().all(|byte| is_name_byte(*byte))
}

/// Whether bytes are a name: one at least, and no digit first.
pub(crate) fn is_name(bytes: &[u8]) -> bool
    ensures { Decides result (IsName bytes.now) }
{
    !bytes.is_empty() && !is_digit(bytes[0]) && are_name_bytes(bytes)
}
