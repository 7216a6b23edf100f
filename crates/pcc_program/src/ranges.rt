//! What numbers are by their types, as facts for callers.

ghost use Rattle.pcc_base.specs.Bytes.{AreBytes};

/// Bytes are below 256.
pub(crate) fn are_bytes(bytes: &[u8])
    ensures { AreBytes bytes.now }
{
    let _ = bytes.len();
}
