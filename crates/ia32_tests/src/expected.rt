//! How what was made is compared with what was wanted.

use std::fmt::{Debug, Display};
use std::process::Abort;

/// What was made is what was wanted, in the row, at the place or in the part that the last argument names.
pub fn expect<T: PartialEq + Debug, D: Display + Copy>(
    rt: &impl Abort,
    made: &T,
    wanted: &T,
    of: D,
) {
    assert_eq!(rt; *made, *wanted, "{of}");
}
