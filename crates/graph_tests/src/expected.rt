//! How what was found is compared with what was wanted.

use std::fmt::{Debug, Display};
use std::process::Abort;

/// What was found is what was wanted, in the row or part, or at the point or call, that the last argument names.
pub fn expect<T: PartialEq + Debug, D: Display + Copy>(
    rt: &impl Abort,
    found: &T,
    wanted: &T,
    of: D,
) {
    assert_eq!(rt; *found, *wanted, "{of}");
}
