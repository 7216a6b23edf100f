//! What the rows of the tables are to give.

use pcc_base::{Fault, Refusal};
use std::alloc::{AllocError, Global};
use std::fmt::Debug;
use std::process::Abort;

/// What was found is what was wanted, of this text, or in the row or at the step of this name.
pub fn expect<T: PartialEq + Debug>(rt: &impl Abort, found: &T, wanted: &T, of: &str) {
    assert_eq!(rt; *found, *wanted, "{of}");
}

/// The Debug form of what was found is this text.
pub(crate) fn expect_shown<T: Debug>(
    rt: &impl Abort,
    alloc: Global,
    found: &T,
    wanted: &str,
    of: &str,
) {
    let shown = format!(in alloc; "{found:?}").expect(rt, of);
    expect(rt, &shown.as_str(), &wanted, of);
}

/// A fault as `FILE:LINE:COLUMN KIND`, another refusal in its Debug form, and `none` where there is none.
fn shown_refusal(alloc: Global, refusal: Option<Refusal>) -> Result<String, AllocError> {
    match refusal {
        Some(Refusal::Fault(Fault { kind, at })) => {
            format!(in alloc; "{}:{}:{} {kind:?}", at.file, at.line, at.col)
        }
        Some(other) => format!(in alloc; "{other:?}"),
        None => String::from_str(alloc, "none"),
    }
}

/// Why a text is refused, if it is, is this as a text.
pub(crate) fn expect_refusal(
    rt: &impl Abort,
    alloc: Global,
    found: Option<Refusal>,
    wanted: &str,
    of: &str,
) {
    let shown = shown_refusal(alloc, found).expect(rt, of);
    expect(rt, &shown.as_str(), &wanted, of);
}
