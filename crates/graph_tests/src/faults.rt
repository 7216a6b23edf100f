//! The number and the name of a kind of fault.

use crate::expected::expect;
use pcc_base::{FaultKind, Keyword};

/// Kinds of faults, each with its number and its name.
static KINDS: [(FaultKind, (u8, &str)); 5] = [
    (FaultKind::BadByte, (1, "BadByte")),
    (FaultKind::Unsupported(Keyword::Float), (6, "Unsupported")),
    (FaultKind::TypeRule, (10, "Type")),
    (FaultKind::NoBody, (19, "NoBody")),
    (FaultKind::BadBoard, (25, "BadBoard")),
];

#[test]
fn prints(rt: HostRuntime) {
    for (kind, printed) in KINDS.iter() {
        expect(&rt, &(kind.number(), kind.name()), printed, printed.1);
    }
}
