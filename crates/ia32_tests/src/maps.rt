//! Digits in the texts of maps, by hand.

use crate::expected::expect;
use crate::rows::number_of;
use map_text::{push_address, push_number};

/// Decimal numbers have no zeros in front; addresses have eight digits of lower case.
#[test]
fn digits(rt: HostRuntime) {
    let alloc = rt.alloc();
    for text in ["0", "7", "100", "4294967295"] {
        let mut out = Vec::new(alloc);
        let number = text.parse().expect(&rt, text);
        push_number(&mut out, number).expect(&rt, "a number");
        expect(&rt, &out.as_slice(), &text.as_bytes(), text);
    }
    for text in ["00000000", "08048005", "c0def9a1", "ffffffff"] {
        let mut out = Vec::new(alloc);
        push_address(&mut out, number_of(&rt, text)).expect(&rt, "an address");
        expect(&rt, &out.as_slice(), &text.as_bytes(), text);
    }
}
