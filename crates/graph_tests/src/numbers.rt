//! Numbers cut to 8, 16 and 32 bits: what gcc gives for the casts to int8_t, int16_t and int32_t.

use crate::expected::expect;
use pcc_base::{wrap8, wrap16, wrap32, wrapped_once};

/// A number in each row, and what it is of 8, of 16 and of 32 bits.
static CASTS: [(i64, [i32; 3]); 9] = [
    (0, [0, 0, 0]),
    (127, [127, 127, 127]),
    (200, [-56, 200, 200]),
    (-129, [127, -129, -129]),
    (40000, [64, -25536, 40000]),
    (-32769, [-1, 32767, -32769]),
    (2147483648, [0, 0, -2147483648]),
    (i64::MAX, [-1, -1, -1]),
    (i64::MIN, [0, 0, 0]),
];

#[test]
fn casts(rt: HostRuntime) {
    for (number, cuts) in CASTS.iter() {
        let found = [wrap8(*number), wrap16(*number), wrap32(*number)];
        expect(&rt, &found, cuts, *number);
    }
    wrapped_once();
}
