//! Texts of generated programs, beside what a program of its own outside of the repository makes by the same list of lines.

use crate::expected::expect;
use pcc_gen::{gen_program, gen_text};
use std::alloc::Global;
use std::process::Abort;

/// Numbers, the bytes of their programs' texts, and the sums of these.
static PROGRAMS: [(u32, usize, u32); 5] = [
    (1, 23_167, 2_743_259_524),
    (2, 23_180, 3_194_298_191),
    (3, 23_167, 1_134_951_183),
    (0, 23_151, 1_528_417_334),
    (u32::MAX, 23_172, 3_043_699_623),
];

/// How the program of 1 begins.
const BEGINNING: &str = "int t[64];
int f0(int a, int b) {
  char c = a;
  short d = b;
  int e = 838;
  d = a / 7;
";

/// The sum of bytes as digits of a number to base 31, in 32 bits: another one where two bytes change places.
fn sum_of(bytes: &[u8]) -> u32 {
    let mut sum: u32 = 0;
    for byte in bytes {
        sum = sum.wrapping_mul(31).wrapping_add(u32::from(*byte));
    }
    sum
}

#[test]
fn generates(rt: HostRuntime) {
    for (number, length, sum) in &PROGRAMS {
        let text = gen_text(rt.alloc(), *number).expect(&rt, "memory");
        expect(&rt, &text.len(), length, *number);
        expect(&rt, &sum_of(&text), sum, *number);
    }
}

#[test]
fn begins_as_drawn(rt: HostRuntime) {
    let text = gen_text(rt.alloc(), 1).expect(&rt, "memory");
    assert!(rt; text.starts_with(BEGINNING.as_bytes()));
}

#[test]
fn generates_larger_programs(rt: HostRuntime) {
    let text = gen_program(rt.alloc(), 230, 1).expect(&rt, "memory");
    expect(&rt, &text.len(), &132_470, "230 functions");
}
