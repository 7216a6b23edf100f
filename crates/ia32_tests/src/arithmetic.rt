//! Each value is what a processor gave for the instruction, run by a C program with inline assembly. A quotient
//! that is `None` raised the divide error.

use crate::expected::expect;
use ia32_insn::{AluOp, Cond, Flags, ShiftOp};
use ia32_machine::{
    alu, complement, divide, divide_signed, holds, negation, product, shift, sign_extend8,
    sign_extend16, sign_word, with_low16,
};
use std::process::Abort;

/// CF, ZF, SF and OF.
type Bits = [u8; 4];

fn flags([cf, zf, sf, of]: Bits) -> Flags {
    Flags {
        cf: cf == 1,
        zf: zf == 1,
        sf: sf == 1,
        of: of == 1,
    }
}

/// A table: on each line what goes in, and then what comes out.
macro_rules! results {
    ($($given:expr => $result:expr;)*) => {
        [$(($given, $result)),*]
    };
}

/// Operations on two words, their results and flags.
const OPERATIONS: [((AluOp, u32, u32), (u32, Bits)); 10] = results! {
    (AluOp::Add, 1, 0xffff_ffff) => (0, [1, 1, 0, 0]);
    (AluOp::Add, 0x7fff_ffff, 1) => (0x8000_0000, [0, 0, 1, 1]);
    (AluOp::Add, 0x8000_0000, 0x8000_0000) => (0, [1, 1, 0, 1]);
    (AluOp::Or, 0xf0f0_f0f0, 0x0f0f_0f0f) => (0xffff_ffff, [0, 0, 1, 0]);
    (AluOp::And, 0xf0f0_f0f0, 0x0f0f_0f0f) => (0, [0, 1, 0, 0]);
    (AluOp::Sub, 0, 1) => (0xffff_ffff, [1, 0, 1, 0]);
    (AluOp::Sub, 0x8000_0000, 1) => (0x7fff_ffff, [0, 0, 0, 1]);
    (AluOp::Sub, 1, 0x8000_0000) => (0x8000_0001, [1, 0, 1, 1]);
    (AluOp::Xor, 0x1234_5678, 0x9abc_def0) => (0x8888_8888, [0, 0, 1, 0]);
    (AluOp::Cmp, 0x1234_5678, 0x9abc_def0) => (0x7777_7788, [1, 0, 0, 0]);
};

/// The operation of each row has this result, with these flags.
fn expect_operations(rt: &impl Abort, rows: &[((AluOp, u32, u32), (u32, Bits))]) {
    for (row, ((op, a, b), (value, bits))) in rows.iter().enumerate() {
        expect(rt, &alu(*op, *a, *b), &(*value, flags(*bits)), row);
    }
}

#[test]
fn operations(rt: HostRuntime) {
    expect_operations(&rt, &OPERATIONS);
}

/// A word and a count: shifted to the left, to the right, and to the right with its sign.
const SHIFTS: [((u32, u8), [u32; 3]); 5] = results! {
    (0x8000_0001, 1) => [0x2, 0x4000_0000, 0xc000_0000];
    (0x8000_0001, 31) => [0x8000_0000, 1, 0xffff_ffff];
    (0x8000_0001, 32) => [0x8000_0001, 0x8000_0001, 0x8000_0001];
    (0xfedc_ba98, 4) => [0xedcb_a980, 0x0fed_cba9, 0xffed_cba9];
    (0x7edc_ba98, 255) => [0, 0, 0];
};

/// A word: its complement, its negation, its sign as a word, and its lowest byte and half with their signs.
const WORDS: [(u32, [u32; 5]); 3] = results! {
    1 => [0xffff_fffe, 0xffff_ffff, 0, 1, 1];
    0x7fff_80ff => [0x8000_7f00, 0x8000_7f01, 0, 0xffff_ffff, 0xffff_80ff];
    0x8000_0000 => [0x7fff_ffff, 0x8000_0000, 0xffff_ffff, 0, 0];
};

/// What is made of a word is this.
fn expect_made(rt: &impl Abort, a: u32, made: u32, expected: u32) {
    expect(rt, &made, &expected, a);
}

/// The word of each row is shifted so.
fn expect_shifts(rt: &impl Abort, rows: &[((u32, u8), [u32; 3])]) {
    for ((a, count), [left, right, signed]) in rows {
        expect_made(rt, *a, shift(ShiftOp::Shl, *a, *count), *left);
        expect_made(rt, *a, shift(ShiftOp::Shr, *a, *count), *right);
        expect_made(rt, *a, shift(ShiftOp::Sar, *a, *count), *signed);
    }
}

/// The word of each row gives these.
fn expect_words(rt: &impl Abort, rows: &[(u32, [u32; 5])]) {
    for (a, [not, neg, sign, byte, half]) in rows {
        expect_made(rt, *a, complement(*a), *not);
        expect_made(rt, *a, negation(*a), *neg);
        expect_made(rt, *a, sign_word(*a), *sign);
        expect_made(rt, *a, sign_extend8((*a & 0xff) as u8), *byte);
        expect_made(rt, *a, sign_extend16((*a & 0xffff) as u16), *half);
    }
}

#[test]
fn words(rt: HostRuntime) {
    expect_shifts(&rt, &SHIFTS);
    expect_words(&rt, &WORDS);
    expect_made(&rt, 0xffff_fffe, product(0xffff_fffe, 7), 0xffff_fff2);
    expect_made(
        &rt,
        0x1234_5678,
        with_low16(0x8000, 0x1234_5678),
        0x1234_8000,
    );
}

/// A dividend and a divisor, and their quotient and remainder.
type Division = ((u64, u32), Option<(u32, u32)>);

const UNSIGNED: [Division; 4] = results! {
    (0x1_ffff_ffff, 2) => Some((0xffff_ffff, 1));
    (0xffff_fffe_ffff_ffff, 0xffff_ffff) => Some((0xffff_ffff, 0xffff_fffe));
    (0x2_0000_0000, 2) => None;
    (7, 0) => None;
};

const SIGNED: [Division; 7] = results! {
    (0xffff_ffff_ffff_fff9, 2) => Some((0xffff_fffd, 0xffff_ffff));
    (7, 0xffff_fffe) => Some((0xffff_fffd, 1));
    (0xffff_ffff_0000_0000, 2) => Some((0x8000_0000, 0));
    (0x8000_0000, 0xffff_ffff) => Some((0x8000_0000, 0));
    (0x1_0000_0000, 2) => None;
    (0x8000_0000_0000_0000, 0xffff_ffff) => None;
    (7, 0) => None;
};

#[test]
fn quotients(rt: HostRuntime) {
    for (row, ((dividend, divisor), wanted)) in UNSIGNED.iter().enumerate() {
        expect(&rt, &divide(*dividend, *divisor), wanted, row);
    }
    for (row, ((dividend, divisor), wanted)) in SIGNED.iter().enumerate() {
        expect(&rt, &divide_signed(*dividend, *divisor), wanted, row);
    }
}

/// The conditions of the rows below, in their order.
const ORDER: [Cond; 14] = [
    Cond::O,
    Cond::No,
    Cond::B,
    Cond::Ae,
    Cond::E,
    Cond::Ne,
    Cond::Be,
    Cond::A,
    Cond::S,
    Cond::Ns,
    Cond::L,
    Cond::Ge,
    Cond::Le,
    Cond::G,
];

/// Flags, and which of the conditions hold.
const CONDITIONS: [(Bits, [u8; 14]); 5] = results! {
    [0, 0, 0, 0] => [0, 1, 0, 1, 0, 1, 0, 1, 0, 1, 0, 1, 0, 1];
    [0, 0, 0, 1] => [1, 0, 0, 1, 0, 1, 0, 1, 0, 1, 1, 0, 1, 0];
    [0, 0, 1, 1] => [1, 0, 0, 1, 0, 1, 0, 1, 1, 0, 0, 1, 0, 1];
    [0, 1, 0, 0] => [0, 1, 0, 1, 1, 0, 1, 0, 0, 1, 0, 1, 1, 0];
    [1, 0, 1, 0] => [0, 1, 1, 0, 0, 1, 1, 0, 1, 0, 1, 0, 1, 0];
};

/// The condition has this answer under these flags, in the row of this number.
fn expect_holds(
    rt: &impl Abort,
    cond: Cond,
    known: Option<Flags>,
    expected: Option<bool>,
    row: usize,
) {
    expect(rt, &(cond, holds(cond, known)), &(cond, expected), row);
}

/// Under these flags those conditions hold, and the conditions on parity and those on unknown flags have no answer.
fn expect_answers(rt: &impl Abort, known: Flags, expected: &[u8], row: usize) {
    for (cond, bit) in ORDER.iter().zip(expected.iter()) {
        expect_holds(rt, *cond, Some(known), Some(*bit == 1), row);
        expect_holds(rt, *cond, None, None, row);
    }
    expect_holds(rt, Cond::P, Some(known), None, row);
    expect_holds(rt, Cond::Np, Some(known), None, row);
}

/// Under the flags of each row those conditions hold.
fn expect_conditions(rt: &impl Abort, rows: &[(Bits, [u8; 14])]) {
    for (row, (known, expected)) in rows.iter().enumerate() {
        expect_answers(rt, flags(*known), expected, row);
    }
}

#[test]
fn conditions(rt: HostRuntime) {
    expect_conditions(&rt, &CONDITIONS);
}
