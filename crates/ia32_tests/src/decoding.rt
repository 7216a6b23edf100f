//! Spellings and the instructions that they spell. GNU as 2.40 (`as --32`) gave the bytes for the text of each
//! instruction; where it has no text for a spelling, objdump 2.40 gave the text for the bytes.

mod addresses;
mod arithmetic;
mod bytes;
mod jumps;
mod moves;
mod none;

use crate::expected::expect;
use crate::rows::{bytes_of, cells, expect_printed, rows_of};
use ia32_asm::encode;
use ia32_decode::decode;
use std::alloc::Global;
use std::process::Abort;

/// What `PLACE` stands for in the rows: [ebx+esi*4-8].
const PLACE: &str = "Mem { base: Some(Ebx), index: Some((Esi, 4)), disp: -8 }";

/// The bytes of the row are a spelling of its instruction, and those that it is encoded in where `encoded`.
fn expect_row(rt: &impl Abort, alloc: Global, row: &str, encoded: bool) {
    let (digits, text) = cells(rt, row);
    let bytes = bytes_of(rt, alloc, digits);
    let (spelt, length) = decode(&bytes).expect(rt, row);
    expect_printed(rt, alloc, &spelt, text);
    expect(rt, &length, &bytes.len(), row);
    if encoded {
        expect(rt, &encode(&spelt).as_slice(), &bytes.as_slice(), row);
    }
}

/// The table has so many rows, and each is as `expect_row` says.
pub fn expect_rows(rt: &impl Abort, alloc: Global, table: &str, count: usize, encoded: bool) {
    let whole = table
        .replace(alloc, "PLACE", PLACE)
        .expect(rt, "memory for a table");
    for row in rows_of(rt, whole.as_str(), count) {
        expect_row(rt, alloc, row, encoded);
    }
}

/// The table has so many rows, and the bytes before each semicolon spell no instruction.
fn expect_none(rt: &impl Abort, alloc: Global, table: &str, count: usize) {
    for row in rows_of(rt, table, count) {
        let (digits, _) = row.split_once(';').expect(rt, row);
        expect(
            rt,
            &decode(&bytes_of(rt, alloc, digits)).is_none(),
            &true,
            row,
        );
    }
}

/// The tables of spellings.
#[test]
fn spellings(rt: HostRuntime) {
    let alloc = rt.alloc();
    expect_rows(&rt, alloc, arithmetic::ROWS, 75, false);
    expect_rows(&rt, alloc, bytes::ROWS, 66, false);
    expect_rows(&rt, alloc, jumps::ROWS, 83, false);
    expect_rows(&rt, alloc, moves::ROWS, 47, false);
    expect_rows(&rt, alloc, addresses::ROWS, 141, false);
    expect_none(&rt, alloc, none::ROWS, 24);
}
