//! How tables are read. A table is a text with a row on each line: what goes in, `=>`, and what is to come of it. What
//! follows a semicolon is for the reader.

use crate::expected::expect;
use std::alloc::Global;
use std::fmt::Debug;
use std::process::Abort;
use std::str::Lines;

/// The rows of the table, which are that many.
pub fn rows_of<'a>(rt: &impl Abort, table: &'a str, count: usize) -> Lines<'a> {
    expect(rt, &table.lines().count(), &count, table);
    table.lines()
}

/// What goes in, and what is to come of it.
pub fn cells<'a>(rt: &impl Abort, row: &'a str) -> (&'a str, &'a str) {
    row.split_once(" => ").expect(rt, row)
}

/// The bytes that stand in the text in hexadecimal, with a space between two of them.
pub fn bytes_of(rt: &impl Abort, alloc: Global, text: &str) -> Vec<u8> {
    let mut bytes = Vec::new(alloc);
    for digits in text.split_whitespace() {
        let byte = u8::from_str_radix(digits, 16).expect(rt, text);
        bytes.push(byte).expect(rt, "memory for a byte");
    }
    bytes
}

/// The number that these digits make in hexadecimal.
pub fn number_of(rt: &impl Abort, digits: &str) -> u32 {
    u32::from_str_radix(digits, 16).expect(rt, digits)
}

/// The numbers that stand in the text in hexadecimal, with a space between two of them, and `-` for none.
pub fn numbers_of(rt: &impl Abort, alloc: Global, text: &str) -> Vec<Option<u32>> {
    let mut numbers = Vec::new(alloc);
    for digits in text.split(' ') {
        let none = digits == "-";
        let number = if none {
            None
        } else {
            Some(number_of(rt, digits))
        };
        numbers.push(number).expect(rt, "memory for a number");
    }
    numbers
}

/// What was made is printed by `{:?}` as the text says, up to its semicolon.
pub(crate) fn expect_printed<T: Debug>(rt: &impl Abort, alloc: Global, made: &T, text: &str) {
    let wanted = text.split(" ; ").next();
    let printed = format!(in alloc; "{made:?}").expect(rt, "memory for a text");
    expect(rt, &Some(printed.as_str()), &wanted, text);
}
