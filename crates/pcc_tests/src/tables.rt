//! Tables, each of which is a text: its first line says how many rows there are, and each other line is a row.
//! ` => ` stands between the cells of a row, and `$` where a line of a text ends.

use crate::expected::expect;
use std::alloc::{AllocError, Global};
use std::process::Abort;
use std::str::Lines;

/// The rows of a table, which are as many as it says.
pub fn rows_of<'a>(rt: &impl Abort, table: &'a str) -> Lines<'a> {
    let (count, rows) = table.split_once(" rows\n").expect(rt, table);
    let count: usize = count.parse().expect(rt, table);
    expect(rt, &rows.lines().count(), &count, table);
    rows.lines()
}

/// The first cell of a row, and what stands behind it.
pub fn cells<'a>(rt: &impl Abort, row: &'a str) -> (&'a str, &'a str) {
    row.split_once(" => ").expect(rt, row)
}

/// A row with an end of a line in place of each `$`.
pub(crate) fn unfolded(alloc: Global, row: &str) -> Result<String, AllocError> {
    let mut out = String::new(alloc);
    for letter in row.chars() {
        out.push(if letter == '$' { '\n' } else { letter })?;
    }
    Ok(out)
}
