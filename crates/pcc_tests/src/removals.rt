//! The fewest pieces without which a board is solvable, as the command `least` puts them.

use crate::expected::expect;
use crate::runs::{Answer, expect_answer, expect_command, no_files, put, run_line};
use crate::tables::rows_of;
use std::alloc::{AllocError, Global};
use std::process::Abort;

/// Answers `least` of a board file with this text.
fn least_of(rt: &impl Abort, alloc: Global, board: &str) -> Answer {
    let mut files = no_files(rt, alloc, 0);
    put(rt, &mut files, "b", board.as_bytes());
    run_line(rt, alloc, "least b", &mut files, 0)
}

/// The text of a board with so many areas and pieces of width One.
fn board_of_sizes(alloc: Global, areas: u32, pieces: u32) -> Result<String, AllocError> {
    let mut text = String::from_str(alloc, "areas")?;
    for _area in 0..areas {
        text.push_str(" bb")?;
    }
    text.push_str("\npieces")?;
    for _piece in 0..pieces {
        text.push_str(" Y1")?;
    }
    text.push_str("\n")?;
    Ok(text)
}

/// Numbers of areas and pieces that are too large, and the line.
const LARGE: [(u32, u32, &str); 3] = [
    (65, 0, "limit 32 Board 65 0\n"),
    (4, 257, "limit 32 Board 4 257\n"),
    (65, 300, "limit 32 Board 65 300\n"),
];

/// A board of the greatest size is answered, and a larger one is told.
#[test]
fn refuses_large_boards(rt: HostRuntime) {
    let alloc = rt.alloc();
    for &(areas, pieces, line) in &LARGE {
        let board = board_of_sizes(alloc, areas, pieces).expect(&rt, line);
        let answer = least_of(&rt, alloc, board.as_str());
        expect_answer(&rt, &answer, "", 3, line, line);
    }
    let board = board_of_sizes(alloc, 64, 256).expect(&rt, "a board");
    let answer = least_of(&rt, alloc, board.as_str());
    let text = std::str::from_utf8(answer.out.taken()).expect(&rt, "its answer");
    let first = text.lines().next().unwrap_or("");
    let removed = first.split_whitespace().count().saturating_sub(1);
    expect(
        &rt,
        &(answer.status, removed, text.lines().count()),
        &(0, 128, 129),
        "the largest",
    );
}

/// Command lines over a file that is no board.
const LINES: &str = "\
3 rows
least b => 1 b: 25 BadBoard$
least c => 6 no file c$
solve b => 1 b: 25 BadBoard$";

/// A file that is no board, or isn't there, has its line.
#[test]
fn refuses_other_files(rt: HostRuntime) {
    let alloc = rt.alloc();
    let mut files = no_files(&rt, alloc, 0);
    put(&rt, &mut files, "b", b"areas b\npieces\n");
    for row in rows_of(&rt, LINES) {
        expect_command(&rt, alloc, &mut files, row);
    }
}
