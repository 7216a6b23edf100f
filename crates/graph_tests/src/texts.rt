//! Boards that are read from texts and solved, and the texts of their placements.

ghost use Rattle.std.specs.Prelude.{◌≡◌, ◌≤◌, length};

use crate::expected::expect;
use pcc_base::Steps;
use puzzle_solver::{BoardRefusal, print_placement, read_board, solve};
use std::alloc::Global;
use std::marker::Brand;
use std::process::Abort;
use std::sync::ledger::{Blank, Ledger};

/// The text of the placement of a board by its text. None where there is no placement.
fn solved_with<L: Ledger>(
    alloc: Global,
    text: &[u8],
    blank: Blank,
) -> Result<Option<Vec<u8>>, BoardRefusal>
    requires text { length text.now ≤ 4294967295 }
    requires name { blank.name ≡ L.name }
    requires parts { blank.parts ≡ L.parts }
    requires one { L.parts ≡ 1 }
{
    let mut board = read_board::<L>(alloc, text)?;
    let mut steps = Steps::<L>::new(blank);
    if !solve(&mut board, &mut steps) {
        return Ok(None);
    }
    Ok(Some(print_placement(alloc, &board, &mut steps)?))
}

/// Each text of a board gives the text of its placement, or that it has none or is no board.
fn expect_answers(rt: &impl Abort, alloc: Global, rows: &[(&[u8], &[u8])]) {
    for (row, (text, want)) in rows.iter().enumerate() {
        assert!(rt; text.len() <= 1000);
        let found = solved_with::<Brand>(alloc, text, Blank::new(1));
        let answer = match &found {
            Ok(Some(placement)) => placement.as_slice(),
            Ok(None) => b"no placement",
            Err(BoardRefusal::BadBoard) => b"no board",
            Err(_) => b"no memory",
        };
        expect(rt, &answer, want, row);
    }
}

/// Texts of boards, and those of their placements.
const PLACED: [(&[u8], &[u8]); 3] = [
    (
        b"areas bb bu\npieces X2 Z2 Y1\n",
        b"0 X2 0 all\n1 Z2 0 all\n2 Y1 1 low\n",
    ),
    (b"areas uu bb uu uu\npieces Y2\n", b"0 Y2 1 all\n"),
    (b"areas\npieces\n", b""),
];

/// Texts of boards without a placement.
const NONE: [(&[u8], &[u8]); 2] = [
    (b"areas\npieces X1\n", b"no placement"),
    (
        b"areas bb bb bb bb\npieces X2 Z2 Y1 Y1 Y1 Y1 Y1 Y1 Y1\n",
        b"no placement",
    ),
];

/// Texts of no board.
const BAD: [(&[u8], &[u8]); 6] = [
    (b"areas b\npieces\n", b"no board"),
    (b"areas bb\npieces X3\n", b"no board"),
    (b"areas  bb\npieces\n", b"no board"),
    (b"areas bb\npieces X1", b"no board"),
    (b"areas bb\npieces X1\n\n", b"no board"),
    (b"", b"no board"),
];

#[test]
fn places_what_a_text_has(rt: HostRuntime) {
    expect_answers(&rt, rt.alloc(), &PLACED);
}

#[test]
fn knows_texts_of_none(rt: HostRuntime) {
    expect_answers(&rt, rt.alloc(), &NONE);
}

#[test]
fn refuses_texts_of_no_board(rt: HostRuntime) {
    expect_answers(&rt, rt.alloc(), &BAD);
}
