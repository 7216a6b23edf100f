//! Generated programs as the command `gen` puts them: how they begin, how long they are, and what they print; and what
//! `selftest` puts of them.

use crate::expected::expect;
use crate::runs::{expect_command, expect_run, files_with, no_files, run_line};
use crate::tables::{cells, rows_of};
use pcc_outside::MemFiles;
use std::alloc::{AllocError, Global};
use std::process::Abort;

/// How the program of 1 begins.
const BEGINNING: &str = "int t[64];
int f0(int a, int b) {
  char c = a;
  short d = b;
  int e = 838;
  d = a / 7;
";

/// Numbers, the bytes of their programs' texts, the constant of the first function, the turns of the programs, and the
/// digits that they print: by a program of its own outside of the repository that makes the text, and by `gcc -fwrapv`
/// with shifts by counts modulo 32.
const PROGRAMS: &str = "\
6 rows
1 => 23167 838 2596 849c5e22
2 => 23180 908 2476 a3f19f2d
3 => 23167 747 2426 90664c8e
0 => 23151 0 2746 510ef160
4294967295 => 23172 929 2746 d138e82e
+0002 => 23180 908 2476 a3f19f2d";

/// The text that `gen` puts on the output for a number.
fn text_of(rt: &impl Abort, alloc: Global, number: &str) -> Vec<u8> {
    let line: Result<String, AllocError> = format!(in alloc; "gen {number}");
    let line = line.expect(rt, number);
    let mut files = no_files(rt, alloc, 1);
    let answer = run_line(rt, alloc, line.as_str(), &mut files, 1);
    expect(rt, &answer.status, &0, number);
    answer.out.taken().to_vec(alloc).expect(rt, number)
}

/// The constant of the first function, up to its semicolon.
fn first_constant(text: &str) -> &str {
    let (_, from) = text.split_once("  int e = ").unwrap_or(("", ""));
    from.split_once(";").unwrap_or(("", "")).0
}

/// The program of a row prints its digits in exactly its turns.
fn expect_digits(rt: &impl Abort, alloc: Global, source: &str, turns: &str, digits: &str) {
    let turns: u64 = turns.parse().expect(rt, turns);
    let spent = turns.saturating_sub(1);
    let mut files = files_with(rt, alloc, source);
    let ends: Result<String, AllocError> = format!(in alloc;
        "eval --turns {turns} a.c => 0 exit 0$ => {digits}$"
    );
    let ends = ends.expect(rt, digits);
    expect_command(rt, alloc, &mut files, ends.as_str());
    let goes_on: Result<String, AllocError> = format!(in alloc;
        "eval --turns {spent} a.c => 10 budget {spent}$ => {digits}"
    );
    let goes_on = goes_on.expect(rt, digits);
    expect_command(rt, alloc, &mut files, goes_on.as_str());
}

/// `gen` puts a program that ends, prints its digits, and is the one of its number. It asks nothing of the files or of
/// standard error.
#[test]
fn generates_programs(rt: HostRuntime) {
    let alloc = rt.alloc();
    for row in rows_of(&rt, PROGRAMS) {
        let (number, told) = cells(&rt, row);
        let mut words = told.split_whitespace();
        let bytes: usize = words.next().unwrap_or("").parse().expect(&rt, row);
        let constant = words.next().unwrap_or("");
        let turns = words.next().unwrap_or("");
        let text = text_of(&rt, alloc, number);
        let source = std::str::from_utf8(text.as_slice()).expect(&rt, row);
        expect(
            &rt,
            &(source.len(), first_constant(source)),
            &(bytes, constant),
            row,
        );
        expect_digits(&rt, alloc, source, turns, words.next().unwrap_or(""));
    }
}

/// The program of 1 begins as drawn, and its image prints its digits.
#[test]
fn compiles_the_generated(rt: HostRuntime) {
    let alloc = rt.alloc();
    let text = text_of(&rt, alloc, "1");
    let source = std::str::from_utf8(text.as_slice()).expect(&rt, "the text");
    expect(&rt, &source.starts_with(BEGINNING), &true, "the beginning");
    expect_run(&rt, alloc, source, "", "0 exit 0$ => 849c5e22$");
}

/// `selftest` of a number writes `g`, and puts two lines with these digits, the second with a number of steps, which is
/// answered. It asks nothing of standard error.
fn expect_selftest(
    rt: &impl Abort,
    alloc: Global,
    files: &mut MemFiles,
    number: &str,
    digits: &str,
) -> u64 {
    let line: Result<String, AllocError> = format!(in alloc; "selftest -o g {number}");
    let line = line.expect(rt, number);
    let answer = run_line(rt, alloc, line.as_str(), files, 1);
    let front: Result<String, AllocError> = format!(in alloc;
        "eval {digits} exit 0\nrun {digits} exit 0 steps "
    );
    let front = front.expect(rt, number);
    let text = std::str::from_utf8(answer.out.taken()).expect(rt, number);
    let steps = text.strip_prefix(front.as_str()).expect(rt, text);
    expect(rt, &answer.status, &0, number);
    steps.trim_end().parse().expect(rt, text)
}

/// The image `g` ends in exactly so many steps, and has put these digits.
fn expect_steps(rt: &impl Abort, alloc: Global, files: &mut MemFiles, steps: u64, digits: &str) {
    let fewer = steps.saturating_sub(1);
    let ends: Result<String, AllocError> = format!(in alloc;
        "run --steps {steps} g => 0 exit 0$ => {digits}$"
    );
    expect_command(rt, alloc, files, ends.expect(rt, digits).as_str());
    let goes_on: Result<String, AllocError> = format!(in alloc;
        "run --steps {fewer} g => 10 budget {fewer}$ => {digits}$"
    );
    expect_command(rt, alloc, files, goes_on.expect(rt, digits).as_str());
}

/// `selftest` evaluates and compiles the program of each row, and its image prints the same digits, twice alike; the
/// steps that it tells are the least with which the image ends.
#[test]
fn tests_generated_programs(rt: HostRuntime) {
    let alloc = rt.alloc();
    for row in rows_of(&rt, PROGRAMS) {
        let (number, told) = cells(&rt, row);
        let (_, digits) = told.rsplit_once(" ").expect(&rt, row);
        let mut files = no_files(&rt, alloc, 0);
        let steps = expect_selftest(&rt, alloc, &mut files, number, digits);
        let again = expect_selftest(&rt, alloc, &mut files, number, digits);
        expect(&rt, &again, &steps, row);
        expect_steps(&rt, alloc, &mut files, steps, digits);
    }
}
