//! Each row of the tables, checked.

use crate::expected::expect;
use crate::sources::code::codes_of;
use crate::sources::lowered::{evaluated, graphs_of_program, program_of_text, ran};
use crate::sources::programs;
use crate::tables::{cells, rows_of};
use c_tree::Program;
use lower::Graphs;
use std::alloc::Global;
use std::process::Abort;

/// Numbers of turns, among which are some in which most programs don't end. The last is more than any program of the
/// tables takes that ends.
const TURNS: [u64; 8] = [0, 1, 2, 3, 4, 7, 12, 20_000];

/// The outcomes by the source's meaning and by the graphs are the same in each of these numbers of turns, and in the
/// last one the program does this.
fn expect_outcomes(
    rt: &impl Abort,
    alloc: Global,
    program: &Program,
    graphs: &Graphs,
    input: &[u8],
    row: &str,
) -> String {
    let codes = codes_of(alloc, graphs.functions.as_slice()).expect(rt, row);
    let mut last = String::new(alloc);
    for turns in &TURNS {
        let meant = evaluated(rt, alloc, program, input, *turns);
        last = ran(rt, alloc, codes.as_slice(), graphs, input, *turns);
        expect(rt, &last.as_str(), &meant.as_str(), row);
    }
    last
}

/// The program of each row does what stands in it.
fn expect_rows(rt: &impl Abort, alloc: Global, table: &str) {
    for row in rows_of(rt, table) {
        let (left, wanted) = cells(rt, row);
        let (text, input) = left.split_once(" <= ").unwrap_or((left, ""));
        let Ok(program) = program_of_text(alloc, programs::BEFORE, text) else {
            panic!(rt; "{row}: refused");
        };
        let graphs = graphs_of_program(alloc, &program).expect(rt, row);
        let outcome = expect_outcomes(rt, alloc, &program, &graphs, input.as_bytes(), row);
        let (_, found) = cells(rt, outcome.as_str());
        expect(rt, &found, &wanted, row);
    }
}

#[test]
fn expressions(rt: HostRuntime) {
    let alloc = rt.alloc();
    expect_rows(&rt, alloc, programs::OPERATORS);
    expect_rows(&rt, alloc, programs::CONVERSIONS);
    expect_rows(&rt, alloc, programs::CONDITIONS);
    expect_rows(&rt, alloc, programs::ASSIGNMENTS);
}

#[test]
fn statements(rt: HostRuntime) {
    let alloc = rt.alloc();
    expect_rows(&rt, alloc, programs::LOOPS);
    expect_rows(&rt, alloc, programs::SWITCHES);
    expect_rows(&rt, alloc, programs::CALLS);
}

#[test]
fn objects(rt: HostRuntime) {
    let alloc = rt.alloc();
    expect_rows(&rt, alloc, programs::ARRAYS);
    expect_rows(&rt, alloc, programs::POINTERS);
    expect_rows(&rt, alloc, programs::STATICS);
    expect_rows(&rt, alloc, programs::OUTSIDE);
}

#[test]
fn traps(rt: HostRuntime) {
    expect_rows(&rt, rt.alloc(), programs::TRAPS);
}
