//! What the tests run: commands over files in memory or of the system, and what each is to answer. Where there is no
//! memory for it, the test ends there.

use crate::expected::expect;
use crate::tables::{cells, rows_of, unfolded};
use pcc_driver::pcc;
use pcc_outside::{FileStore, MemFiles, MemSink, MemSource};
use std::alloc::{AllocError, Global};
use std::process::Abort;

/// The words of a command line.
fn words_of(alloc: Global, line: &str) -> Result<Vec<String>, AllocError> {
    let mut words = Vec::new(alloc);
    for word in line.split_whitespace() {
        words.push(String::from_str(alloc, word)?)?;
    }
    Ok(words)
}

/// A list of the numbers of failing calls: this one, or none where it is 0.
fn failing(rt: &impl Abort, alloc: Global, number: u64) -> Vec<u64> {
    let numbers = [number];
    let listed = if number > 0 { numbers.as_slice() } else { &[] };
    listed.to_vec(alloc).expect(rt, "numbers of calls")
}

/// What a command answers, and what it puts on standard output and standard error.
#[derive(Drop)]
pub struct Answer {
    pub status: u8,
    pub out: MemSink,
    pub err: MemSink,
}

/// A sink whose call with this number fails, and none where it is 0.
pub(crate) fn sink_of(rt: &impl Abort, alloc: Global, failing_call: u64) -> MemSink {
    MemSink::new(alloc, failing(rt, alloc, failing_call))
}

/// Runs a command over these files, this input and these sinks.
pub(crate) fn run_with<F: FileStore>(
    rt: &impl Abort,
    alloc: Global,
    line: &str,
    files: &mut F,
    mut input: MemSource,
    mut out: MemSink,
    mut err: MemSink,
) -> Answer {
    let words = words_of(alloc, line).expect(rt, "words");
    let status = pcc(alloc, &words, files, &mut input, &mut out, &mut err);
    Answer { status, out, err }
}

/// Runs a command over these files and this input. Of standard error the call with this number fails.
pub(crate) fn run_over<F: FileStore>(
    rt: &impl Abort,
    alloc: Global,
    line: &str,
    files: &mut F,
    input: MemSource,
    failing_put: u64,
) -> Answer {
    let err = sink_of(rt, alloc, failing_put);
    run_with(rt, alloc, line, files, input, sink_of(rt, alloc, 0), err)
}

/// Runs a command over these files with an empty input. Of standard error the call with this number
/// fails.
pub fn run_line<F: FileStore>(
    rt: &impl Abort,
    alloc: Global,
    line: &str,
    files: &mut F,
    failing_put: u64,
) -> Answer {
    let input = MemSource::new(Vec::new(alloc), Vec::new(alloc));
    run_over(rt, alloc, line, files, input, failing_put)
}

/// Puts a file with these bytes.
pub fn put(rt: &impl Abort, files: &mut MemFiles, name: &str, bytes: &[u8]) {
    let placed = files.place(name, bytes).is_ok();
    expect(rt, &placed, &true, name);
}

/// Files in memory, of whose calls the one with this number fails.
pub(crate) fn no_files(rt: &impl Abort, alloc: Global, failing_call: u64) -> MemFiles {
    MemFiles::new(alloc, failing(rt, alloc, failing_call))
}

/// Files in memory with one source.
pub(crate) fn files_with(rt: &impl Abort, alloc: Global, source: &str) -> MemFiles {
    let mut files = no_files(rt, alloc, 0);
    put(rt, &mut files, "a.c", source.as_bytes());
    files
}

/// An input with these bytes. The call with this number fails, and none where it is 0.
pub fn input_of(rt: &impl Abort, alloc: Global, text: &str, failing_call: u64) -> MemSource {
    let bytes = text.as_bytes().to_vec(alloc).expect(rt, "an input");
    MemSource::new(bytes, failing(rt, alloc, failing_call))
}

/// A command is answered by these bytes on the output, this status and this line.
pub(crate) fn expect_answer(
    rt: &impl Abort,
    answer: &Answer,
    out: &str,
    status: u8,
    line: &str,
    of: &str,
) {
    expect(rt, &answer.err.taken(), &line.as_bytes(), of);
    expect(rt, &answer.out.taken(), &out.as_bytes(), of);
    expect(rt, &answer.status, &status, of);
}

/// A command tells what a row says: the status, the line on standard error if there is one, and what stands on the
/// output if something does.
pub(crate) fn expect_told(rt: &impl Abort, alloc: Global, answer: &Answer, told: &str, of: &str) {
    let told = unfolded(alloc, told).expect(rt, of);
    let told = told.as_str();
    let (told, out) = told.split_once(" => ").unwrap_or((told, ""));
    let (status, line) = told.split_once(" ").unwrap_or((told, ""));
    let status: u8 = status.parse().expect(rt, of);
    expect_answer(rt, answer, out, status, line, of);
}

/// The source of a program's row, and its input.
pub(crate) fn source_and_input(program: &str) -> (&str, &str) {
    program.split_once(" <= ").unwrap_or((program, ""))
}

/// A program with this input is compiled, and its image tells this.
pub(crate) fn expect_run(rt: &impl Abort, alloc: Global, source: &str, input: &str, told: &str) {
    let mut files = files_with(rt, alloc, source);
    let compiled = run_line(rt, alloc, "compile -o a a.c", &mut files, 0);
    expect_answer(rt, &compiled, "", 0, "", source);
    let input = input_of(rt, alloc, input, 0);
    let ran = run_over(rt, alloc, "run a", &mut files, input, 0);
    expect_told(rt, alloc, &ran, told, source);
}

/// The program of each row is compiled, and its image is run.
pub(crate) fn expect_runs(rt: &impl Abort, alloc: Global, table: &str) {
    for row in rows_of(rt, table) {
        let (program, told) = cells(rt, row);
        let program = unfolded(alloc, program).expect(rt, row);
        let (source, input) = source_and_input(program.as_str());
        expect_run(rt, alloc, source, input, told);
    }
}

/// The command of a row, over files with an empty input, tells what the row says.
pub(crate) fn expect_command<F: FileStore>(
    rt: &impl Abort,
    alloc: Global,
    files: &mut F,
    row: &str,
) {
    let (words, told) = cells(rt, row);
    let answer = run_line(rt, alloc, words, files, 0);
    expect_told(rt, alloc, &answer, told, row);
}

/// The commands of a table, in their order.
pub(crate) fn expect_commands<F: FileStore>(
    rt: &impl Abort,
    alloc: Global,
    files: &mut F,
    table: &str,
) {
    for row in rows_of(rt, table) {
        expect_command(rt, alloc, files, row);
    }
}
